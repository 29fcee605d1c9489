// A reader of the points of the plan file, in their order.
ghost use Rattle.std.specs.Prelude.{◌≡◌, ◌-◌, ◌<◌};
ghost use Rattle.theory_travel.specs.Table.{entry_at};
ghost use Rattle.plan.specs.PlanDecode.{PlanLaid, decode_plan};
ghost use Rattle.plan.specs.PlanWalk.{point_at};

use day_runs::points::Points;
use file_blocks::kind::PROFILE_POINT;
use file_blocks::walk::Walk;
use plan::header::PlanLayout;

// The bytes of a point at which its tick and its travel stand.
const TICK_AT: usize = 0;

const TRAVEL_AT: usize = 2;

// Before a point of the file. Its number serves the proof alone: no code reads it.
#[derive(Clone, Copy)]
pub struct ProfilePoints<'a> {
    plan: &'a [u8],
    layout: &'a PlanLayout,
    point: usize,
    at: Walk,
    pub ghost laid: { PlanLaid plan.now layout.now },
    pub ghost stands: { (point < layout.now.points) × (at ≡ point_at layout.now.pointblock point) },
}

impl<'a> ProfilePoints<'a> {
    // Before point q.
    pub fn new(plan: &'a [u8], layout: &'a PlanLayout, q: usize) -> ProfilePoints<'a>
        requires laid { PlanLaid plan.now layout.now }
        requires q_lt_points { q < layout.now.points }
        ensures { (result.plan.now ≡ plan.now) × (result.layout.now ≡ layout.now) × (result.point ≡ q) }
    {
        ProfilePoints {
            plan,
            layout,
            point: q,
            at: Walk::new(layout.pointblock, PROFILE_POINT, q),
        }
    }
}

impl Points for ProfilePoints<'_> {
    ghost ticks = { λ s. entry_at (decode_plan s.plan.now).ticks s.point };

    ghost values = { λ s. entry_at (decode_plan s.plan.now).travels s.point };

    ghost left = { λ s. s.layout.now.points - s.point };

    fn tick(&self) -> usize {
        self.at.field16(self.plan, TICK_AT)
    }

    fn value(&self) -> u32 {
        self.at.field32(self.plan, TRAVEL_AT)
    }

    fn step(&mut self) {
        self.at = self.at.next(PROFILE_POINT);
        self.point += 1;
    }
}
