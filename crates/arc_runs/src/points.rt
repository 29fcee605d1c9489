// A reader of the points of the network file, in their order (specs/Points.antt).
ghost use Rattle.std.specs.Prelude.{◌≡◌, ◌-◌, ◌<◌};
ghost use Rattle.theory_travel.specs.Table.{entry_at};
ghost use Rattle.network.specs.Decode.{decode, Laid};
ghost use Rattle.arc_runs.specs.Points.{point_at};

use day_runs::points::Points;
use file_blocks::kind::POINT;
use file_blocks::walk::Walk;
use network::header::Layout;

// The bytes of a point at which its tick and its travel stand.
const TICK_AT: usize = 0;

const TRAVEL_AT: usize = 2;

// Before a point of the file. Its number serves the proof alone: no code reads it.
#[derive(Clone, Copy)]
pub struct ArcPoints<'a> {
    file: &'a [u8],
    layout: &'a Layout,
    point: usize,
    at: Walk,
    pub ghost laid: { Laid file.now layout.now },
    pub ghost stands: { (point < layout.now.points) × (at ≡ point_at layout.now.pointblock point) },
}

impl<'a> ArcPoints<'a> {
    // Before point q.
    pub fn new(file: &'a [u8], layout: &'a Layout, q: usize) -> ArcPoints<'a>
        requires laid { Laid file.now layout.now }
        requires q_lt_points { q < layout.now.points }
        ensures { (result.file.now ≡ file.now) × (result.layout.now ≡ layout.now) × (result.point ≡ q) }
    {
        ArcPoints {
            file,
            layout,
            point: q,
            at: Walk::new(layout.pointblock, POINT, q),
        }
    }
}

impl Points for ArcPoints<'_> {
    ghost ticks = { λ s. entry_at (decode s.file.now).ticks s.point };

    ghost values = { λ s. entry_at (decode s.file.now).travels s.point };

    ghost left = { λ s. s.layout.now.points - s.point };

    fn tick(&self) -> usize {
        self.at.field16(self.file, TICK_AT)
    }

    fn value(&self) -> u32 {
        self.at.field16(self.file, TRAVEL_AT) as u32
    }

    fn step(&mut self) {
        self.at = self.at.next(POINT);
        self.point += 1;
    }
}
