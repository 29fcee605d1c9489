// The entries of a plan file, read in place: one function for each of its four tables.
// Each contract equates the answer with the entry of the plan that the file decodes to; callers see no bytes.
ghost use Rattle.std.specs.Prelude.{◌≡◌, ◌<◌};
ghost use Rattle.plan.specs.Plan.{point_count};
ghost use Rattle.plan.specs.PlanDecode.{PlanLaid, decode_plan, flag_word, point_tick, point_travel};

use crate::header::PlanLayout;
use file_fields::fields::{le32, le64};

// The flag word of arc a.
pub fn flag_word(plan: &[u8], l: PlanLayout, a: usize) -> u64
    requires plan_laid { PlanLaid plan.now l }
    requires a_lt_arcs { a < l.arcs }
    ensures { result ≡ flag_word (decode_plan plan.now) a }
{
    le64(plan, l.flags_run().offset(a))
}

// How many points profile k has.
pub fn point_count(plan: &[u8], l: PlanLayout, k: usize) -> usize
    requires plan_laid { PlanLaid plan.now l }
    requires k_lt_profiles { k < l.profiles }
    ensures { (result ≡ point_count (decode_plan plan.now) k) × (result < 65536) }
{
    l.counts_run().field16(plan, 0, k)
}

// The tick of point q.
pub fn tick(plan: &[u8], l: PlanLayout, q: usize) -> usize
    requires plan_laid { PlanLaid plan.now l }
    requires q_lt_points { q < l.points }
    ensures { (result ≡ point_tick (decode_plan plan.now) q) × (result < 65536) }
{
    l.points_run().field16(plan, 0, q)
}

// The travel of point q.
pub fn travel(plan: &[u8], l: PlanLayout, q: usize) -> u32
    requires plan_laid { PlanLaid plan.now l }
    requires q_lt_points { q < l.points }
    ensures { result ≡ point_travel (decode_plan plan.now) q }
{
    le32(plan, l.points_run().offset(q) + 2)
}
