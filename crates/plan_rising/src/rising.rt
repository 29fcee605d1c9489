// Whether a plan keeps the rules 18 and 19, in blocks of points whose checks and forms are right, yes or no:
// what a good file is asked. The points of all profiles are one row, and each profile begins at tick 0, so
// its first point is a break of that row; where there are no others, the ticks of every profile rise. What
// else the rules ask is asked profile by profile, before the blocks up to its last point are looked at.
ghost use Rattle.std.specs.Prelude.{◌≡◌, ◌+◌, ◌<◌, ◌≤◌, true, nat_lt};
ghost use Rattle.theory_breaks.specs.Tally.{flag};
ghost use Rattle.theory_travel.specs.Table.{entry_at};
ghost use Rattle.plan.specs.PlanDecode.{decode_plan, PlanLaid};
ghost use Rattle.plan_rising.specs.Rising.{Kept, Risen};

use crate::progress::{advance, start};
use file_blocks::kind;
use file_blocks::walk::Walk;
use plan::header::PlanLayout;
use plan::read::tick;

// Are the points of one profile, `count` of them from number `from` on, no more than the ticks, and do they
// stand in the file?
fn has_room(l: PlanLayout, from: usize, count: usize) -> bool
    requires { (from ≤ l.points) × (count < 65536) × (l.points < 4294967296) }
    ensures { result ≡ true → (count ≤ l.period) × (from + count ≤ l.points) }
{
    if l.period < count {
        return false;
    }
    from + count <= l.points
}

// Are they so, the first of them at tick 0, and the last below the period?
fn is_kept(plan: &[u8], l: PlanLayout, from: usize, count: usize) -> bool
    requires plan_laid { PlanLaid plan.now l }
    requires from_le_points { (from ≤ l.points) × (count < 65536) }
    ensures { result ≡ true
        → Kept l (entry_at (decode_plan plan.now).ticks from) from count }
{
    let room = has_room(l, from, count);
    if !room {
        return false;
    }
    if count < 1 {
        return true;
    }
    if 0 < tick(plan, l, from) {
        return false;
    }
    tick(plan, l, from + (count - 1)) < l.period
}

// 1 where a profile has points, 0 where it has none.
fn has_points(count: usize) -> usize
    ensures { (result ≡ flag (nat_lt 0 count)) × (result < 2) }
{
    usize::from(0 < count)
}

// Does the plan keep the rules, in sound blocks: are all profiles so, do the counts add up to the points, and
// are there no breaks but where profiles begin?
pub fn is_rising(plan: &[u8], l: PlanLayout) -> bool
    requires { PlanLaid plan.now l }
    ensures { result ≡ true → Risen plan.now l }
{
    let profiles = l.profiles;
    let mut counts = Walk::new(l.countblock, kind::COUNT, 0);
    let mut progress = start();
    let mut from = 0;
    let mut some = 0;
    for k in 0..profiles {
        let count = counts.field16(plan, 0);
        let kept = is_kept(plan, l, from, count);
        if !kept {
            return false;
        }
        let until = kind::PROFILE_POINT.blocks(from + count);
        progress = advance(plan, l, progress, until);
        let done = progress.done;
        if done != until {
            return false;
        }
        some += has_points(count);
        from += count;
        counts = counts.next(kind::COUNT);
    }
    if from != l.points {
        return false;
    }
    progress.breaks == some
}
