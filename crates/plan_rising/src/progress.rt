// How far the blocks of a plan's points have been looked at, each once: at its check, its form and the breaks
// of its ticks, while it is in the nearest cache. specs/Progress.antt.
ghost use Rattle.std.specs.Prelude.{◌≡◌, ◌+◌, ◌<◌, ◌≤◌, true};
ghost use Rattle.file_blocks.specs.Kind.{profile_point_per};
ghost use Rattle.file_blocks.specs.Place.{blocks};
ghost use Rattle.plan.specs.PlanDecode.{PlanLaid};
ghost use Rattle.plan_rising.specs.Progress.{points_sound, Walked};

use crate::breaks::is_break;
use crate::words::breaks_beside;
use file_blocks::kind;
use file_fields::fields::le16;
use file_fields::{BLOCK, HEAD};
use file_forms::sound::is_sound_block;
use plan::header::PlanLayout;

// So many blocks have been looked at, with this tick for their last and so many breaks. All three are numbers
// of one width, so that a compiler keeps them at hand while a block is looked at.
#[derive(Clone, Copy)]
pub struct Progress {
    pub done: usize,
    pub last: usize,
    pub breaks: usize,
}

// The progress before the first block.
pub fn start() -> Progress
    ensures { (result.done ≡ 0) × (result.last ≡ 0) × (result.breaks ≡ 0) }
{
    Progress {
        done: 0,
        last: 0,
        breaks: 0,
    }
}

// One block more, whose check and form are right.
fn step(plan: &[u8], l: PlanLayout, progress: Progress) -> Progress
    requires plan_laid { PlanLaid plan.now l }
    requires walked { Walked plan.now l progress }
    requires done_bound { progress.done < blocks profile_point_per l.points }
    requires done_value { points_sound plan.now l progress.done ≡ true }
    ensures { Walked plan.now l result × (result.done ≡ progress.done + 1) }
{
    let j = progress.done;
    let m = kind::PROFILE_POINT.entries_in(l.points, j) - 1;
    let base = BLOCK * (l.pointblock + j) + HEAD;
    let behind = usize::from(is_break(le16(plan, base), progress.last as u16));
    let beside = breaks_beside(plan, base, m);
    Progress {
        done: j + 1,
        last: usize::from(le16(plan, base + kind::PROFILE_POINT.size * m)),
        breaks: progress.breaks + behind + beside,
    }
}

// The progress up to block `until`, or up to the first block before it whose check or form is wrong.
pub fn advance(plan: &[u8], l: PlanLayout, progress: Progress, until: usize) -> Progress
    requires plan_laid { PlanLaid plan.now l }
    requires walked { Walked plan.now l progress }
    requires done_le_until { (progress.done ≤ until) × (until ≤ blocks profile_point_per l.points) }
    ensures { Walked plan.now l result }
{
    let done = progress.done;
    let mut next = progress;
    for j in done..until {
        let sound = is_sound_block(plan, l.points_run(), j);
        if !sound {
            return next;
        }
        next = step(plan, l, next);
    }
    next
}
