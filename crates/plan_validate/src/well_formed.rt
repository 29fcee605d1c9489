// Whether a file is a well-formed plan for a network that opens, yes or no: what a good file is asked. The
// blocks of points, which are nearly all of it, are gone over once. Where the answer is no, validate.rt finds
// the refusal and its place.
ghost use Rattle.std.specs.Prelude.{◌≡◌, true, ◌≤◌, length};
ghost use Rattle.file_fields.specs.Block.{block_size};
ghost use Rattle.network.specs.Decode.{decode};
ghost use Rattle.network.specs.Town.{partition_of};
ghost use Rattle.network.specs.Valid.{ValidFile};
ghost use Rattle.plan.specs.Border.{border_count};
ghost use Rattle.plan.specs.PlanHeader.{plan_header_at};
ghost use Rattle.plan.specs.PlanDecode.{PlanLaid};
ghost use Rattle.plan.specs.PlanValid.{ValidPlan};
ghost use Rattle.plan_validate.specs.Good.{SoundFront, SoundPlan};

use file_blocks::kind;
use file_fields::BLOCK;
use file_forms::form::first_unformed;
use file_forms::sound::first_bad_before;
use network::header::Header;
use plan::header::PlanLayout;
use plan_rising::rising::is_rising;
use plan_rules::header::{header_at, is_first_formed, is_matching};
use plan_rules::rules::first_bad_word;

// Have the blocks before the points right checks, and those after the first their form?
fn is_sound_front(plan: &[u8], l: PlanLayout) -> bool
    requires { PlanLaid plan.now l }
    ensures { result ≡ true → SoundFront plan.now l }
{
    if first_bad_before(plan, l.pointblock) < l.pointblock {
        return false;
    }
    let i = first_unformed(plan, l.flags_run());
    if i < l.countblock {
        return false;
    }
    let j = first_unformed(plan, l.counts_run());
    l.pointblock <= j
}

// Are all checks right, all later blocks in their form, and the rules 17 to 19 kept?
fn is_sound(plan: &[u8], l: PlanLayout) -> bool
    requires { PlanLaid plan.now l }
    ensures { result ≡ true → SoundPlan plan.now l }
{
    let front = is_sound_front(plan, l);
    if !front {
        return false;
    }
    if first_bad_word(plan, l) < l.arcs {
        return false;
    }
    is_rising(plan, l)
}

// Is the file a well-formed plan for the network, which has so many borders?
pub fn is_well_formed(network: &[u8], h: Header, borders: usize, plan: &[u8]) -> bool
    requires valid_file { ValidFile network.now h }
    requires borders_value { borders ≡ border_count (partition_of (decode network.now)) }
    requires block_size_in_bounds { block_size ≤ length plan.now }
    ensures { result ≡ true
        → ValidPlan h (decode network.now) plan.now (plan_header_at plan.now) }
{
    let formed = is_first_formed(plan);
    if !formed {
        return false;
    }
    let k = header_at(plan);
    let matches = is_matching(h, borders, k);
    if !matches {
        return false;
    }
    let p = k.layout();
    if plan.len() != BLOCK * p.blocks {
        return false;
    }
    is_sound(plan, p)
}
