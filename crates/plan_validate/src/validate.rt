// Validation of a plan file against a network file that has been validated: refusals 11 to 19, in place. A
// file that is well-formed is told by one pass over it (well_formed.rt); in any other each fault is looked
// for as the first in its order. Nothing is copied, and every call ends at the first refusal.
ghost use Rattle.std.specs.Prelude.{◌≡◌, ◌+◌, ◌*◌, ◌≤◌, length};
ghost use Rattle.file_fields.specs.Block.{block_size};
ghost use Rattle.network.specs.Decode.{decode};
ghost use Rattle.network.specs.Town.{partition_of};
ghost use Rattle.network.specs.Valid.{ValidFile};
ghost use Rattle.plan.specs.Border.{border_count};
ghost use Rattle.plan.specs.PlanHeader.{plan_header_at, PlanWithin};
ghost use Rattle.plan.specs.PlanDecode.{decode_plan, PlanLaid};
ghost use Rattle.plan.specs.PlanRules.{judged_flags, judged_by};
ghost use Rattle.plan.specs.PlanValidate.{first_unformed, planned_rules};
ghost use Rattle.plan.specs.PlanValidate.{planned_form, planned_length, planned_header};
ghost use Rattle.plan.specs.PlanValidate.{planned_first, planned};

use crate::well_formed::is_well_formed;
use file_blocks::kind;
use file_fields::BLOCK;
use file_forms::form::{first_unformed, is_bad_length};
use file_forms::reader::first_bad_sum;
use file_refusals::reason::Reason;
use file_refusals::{Refusal, refused};
use network::header::Header;
use plan::header::{PlanHeader, PlanLayout};
use plan::limits;
use plan_rules::header::{header_at, is_first_formed, is_matching};
use plan_rules::rules::judge_plan;

// The first block after the header that is out of its form, or the count of blocks.
fn first_bad_form(plan: &[u8], l: PlanLayout) -> usize
    requires { PlanLaid plan.now l }
    ensures { result ≡ first_unformed plan.now (plan_header_at plan.now) }
{
    let i = first_unformed(plan, l.flags_run());
    if i < l.countblock {
        return i;
    }
    let j = first_unformed(plan, l.counts_run());
    if j < l.pointblock {
        return j;
    }
    first_unformed(plan, l.points_run())
}

// Refusals 17 to 19.
fn validate_rules(plan: &[u8], k: PlanHeader, l: PlanLayout) -> Result<PlanHeader, Refusal>
    requires { PlanLaid plan.now l }
    ensures { result ≡ planned_rules k
        (judged_flags l.arcs l.cells l.period l.profiles (decode_plan plan.now)) }
{
    judge_plan(plan, l)?;
    Ok(k)
}

// Refusals 16 to 19.
fn validate_form(plan: &[u8], k: PlanHeader, l: PlanLayout) -> Result<PlanHeader, Refusal>
    requires plan_laid { PlanLaid plan.now l }
    requires k_value { k ≡ plan_header_at plan.now }
    ensures { result ≡ planned_form plan.now k (judged_by k (decode_plan plan.now)) }
{
    let b = first_bad_form(plan, l);
    if b < l.blocks {
        return refused(Reason::PlanForm, b as u32);
    }
    validate_rules(plan, k, l)
}

// Refusals 15 to 19.
fn validate_length(plan: &[u8], k: PlanHeader) -> Result<PlanHeader, Refusal>
    requires plan_within { PlanWithin k }
    requires k_value { k ≡ plan_header_at plan.now }
    ensures { result ≡ planned_length plan.now k (judged_by k (decode_plan plan.now)) }
{
    let l = k.layout();
    if plan.len() != BLOCK * l.blocks {
        return refused(Reason::PlanSize, 0);
    }
    validate_form(plan, k, l)
}

// Refusals 14 to 19.
fn validate_header(
    network: &[u8],
    h: Header,
    borders: usize,
    plan: &[u8],
) -> Result<PlanHeader, Refusal>
    requires valid_file { ValidFile network.now h }
    requires borders_value { borders ≡ border_count (partition_of (decode network.now)) }
    requires block_size_in_bounds { block_size ≤ length plan.now }
    ensures { result ≡ planned_header h (decode network.now) plan.now }
{
    let k = header_at(plan);
    if is_matching(h, borders, k) {
        return validate_length(plan, k);
    }
    refused(Reason::PlanOther, 0)
}

// Refusals 13 to 19.
fn validate_first(
    network: &[u8],
    h: Header,
    borders: usize,
    plan: &[u8],
) -> Result<PlanHeader, Refusal>
    requires valid_file { ValidFile network.now h }
    requires borders_value { borders ≡ border_count (partition_of (decode network.now)) }
    requires block_size_in_bounds { block_size ≤ length plan.now }
    ensures { result ≡ planned_first h (decode network.now) plan.now }
{
    if is_first_formed(plan) {
        return validate_header(network, h, borders, plan);
    }
    refused(Reason::PlanFirst, 0)
}

// The header of a well-formed plan for the network, or the lowest of the refusals 11 to 19 and its lowest
// place. The network has so many borders: they are counted by the caller, whose stack is then free again.
pub fn validate_plan(
    network: &[u8],
    h: Header,
    borders: usize,
    plan: &[u8],
) -> Result<PlanHeader, Refusal>
    requires valid_file { ValidFile network.now h }
    requires borders_value { borders ≡ border_count (partition_of (decode network.now)) }
    ensures { result ≡ planned h (decode network.now) plan.now }
{
    if is_bad_length(plan.len(), limits::MOST_BYTES) {
        return refused(Reason::PlanLength, 0);
    }
    if is_well_formed(network, h, borders, plan) {
        return Ok(header_at(plan));
    }
    let b = first_bad_sum(plan);
    if b < plan.len() / BLOCK {
        return refused(Reason::PlanSum, b as u32);
    }
    validate_first(network, h, borders, plan)
}
