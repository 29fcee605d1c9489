// The rules 17 to 19 of document 01, on a plan file that is laid out as its header says, each with the place
// of its first fault. The counts and the points are read in one pass: rule 19 is judged at the points of each
// profile while rule 18 is judged at its count, and told where 18 holds everywhere.
ghost use Rattle.std.specs.Prelude.{◌≡◌, ◌||◌, ◌+◌, ◌≤◌, ◌<◌, ◌^◌, leb, ltb};
ghost use Rattle.theory_loops.specs.First.{first};
ghost use Rattle.plan.specs.PlanDecode.{decode_plan, PlanLaid};
ghost use Rattle.network.specs.Limits.{most_cells};
ghost use Rattle.plan.specs.PlanRules.{bad_flags, judged_counts, judged_flags};
ghost use Rattle.plan.specs.PlanWalk.{point_at};
ghost use Rattle.plan_rules.specs.PlanScan.{Scanned};
ghost use Rattle.plan_rules.specs.PlanScanAll.{Standing, ScannedOn};

use file_blocks::kind;
use file_blocks::walk::Walk;
use file_refusals::reason::Reason;
use file_refusals::{Refusal, refused};
use network::limits::MOST_CELLS;
use plan::header::PlanLayout;
use plan::read::flag_word;

// Has the word a bit at `cells` or above?
fn has_high_bit(word: u64, cells: usize) -> bool
    requires { cells ≤ most_cells }
    ensures { result ≡ leb (2 ^ cells) word }
{
    let full = MOST_CELLS <= cells;
    if full {
        return false;
    }
    word >> cells != 0
}

// Rule 17 at arc a.
fn is_bad_word(plan: &[u8], l: PlanLayout, a: usize) -> bool
    requires plan_laid { PlanLaid plan.now l }
    requires a_lt_arcs { a < l.arcs }
    ensures { result ≡ bad_flags l.cells (decode_plan plan.now) a }
{
    has_high_bit(flag_word(plan, l, a), l.cells)
}

// The first arc that breaks rule 17, or the count of arcs.
pub fn first_bad_word(plan: &[u8], l: PlanLayout) -> usize
    requires { PlanLaid plan.now l }
    ensures { result ≡ first l.arcs (bad_flags l.cells (decode_plan plan.now)) }
{
    let bad = (0..l.arcs).position(|a| is_bad_word(plan, l, a));
    bad.unwrap_or(l.arcs)
}

// Is tick t below `low`, or at `high` or above?
fn is_outside(t: usize, low: usize, high: usize) -> bool
    ensures { result ≡ ltb t low || leb high t }
{
    if t < low {
        return true;
    }
    high <= t
}

// Where the walk stands after the points of one profile, or the first of them that breaks rule 19, by its
// number: `count` of them from number `from` on, where the walk stands.
fn find_bad(plan: &[u8], l: PlanLayout, at: Walk, from: usize, count: usize) -> Result<Walk, usize>
    requires plan_laid { PlanLaid plan.now l }
    requires count_bound { from + count ≤ l.points }
    requires at_value { at ≡ point_at l.pointblock from }
    ensures { Scanned (decode_plan plan.now) l from count result }
{
    let mut next = at;
    let mut low = 0;
    let mut high = 1;
    for i in 0..count {
        let t = next.field16(plan, 0);
        if is_outside(t, low, high) {
            return Err(from + i);
        }
        low = t + 1;
        high = l.period;
        next = next.next(kind::PROFILE_POINT);
    }
    Ok(next)
}

// The scan goes on over one profile more, as long as nothing is found and the points stand in the file.
fn scan_on(
    plan: &[u8],
    l: PlanLayout,
    scan: Result<Walk, usize>,
    from: usize,
    count: usize,
) -> Result<Walk, usize>
    requires plan_laid { PlanLaid plan.now l }
    requires from_bound { (from < 2 ^ 40) × (count < 65536) }
    requires standing { Standing l from scan }
    ensures { ScannedOn (decode_plan plan.now) l from count scan result }
{
    let at = scan?;
    if l.points < from + count {
        return scan;
    }
    find_bad(plan, l, at, from, count)
}

// Rules 18 and 19, with the place of the fault.
fn judge_profiles(plan: &[u8], l: PlanLayout) -> Result<(), Refusal>
    requires { PlanLaid plan.now l }
    ensures { result ≡ judged_counts l.period l.profiles (decode_plan plan.now) }
{
    let profiles = l.profiles;
    let mut counts = Walk::new(l.countblock, kind::COUNT, 0);
    let mut scan = Ok(Walk::new(l.pointblock, kind::PROFILE_POINT, 0));
    let mut from = 0;
    for k in 0..profiles {
        let count = counts.field16(plan, 0);
        if l.period < count {
            return refused(Reason::PlanCount, k as u32);
        }
        scan = scan_on(plan, l, scan, from, count);
        from += count;
        counts = counts.next(kind::COUNT);
    }
    if from != l.points {
        return refused(Reason::PlanCount, profiles as u32);
    }
    match scan {
        Ok(_) => Ok(()),
        Err(bad) => refused(Reason::PlanTick, bad as u32),
    }
}

// The lowest of the rules 17 to 19 that the plan breaks, and its lowest place.
pub fn judge_plan(plan: &[u8], l: PlanLayout) -> Result<(), Refusal>
    requires { PlanLaid plan.now l }
    ensures { result ≡ judged_flags l.arcs l.cells l.period l.profiles
        (decode_plan plan.now) }
{
    let a = first_bad_word(plan, l);
    if a < l.arcs {
        return refused(Reason::PlanFlag, a as u32);
    }
    judge_profiles(plan, l)
}
