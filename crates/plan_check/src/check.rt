// The check of a well-formed plan against its network: the lowest of the tests 20 to 24 that fails anywhere,
// and the first place where it fails. Both files are read in place; the few tables that spare reading stand
// on the stack.
ghost use Rattle.std.specs.Prelude.{◌≡◌, ◌<◌, Ok, Err};
ghost use Rattle.theory_loops.specs.First;
ghost use Rattle.network.specs.Limits.{most_period, most_nodes};
ghost use Rattle.network.specs.Decode.{decode};
ghost use Rattle.network.specs.Town.{partition_of};
ghost use Rattle.network.specs.Valid.{ValidFile};
ghost use Rattle.plan.specs.PlanDecode.{decode_plan};
ghost use Rattle.plan_tests.specs.Tests.{fails20};
ghost use Rattle.plan_check.specs.Check.{checked};
ghost use Rattle.plan_check.specs.CheckPlan.{checked_by, checking};
ghost use Rattle.plan.specs.PlanValidate.{planned};
ghost use Rattle.plan.specs.PlanValid.{ValidPlan};
ghost use Rattle.plan_tests.specs.Checkable.{Checkable};
ghost use Rattle.plan.specs.Border.{Listed};
ghost use Rattle.plan_judge.specs.Finding.{Equipped};
ghost use Rattle.plan_check.specs.Finds.{Finds};
ghost use Rattle.plan_check.specs.Verdict.{triples_from, verdict_of};

use crate::answer::Report;
use file_refusals::reason::Reason;
use file_refusals::{Refusal, refused};
use network::header::Header;
use network::limits::{MOST_ARCS, MOST_NODES};
use network_validate::validate::validate;
use node_verdict::NONE;
use plan::borders::list_borders;
use plan::header::PlanHeader;
use plan_judge::{Found, judge_borders};
use plan_rules::header::count_borders;
use plan_tests::tests;
use plan_tests::tests::Layouts;
use plan_validate::validate::validate_plan;
use search_arcs::times;
use search_chains::chain;
use search_chains::chain::End;

// The verdict by what was found.
fn verdict_of(found: Found) -> Result<(), Refusal>
    requires { found.number < 25
        → (found.border < most_nodes) × (found.node < most_nodes) × (found.tick < most_period) }
    ensures { result ≡ verdict_of found }
{
    if found.number < NONE {
        return Err(Refusal {
            number: found.number,
            first: found.border as u32,
            second: found.node as u32,
            third: found.tick as u32,
        });
    }
    Ok(())
}

// The first arc at which 20 fails; the number of arcs where there is none.
fn first_unflagged(network: &[u8], plan: &[u8], l: Layouts) -> usize
    requires { Checkable network.now plan.now l }
    ensures { result ≡ First.first l.network.arcs
        (fails20 (partition_of (decode network.now)) (decode_plan plan.now)) }
{
    let bad = (0..l.network.arcs).position(|a| tests::is_unflagged_inside(network, plan, l, a));
    bad.unwrap_or(l.network.arcs)
}

// The tests 21 to 24.
fn check_triples(
    network: &[u8],
    plan: &[u8],
    l: Layouts,
    points: &[u16; MOST_ARCS],
    first: &[u16; MOST_NODES],
    next: &[u16; MOST_ARCS],
    borders: &[u16; MOST_NODES],
) -> Report
    requires { Equipped network.now plan.now l points.now first.now next.now borders.now }
    ensures { (result.verdict ≡ triples_from 4 21 (partition_of (decode network.now))
        (decode_plan plan.now))
        × Finds network.now plan.now result.verdict result.finds }
{
    let mut finds = 0u64;
    let found = judge_borders(network, plan, l, points, first, next, borders, &mut finds);
    let verdict = verdict_of(found);
    Report { verdict, finds }
}

// A verdict before the tests 21 to 24, for which nothing was found.
fn before_finds(verdict: Result<(), Refusal>) -> Report
    ensures { (result.verdict ≡ verdict) × (result.finds ≡ 0) }
{
    Report { verdict, finds: 0 }
}

// The tests 20 to 24: the lowest number that fails anywhere, then its first place. `borders` lists the border
// nodes.
pub fn check_tests(network: &[u8], plan: &[u8], l: Layouts, borders: &[u16; MOST_NODES]) -> Report
    requires checkable { Checkable network.now plan.now l }
    requires listed { Listed (partition_of (decode network.now)) borders.now }
    ensures { (result.verdict ≡ checked (partition_of (decode network.now))
        (decode_plan plan.now))
        × Finds network.now plan.now result.verdict result.finds }
{
    let arc = first_unflagged(network, plan, l);
    if arc < l.network.arcs {
        return before_finds(refused(Reason::CheckInside, arc as u32));
    }
    let mut points = [0u16; MOST_ARCS];
    times::first_points(network, l.network, &mut points);
    let mut first = [chain::NONE; MOST_NODES];
    let mut next = [chain::NONE; MOST_ARCS];
    chain::chain(network, l.network, End::Tail, &mut first, &mut next);
    check_triples(network, plan, l, &points, &first, &next, borders)
}

// The tests for a network that opens and a plan that is well-formed for it.
fn check_formed(network: &[u8], h: Header, plan: &[u8], k: PlanHeader) -> Report
    requires valid_file { ValidFile network.now h }
    requires valid_plan { ValidPlan h (decode network.now) plan.now k }
    ensures { (result.verdict ≡ checked (partition_of (decode network.now))
        (decode_plan plan.now))
        × Finds network.now plan.now result.verdict result.finds }
{
    let l = Layouts {
        network: h.layout(),
        plan: k.layout(),
    };
    let mut borders = [0u16; MOST_NODES];
    list_borders(network, l.network, &mut borders);
    check_tests(network, plan, l, &borders)
}

// Refusals 11 to 24 for a network that opens.
fn check_opened(network: &[u8], h: Header, plan: &[u8]) -> Report
    requires { ValidFile network.now h }
    ensures { (result.verdict ≡ checked_by (partition_of (decode network.now))
        (decode_plan plan.now) (planned h (decode network.now) plan.now))
        × Finds network.now plan.now result.verdict result.finds }
{
    let borders = count_borders(network, h, h.layout());
    match validate_plan(network, h, borders, plan) {
        Err(r) => before_finds(Err(r)),
        Ok(k) => check_formed(network, h, plan, k),
    }
}

// Is this plan one that the flagged trips of this network may trust? Accepted, or the lowest refusal of 1 to
// 24 with its places; and how many finds that took.
pub fn check_plan(network: &[u8], plan: &[u8]) -> Report
    ensures { (result.verdict ≡ checking network.now plan.now)
        × Finds network.now plan.now result.verdict result.finds }
{
    match validate(network) {
        Err(r) => before_finds(Err(r)),
        Ok(h) => check_opened(network, h, plan),
    }
}
