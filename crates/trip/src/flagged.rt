// The flagged trip, over the arcs with the flag of the target's cell. An unchecked plan gets the earliest
// arrival over its flagged arcs.
ghost use Rattle.std.specs.Prelude.{◌≡◌, cond, ◌≤◌, ◌<◌, length, Ok};
ghost use Rattle.theory_loops.specs.Fill.{Filled};
ghost use Rattle.network.specs.Limits.{most_arcs, most_cells};
ghost use Rattle.network.specs.Decode.{decode};
ghost use Rattle.network.specs.Valid.{ValidFile};
ghost use Rattle.plan.specs.Plan.{bit};
ghost use Rattle.plan.specs.PlanDecode.{decode_plan, PlanLaid};
ghost use Rattle.plan.specs.PlanValid.{ValidPlan};
ghost use Rattle.trip_call.specs.Trip.{asked};
ghost use Rattle.trip_call.specs.Stage.{Asked};
ghost use Rattle.trip_call.specs.Visit.{open_tick};
ghost use Rattle.trip.specs.Flagged.{mask_of, flagged_with, FlaggedAfter, FlaggedTrip};

use network::header::Header;
use network::limits::MOST_ARCS;
use network::read::cell;
use network_validate::validate::validate;
use plan::flag::is_set;
use plan::header::{PlanHeader, PlanLayout};
use plan::read::flag_word;
use plan_rules::header::count_borders;
use plan_validate::validate::validate_plan;
use search_labels::query::Query;
use trip_call::begin::ask;
use trip_call::visit::{Visit, refused, visit_over};

// The bit as a number.
fn flag(word: u64, c: usize) -> u8
    requires { c < most_cells }
    ensures { result ≡ cond (bit word c) 1 0 }
{
    u8::from(is_set(word, c))
}

// The mask of the arcs with the flag of cell c.
fn fill_mask(plan: &[u8], l: PlanLayout, c: usize, mask: &mut [u8; MOST_ARCS])
    requires plan_laid { PlanLaid plan.now l }
    requires c_lt_most_cells { (c < most_cells) × (l.arcs ≤ most_arcs) × (l.arcs ≤ length mask.old) }
    ensures { Filled 0 l.arcs (mask_of (decode_plan plan.now) c) mask.old
        mask.new }
{
    for a in 0..l.arcs {
        mask[a] = flag(flag_word(plan, l, a), c);
    }
}

// The trip of a valid network and a well-formed plan, once nothing before it is refused.
fn drive_flagged(
    network: &[u8],
    h: Header,
    plan: &[u8],
    k: PlanHeader,
    q: Query,
    arrivals: &mut [u32],
    roads: &mut [u16],
) -> Visit
    requires valid_file { ValidFile network.now h }
    requires valid_plan { ValidPlan h (decode network.now) plan.now k }
    requires asked { Asked h q.source q.target q.departure (length arrivals.old) }
    ensures trip { FlaggedAfter (Ok h) network.now plan.now
        q.source q.target q.departure
        arrivals.old arrivals.new roads.old roads.new
        result.trip }
    ensures opens { result.opens ≡ open_tick (decode network.now) q.target result.trip }
{
    let c = cell(network, h.layout(), q.target as usize);
    let mut mask = [0u8; MOST_ARCS];
    fill_mask(plan, k.layout(), c, &mut mask);
    visit_over(network, h, &mask, q, arrivals, roads)
}

// Refusals 25 to 29, or the trip.
fn flagged_asked(
    network: &[u8],
    h: Header,
    plan: &[u8],
    k: PlanHeader,
    q: Query,
    arrivals: &mut [u32],
    roads: &mut [u16],
) -> Visit
    requires valid_file { ValidFile network.now h }
    requires valid_plan { ValidPlan h (decode network.now) plan.now k }
    ensures trip { FlaggedAfter
        (asked h q.source q.target q.departure (length arrivals.old))
        network.now plan.now q.source q.target q.departure
        arrivals.old arrivals.new roads.old roads.new
        result.trip }
    ensures opens { result.opens ≡ open_tick (decode network.now) q.target result.trip }
{
    match ask(h, q, arrivals.len()) {
        Err(r) => refused(r),
        Ok(_) => drive_flagged(network, h, plan, k, q, arrivals, roads),
    }
}

// Refusals 11 to 19, then 25 to 29, or the trip.
fn flagged_planned(
    network: &[u8],
    h: Header,
    plan: &[u8],
    q: Query,
    arrivals: &mut [u32],
    roads: &mut [u16],
) -> Visit
    requires { ValidFile network.now h }
    ensures trip { FlaggedAfter (flagged_with h network.now plan.now
        q.source q.target q.departure (length arrivals.old))
        network.now plan.now q.source q.target q.departure
        arrivals.old arrivals.new roads.old roads.new
        result.trip }
    ensures opens { result.opens ≡ open_tick (decode network.now) q.target result.trip }
{
    let borders = count_borders(network, h, h.layout());
    match validate_plan(network, h, borders, plan) {
        Err(r) => refused(r),
        Ok(k) => flagged_asked(network, h, plan, k, q, arrivals, roads),
    }
}

// From one node to another, leaving at a tick of the day, over the arcs with the flag of the target's cell:
// the earliest tick of arrival, the chosen way, and the first tick from then on at which the target is open.
pub fn flagged_trip(
    network: &[u8],
    plan: &[u8],
    from: u32,
    to: u32,
    departure: u32,
    arrivals: &mut [u32],
    roads: &mut [u16],
) -> Visit
    ensures trip { FlaggedTrip network.now plan.now from to departure
        arrivals.old arrivals.new
        roads.old roads.new
        result.trip }
    ensures opens { result.opens ≡ open_tick (decode network.now) to result.trip }
{
    let q = Query {
        source: from,
        target: to,
        departure,
    };
    match validate(network) {
        Err(r) => refused(r),
        Ok(h) => flagged_planned(network, h, plan, q, arrivals, roads),
    }
}
