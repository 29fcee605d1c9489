// The tablet's two trips: numbers and byte lists in, an answer in lent bytes. Where these are fewer than the
// longest answer takes, 1,032, the answer is 31 and nothing is written.
ghost use Rattle.trip.specs.Calls.{plain_call, plain_path, flagged_call, flagged_path};
ghost use Rattle.varnwalnut.specs.Replies.{TripReply};

use crate::ANSWER_SHORT;
use c_trip::trip::write_trip;
use network::limits::{MOST_NODES, MOST_ROADS, NEVER};
use trip::flagged::flagged_trip;
use trip_plain::plain::plain_trip;

// The bytes of the longest answer to a trip.
const TRIP_BYTES: usize = 10 + 2 * MOST_ROADS;

// From one node to another over all roads.
#[unsafe(no_mangle)]
pub extern "C" fn varnwalnut_plain_trip(
    network: &[u8],
    answer: &mut [u8],
    from: u32,
    to: u32,
    departure: u32,
) -> u32
    ensures { TripReply
        (plain_call network.now from to departure)
        (plain_path network.now from to departure)
        answer.old answer.new result }
{
    if answer.len() < TRIP_BYTES {
        return ANSWER_SHORT;
    }
    let mut arrivals = [NEVER; MOST_NODES];
    let mut roads = [0u16; MOST_ROADS];
    let visit = plain_trip(network, from, to, departure, &mut arrivals, &mut roads);
    let trip = visit.trip;
    write_trip(trip, &roads, answer)
}

// From one node to another over the roads with the flag of the target's cell.
#[unsafe(no_mangle)]
pub extern "C" fn varnwalnut_flagged_trip(
    network: &[u8],
    plan: &[u8],
    answer: &mut [u8],
    from: u32,
    to: u32,
    departure: u32,
) -> u32
    ensures { TripReply
        (flagged_call network.now plan.now from to departure)
        (flagged_path network.now plan.now from to departure)
        answer.old answer.new result }
{
    if answer.len() < TRIP_BYTES {
        return ANSWER_SHORT;
    }
    let mut arrivals = [NEVER; MOST_NODES];
    let mut roads = [0u16; MOST_ROADS];
    let visit = flagged_trip(
        network,
        plan,
        from,
        to,
        departure,
        &mut arrivals,
        &mut roads,
    );
    let trip = visit.trip;
    write_trip(trip, &roads, answer)
}
