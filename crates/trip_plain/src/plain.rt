// The plain trip, over all arcs.
ghost use Rattle.std.specs.Prelude.{◌≡◌};
ghost use Rattle.network.specs.Decode.{decode};
ghost use Rattle.trip_call.specs.Visit.{open_tick};
ghost use Rattle.trip_plain.specs.Plain.{plain_begin, PlainTrip};

use file_refusals::Refusal;
use network::header::Header;
use network::limits::MOST_ARCS;
use network_validate::validate::validate;
use search_labels::query::Query;
use trip_call::begin::ask;
use trip_call::visit::{Visit, refused, visit_over};

// The refusals before the search: 1 to 10 and 37, then 25 to 27.
fn begin_plain(network: &[u8], q: Query, room: usize) -> Result<Header, Refusal>
    ensures { result ≡ plain_begin network.now q.source q.target q.departure room }
{
    let h = validate(network)?;
    ask(h, q, room)
}

// From one node to another, leaving at a tick of the day: the earliest tick of arrival over all ways, the
// chosen way, and the first tick from then on at which the target is open.
pub fn plain_trip(
    network: &[u8],
    from: u32,
    to: u32,
    departure: u32,
    arrivals: &mut [u32],
    roads: &mut [u16],
) -> Visit
    ensures trip { PlainTrip network.now from to departure arrivals.old
        arrivals.new roads.old roads.new result.trip }
    ensures opens { result.opens ≡ open_tick (decode network.now) to result.trip }
{
    let q = Query {
        source: from,
        target: to,
        departure,
    };
    match begin_plain(network, q, arrivals.len()) {
        Err(r) => refused(r),
        Ok(h) => {
            let mask = [1u8; MOST_ARCS];
            visit_over(network, h, &mask, q, arrivals, roads)
        }
    }
}
