// The refusals 25 to 27 of a trip, once its files are well.
ghost use Rattle.std.specs.Prelude.{◌≡◌};
ghost use Rattle.trip_call.specs.Trip.{asked};

use file_refusals::reason::Reason;
use file_refusals::{Refusal, refused};
use network::header::Header;
use search_labels::query::Query;

// The header again, where the two nodes, the departure and the list of arrivals will do.
pub fn ask(h: Header, q: Query, room: usize) -> Result<Header, Refusal>
    ensures { result ≡ asked h q.source q.target q.departure room }
{
    if h.nodes as u32 <= q.source {
        return refused(Reason::Place, q.source);
    }
    if h.nodes as u32 <= q.target {
        return refused(Reason::Place, q.target);
    }
    if h.period as u32 <= q.departure {
        return refused(Reason::Departure, 0);
    }
    if room < h.nodes as usize {
        return refused(Reason::ArrivalsShort, 0);
    }
    Ok(h)
}
