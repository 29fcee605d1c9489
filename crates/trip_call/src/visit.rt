// A trip, and the first tick at or after its arrival at which its target is open.
ghost use Rattle.std.specs.Prelude.{◌≡◌, ◌^◌, ◌≤◌, ◌<◌, length, Ok, Err};
ghost use Rattle.network.specs.Decode.{decode};
ghost use Rattle.network.specs.Valid.{ValidFile};
ghost use Rattle.network.specs.Town.{graph_of};
ghost use Rattle.search_labels.specs.Ready.{permit_of};
ghost use Rattle.search_path.specs.Says.{trip_tick};
ghost use Rattle.trip_call.specs.Trip.{TripCall};
ghost use Rattle.trip_call.specs.Stage.{Asked};
ghost use Rattle.trip_call.specs.Visit.{open_tick};

use crate::drive::drive;
use file_refusals::Refusal;
use network::header::Header;
use network_hours::open_after;
use search_labels::query::Query;
use search_path::answer::Arrival;

#[derive(Clone, Copy)]
pub struct Visit {
    pub trip: Result<Arrival, Refusal>,
    pub opens: u32,
}

// A trip that is refused.
pub fn refused(refusal: Refusal) -> Visit
    ensures { (result.trip ≡ Err refusal) × (result.opens ≡ 0) }
{
    let trip = Err(refusal);
    Visit { trip, opens: 0 }
}

// The first tick at which the target is open, where the trip arrives.
fn open_tick(network: &[u8], h: Header, target: u32, trip: Result<Arrival, Refusal>) -> u32
    requires valid_file { ValidFile network.now h }
    requires target_lt_nodes { (target < h.nodes) × (trip_tick trip ≤ 2 ^ 31) }
    ensures { result ≡ open_tick (decode network.now) target trip }
{
    match trip {
        Ok(a) => open_after(network, h.layout(), target as usize, a.tick),
        Err(_) => 0,
    }
}

// The trip over the arcs whose entry in the mask is 1, and when its target is open.
pub fn visit_over(
    network: &[u8],
    h: Header,
    mask: &[u8],
    q: Query,
    arrivals: &mut [u32],
    roads: &mut [u16],
) -> Visit
    requires valid_file { ValidFile network.now h }
    requires asked { Asked h q.source q.target q.departure (length arrivals.old) }
    requires arcs_in_bounds { h.arcs ≤ length mask.now }
    ensures trip { TripCall (Ok h) (graph_of (decode network.now))
        (permit_of mask.now) q.source q.target q.departure
        arrivals.old arrivals.new roads.old roads.new
        result.trip }
    ensures opens { result.opens ≡ open_tick (decode network.now) q.target result.trip }
{
    let trip = drive(network, h, mask, q, arrivals, roads);
    let opens = open_tick(network, h, q.target, trip);
    Visit { trip, opens }
}
