// A trip once nothing before it is refused: the search.
ghost use Rattle.std.specs.Prelude.{◌≤◌, length, Ok};
ghost use Rattle.network.specs.Decode.{decode};
ghost use Rattle.network.specs.Valid.{ValidFile};
ghost use Rattle.network.specs.Town.{graph_of};
ghost use Rattle.search_labels.specs.Ready.{permit_of};
ghost use Rattle.trip_call.specs.Trip.{TripCall};
ghost use Rattle.trip_call.specs.Stage.{Asked};

use file_refusals::Refusal;
use network::header::Header;
use search_labels::query::Query;
use search_path::answer::Arrival;
use search_path::search;

// The trip over the arcs whose entry in the mask is 1.
pub fn drive(
    network: &[u8],
    h: Header,
    mask: &[u8],
    q: Query,
    arrivals: &mut [u32],
    roads: &mut [u16],
) -> Result<Arrival, Refusal>
    requires valid_file { ValidFile network.now h }
    requires asked { Asked h q.source q.target q.departure (length arrivals.old) }
    requires arcs_in_bounds { h.arcs ≤ length mask.now }
    ensures { TripCall (Ok h) (graph_of (decode network.now))
        (permit_of mask.now) q.source q.target q.departure
        arrivals.old arrivals.new roads.old roads.new result }
{
    search(network, h.layout(), mask, q, arrivals, roads)
}
