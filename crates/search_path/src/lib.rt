// search_path: the earliest arrival over permitted arcs and the chosen path, of a sound network file that is
// read in place. It owns the answer of a search (28 and 29 among them) and its meaning (specs/Answer,
// specs/Promise, specs/Shows).
//   answer where a trip arrives
//   path   the chosen path, from the notes that the search left
// It may call `search_labels` for the labels and notes, `network` for the entries of the file and
// `file_refusals` to refuse; it cites `search_chains`, `theory_loops` and `theory_paths`.
#![tactic(auto)]

use crate::answer::Arrival;
use file_refusals::reason::Reason;
use file_refusals::{Refusal, refused};
use network::header::Layout;
use network::limits::{MOST_NODES, NEVER};
use search_labels::query::Query;
use search_labels::reach::reach;

pub mod answer;
mod path;

ghost use Rattle.std.specs.Prelude.{◌≡◌, ◌≤◌, ◌<◌, length};
ghost use Rattle.theory_loops.specs.Fill.{Filled};
ghost use Rattle.network.specs.Decode.{decode, Laid};
ghost use Rattle.network.specs.Sound.{SoundNetwork};
ghost use Rattle.network.specs.Town.{graph_of};
ghost use Rattle.search_chains.specs.Town.{Town};
ghost use Rattle.theory_paths.specs.Labels.{label};
ghost use Rattle.search_labels.specs.Ready.{permit_of};
ghost use Rattle.search_labels.specs.Notes.{hops_in};
ghost use Rattle.search_path.specs.Trim.{shown, shown_of};
ghost use Rattle.search_path.specs.Trail.{road_to};
ghost use Rattle.search_path.specs.Answer.{Answered, Told};
ghost use Rattle.search_path.specs.Answering.{Tellable};

// What is shown of a node's label, where the target's is `limit`.
fn shown_label(label: u32, limit: u32, v: usize, target: usize) -> u32
    ensures { result ≡ shown_of label limit v target }
{
    if label < limit {
        return label;
    }
    if v == target {
        return label;
    }
    NEVER
}

// Every label that is not before the target's becomes never, except the target's own.
fn trim(labels: &mut [u32], target: usize)
    requires { target < length labels.old }
    ensures { Filled 0 (length labels.old) (shown labels.old target)
        labels.old labels.new }
{
    let limit = labels[target];
    for v in 0..labels.len() {
        labels[v] = shown_label(labels[v], limit, v, target);
    }
}

// The answer by the target's label and note, with the path where the list of roads has room for it.
fn tell(
    file: &[u8],
    l: Layout,
    labels: &[u32],
    notes: &[u32; MOST_NODES],
    target: usize,
    roads: &mut [u16],
) -> Result<Arrival, Refusal>
    requires town { Town file.now l }
    requires tellable { Tellable (graph_of (decode file.now)) labels.now notes.now target }
    ensures { Told (label labels.now target) (hops_in notes.now target)
        (road_to (graph_of (decode file.now)) notes.now target)
        roads.old roads.new result }
{
    let tick = labels[target];
    if tick == NEVER {
        return refused(Reason::NoWay, 0);
    }
    let count = path::path(file, l, notes, target, roads);
    if roads.len() < count {
        return refused(Reason::RoadsShort, 0);
    }
    Ok(Arrival { tick, count })
}

// The search over labels for exactly the nodes.
fn search_nodes(
    file: &[u8],
    l: Layout,
    mask: &[u8],
    q: Query,
    labels: &mut [u32],
    roads: &mut [u16],
) -> Result<Arrival, Refusal>
    requires town { Town file.now l }
    requires arcs_in_bounds { (l.arcs ≤ length mask.now) × (length labels.old ≡ l.nodes) }
    requires source_lt_nodes { (q.source < l.nodes) × (q.target < l.nodes) × (q.departure < l.period) }
    ensures { Answered (graph_of (decode file.now))
        (permit_of mask.now) q.source q.departure q.target labels.old
        labels.new roads.old roads.new result }
{
    let mut notes = [0u32; MOST_NODES];
    reach(file, l, mask, q, labels, &mut notes);
    let target = q.target as usize;
    let answer = tell(file, l, labels, &notes, target, roads);
    trim(labels, target);
    answer
}

// The earliest arrival at the target over the permitted arcs, when the source is left at the departure, and
// the chosen path: `Answered` says what is answered and what is left in the two lists.
pub fn search(
    file: &[u8],
    l: Layout,
    mask: &[u8],
    q: Query,
    arrivals: &mut [u32],
    roads: &mut [u16],
) -> Result<Arrival, Refusal>
    requires laid { Laid file.now l }
    requires sound_network { SoundNetwork (decode file.now) }
    requires arcs_in_bounds { (l.arcs ≤ length mask.now) × (l.nodes ≤ length arrivals.old) }
    requires source_lt_nodes { (q.source < l.nodes) × (q.target < l.nodes) × (q.departure < l.period) }
    ensures { Answered (graph_of (decode file.now))
        (permit_of mask.now) q.source q.departure q.target arrivals.old
        arrivals.new roads.old roads.new result }
{
    let nodes = l.nodes;
    search_nodes(file, l, mask, q, &mut arrivals[..nodes], roads)
}
