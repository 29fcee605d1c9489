// The chosen path, from the notes that a search left: back from the target, from each node by the arc of its
// note to that arc's tail. The target's note counts the arcs, so they are written from the last to the first,
// and the list holds the path from its start.
ghost use Rattle.std.specs.Prelude.{◌≡◌, ◌≤◌, ◌<◌, length};
ghost use Rattle.theory_loops.specs.Fill.{Filled};
ghost use Rattle.network.specs.Limits.{most_nodes};
ghost use Rattle.network.specs.Decode.{decode};
ghost use Rattle.network.specs.Town.{graph_of};
ghost use Rattle.search_chains.specs.Town.{Town};
ghost use Rattle.search_labels.specs.Notes.{hops_in};
ghost use Rattle.search_path.specs.Trail.{road_to, Trail, Listed};

use network::header::Layout;
use network::limits::MOST_NODES;
use network::read;
use search_labels::notes;

// Writes the path to the target, of `count` arcs, from its last arc to its first.
fn write(
    file: &[u8],
    l: Layout,
    notes: &[u32; MOST_NODES],
    target: usize,
    count: usize,
    roads: &mut [u16],
)
    requires town { Town file.now l }
    requires trail { Trail (graph_of (decode file.now)) notes.now target }
    requires count_value { (count ≡ hops_in notes.now target) × (count ≤ length roads.old) }
    ensures { Filled 0 count
        (road_to (graph_of (decode file.now)) notes.now target)
        roads.old roads.new }
{
    let mut v = target;
    let mut n = count;
    while 0 < n {
        let a = notes::arc(notes[v]);
        n -= 1;
        roads[n] = a as u16;
        v = read::tail(file, l, a);
    }
}

// Counts the path to the target, and writes it where the list of roads has room for it.
pub fn path(
    file: &[u8],
    l: Layout,
    notes: &[u32; MOST_NODES],
    target: usize,
    roads: &mut [u16],
) -> usize
    requires town { Town file.now l }
    requires trail { Trail (graph_of (decode file.now)) notes.now target × (target < most_nodes) }
    ensures { Listed (hops_in notes.now target)
        (road_to (graph_of (decode file.now)) notes.now target)
        roads.old roads.new result }
{
    let count = notes::hops(notes[target]);
    if roads.len() < count {
        return count;
    }
    write(file, l, notes, target, count, roads);
    count
}
