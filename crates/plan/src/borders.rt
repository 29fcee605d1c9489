// The borders of a network file, found in one pass over its arcs: a node is marked where an arc enters it
// from another cell, and the marked nodes are then listed by rising number, or counted.
ghost use Rattle.std.specs.Prelude.{◌≡◌, ◌==◌, ◌+◌, ◌<◌, length, not, count_by};
ghost use Rattle.theory_loops.specs.Fill.{overwritten};
ghost use Rattle.network.specs.Limits.{most_nodes};
ghost use Rattle.network.specs.Network;
ghost use Rattle.network.specs.Decode.{decode, Laid};
ghost use Rattle.network.specs.Sound.{SoundNetwork};
ghost use Rattle.network.specs.Town.{partition_of};
ghost use Rattle.plan.specs.Border.{borders, border_count};
ghost use Rattle.plan.specs.Marks.{Marked};

use network::header::Layout;
use network::limits::MOST_NODES;
use network::read;

// Marks the head of arc a where the arc's ends lie in two cells.
fn mark_head(network: &[u8], l: Layout, a: usize, marks: &mut [u8; MOST_NODES])
    requires laid { Laid network.now l }
    requires sound_network { SoundNetwork (decode network.now) }
    requires a_lt_arcs { a < l.arcs }
    requires marked { Marked (decode network.now) a marks.old }
    ensures { Marked (decode network.now) (a + 1) marks.new }
{
    let head = read::head(network, l, a);
    let tail = read::tail(network, l, a);
    if read::cell(network, l, tail) != read::cell(network, l, head) {
        marks[head] = 1;
    }
}

// Marks the head of each such arc. The table is lent: where it is answered, it is copied twice on the stack.
fn mark_heads(network: &[u8], l: Layout, marks: &mut [u8; MOST_NODES])
    requires laid { Laid network.now l }
    requires sound_network { SoundNetwork (decode network.now) }
    requires marked { Marked (decode network.now) 0 marks.old }
    ensures { Marked (decode network.now) (Network.arcs (decode network.now))
        marks.new }
{
    for a in 0..l.arcs {
        mark_head(network, l, a, marks);
    }
}

// The borders, listed at the front of `out`, and how many they are.
pub fn list_borders(network: &[u8], l: Layout, out: &mut [u16; MOST_NODES]) -> usize
    requires laid { Laid network.now l }
    requires sound_network { SoundNetwork (decode network.now) }
    requires out_len { length out.old ≡ most_nodes }
    ensures { (result ≡ border_count (partition_of (decode network.now)))
        × (out.new
        ≡ overwritten (borders (partition_of (decode network.now))) out.old) }
{
    let mut marks = [0u8; MOST_NODES];
    mark_heads(network, l, &mut marks);
    let mut count = 0;
    for v in 0..l.nodes {
        if marks[v] != 0 {
            out[count] = v as u16;
            count += 1;
        }
    }
    count
}

// How many of the nodes are marked.
fn count_marks(marks: &[u8]) -> usize
    ensures { result ≡ count_by (λ mark. not (mark == 0)) marks.now }
{
    marks.iter().filter(|mark| **mark != 0).count()
}

// How many borders there are, where no list of them is needed.
pub fn count_borders(network: &[u8], l: Layout) -> usize
    requires laid { Laid network.now l }
    requires sound_network { SoundNetwork (decode network.now) }
    ensures { result ≡ border_count (partition_of (decode network.now)) }
{
    let mut marks = [0u8; MOST_NODES];
    mark_heads(network, l, &mut marks);
    count_marks(&marks[..l.nodes])
}
