// The chains by which the arcs at a node are walked in rising order: out of it by their tails, or into it by
// their heads. A chain is two tables, each node's first arc and after each arc the next one:
// specs/Chain.antt.
ghost use Rattle.std.specs.Prelude.{◌≡◌, ◌<◌};
ghost use Rattle.network.specs.Decode.{decode};
ghost use Rattle.search_chains.specs.Town.{Town};
ghost use Rattle.search_chains.specs.Chain.{end_of, Chained, Unchained};

use network::header::Layout;
use network::limits::{MOST_ARCS, MOST_NODES};
use network::read;

// An end of an arc.
#[derive(Clone, Copy)]
pub enum End {
    Tail,
    Head,
}

// No arc.
pub const NONE: u16 = MOST_ARCS as u16;

// The node at an end of an arc.
fn end_of(file: &[u8], l: Layout, end: End, arc: usize) -> usize
    requires town { Town file.now l }
    requires arc_lt_arcs { arc < l.arcs }
    ensures { (result ≡ end_of (decode file.now) end arc) × (result < l.nodes) }
{
    match end {
        End::Tail => read::tail(file, l, arc),
        End::Head => read::head(file, l, arc),
    }
}

// Fills both tables for one end of the arcs, in one pass from the last arc to the first.
pub fn chain(
    file: &[u8],
    l: Layout,
    end: End,
    first: &mut [u16; MOST_NODES],
    next: &mut [u16; MOST_ARCS],
)
    requires town { Town file.now l }
    requires unchained { Unchained l.nodes l.arcs first.old next.old }
    ensures { Chained (end_of (decode file.now) end) l.nodes l.arcs 0
        first.new next.new }
{
    let arcs = l.arcs;
    for k in 0..arcs {
        let i = arcs - 1 - k;
        let v = end_of(file, l, end, i);
        next[i] = first[v];
        first[v] = i as u16;
    }
}
