// The tables of the arcs that a search reads, filled in one pass: each arc's head and first point, and the
// chain of the arcs out of each node. An arc's entry is found once for all of them, by its block and its
// place there, so that no arc costs a division.
ghost use Rattle.std.specs.Prelude.{◌+◌, ◌*◌, ◌≤◌, length};
ghost use Rattle.file_blocks.specs.Kind.{arc_per};
ghost use Rattle.network.specs.Network.{tail};
ghost use Rattle.network.specs.Decode.{decode};
ghost use Rattle.search_chains.specs.Town.{Town};
ghost use Rattle.search_chains.specs.Chain.{Chained, Unchained};
ghost use Rattle.search_chains.specs.Tables.{Tabled, Filling};

use file_blocks::kind::ARC;
use network::arcs::entry_in;
use network::header::Layout;
use network::limits::{MOST_ARCS, MOST_NODES};

// Fills the tables for the m arcs of block j, from the last to the first, after the arcs behind them:
// `behind` is the points of all arcs before those, and the answer the points of the arcs before the block.
fn fill_block(
    file: &[u8],
    l: Layout,
    j: usize,
    m: usize,
    behind: usize,
    heads: &mut [u16; MOST_ARCS],
    starts: &mut [u16; MOST_ARCS],
    first: &mut [u16; MOST_NODES],
    next: &mut [u16; MOST_ARCS],
) -> usize
    requires town { Town file.now l }
    requires m_le_arc_per { (m ≤ arc_per) × (arc_per * j + m ≤ l.arcs) }
    requires filling { Filling file.now l (arc_per * j + m) behind heads.old starts.old first.old
        next.old }
    ensures { Filling file.now l (arc_per * j) result heads.new starts.new
        first.new next.new }
{
    let mut sum = behind;
    for k in 0..m {
        let e = m - 1 - k;
        let arc = entry_in(file, l, j, e);
        let i = ARC.per * j + e;
        let v = arc.tail;
        next[i] = first[v];
        first[v] = i as u16;
        heads[i] = arc.head as u16;
        sum -= arc.count;
        starts[i] = sum as u16;
    }
    sum
}

// Fills the tables, from the last arc to the first.
pub fn fill(
    file: &[u8],
    l: Layout,
    heads: &mut [u16; MOST_ARCS],
    starts: &mut [u16; MOST_ARCS],
    first: &mut [u16; MOST_NODES],
    next: &mut [u16; MOST_ARCS],
)
    requires town { Town file.now l }
    requires unchained { Unchained l.nodes l.arcs first.old next.old
        × (l.arcs ≤ length heads.old) × (l.arcs ≤ length starts.old) }
    ensures { Chained (tail (decode file.now)) l.nodes l.arcs 0
        first.new next.new
        × Tabled (decode file.now) l.arcs 0 heads.new starts.new }
{
    let arcs = l.arcs;
    let runs = ARC.blocks(arcs);
    let mut sum = l.points;
    for k in 0..runs {
        let j = runs - 1 - k;
        let m = ARC.entries_in(arcs, j);
        sum = fill_block(file, l, j, m, sum, heads, starts, first, next);
    }
}
