// The rows of a list of travels, one by one: where a row stands, and how it is copied, lowered, filled, and
// looked through for its least and greatest number. specs/Places.antt.
ghost use Rattle.std.specs.Prelude.{◌≡◌, ◌+◌, ◌-◌, ◌*◌, ◌^◌, ◌≤◌, ◌<◌, min, max, length};
ghost use Rattle.theory_loops.specs.Fill.{Filled};
ghost use Rattle.network.specs.Decode.{decode, Small};
ghost use Rattle.network.specs.Town.{travel_at};
ghost use Rattle.toward_row.specs.Arcs.{Primed};
ghost use Rattle.toward_row.specs.Cut.{Cut};
ghost use Rattle.toward_row.specs.Lower.{entries, Capped, Known, Numbers};
ghost use Rattle.toward_list.specs.Heights.{Near, NearFirst, Highest};
ghost use Rattle.toward_list.specs.Rows.{rows_of, row_lowered};
ghost use Rattle.toward_list.specs.Seen.{Shown, ShownFor};

use network::header::Layout;
use network::limits::{MOST_ARCS, MOST_NODES, MOST_PERIOD, NEVER};
use search_arcs::is_before;

// The place of a node's row.
pub fn row_place(l: Layout, u: usize) -> usize
    requires small { Small l }
    requires u_lt_nodes { u < l.nodes }
    ensures { (result ≡ u * l.period) × (result + l.period ≤ l.nodes * l.period)
        × (result + l.period < 2000000) }
{
    u * l.period
}

// Copies a node's row.
pub fn copy_row(l: Layout, v: usize, work: &[u32], hs: &mut [u32; MOST_PERIOD])
    requires small { Small l }
    requires v_lt_nodes { (v < l.nodes) × (length work.now ≡ l.nodes * l.period)
        × (l.period ≤ length hs.old) }
    ensures { Filled 0 l.period (rows_of l.period work.now v) hs.old
        hs.new }
{
    let p = row_place(l, v);
    // By index: `copy_from_slice` would ask C for `memmove`, of which it gives the library none.
    for x in 0..l.period {
        hs[x] = work[p + x];
    }
}

// Lowers the row of node u by what an arc gives, where `hs` is its head's row. `first` says that the row has
// no number yet, whatever stands there. Answers how many entries fell.
pub fn lower_row(
    first: bool,
    file: &[u8],
    l: Layout,
    starts: &[u16; MOST_ARCS],
    arc: usize,
    u: usize,
    hs: &[u32; MOST_PERIOD],
    work: &mut [u32],
) -> u32
    requires primed { Primed file.now l starts.now }
    requires arc_lt_arcs { (arc < l.arcs) × (u < l.nodes) × (length work.old ≡ l.nodes * l.period) }
    requires capped { Capped hs.now l.period
        × Known first work.old (u * l.period) (u * l.period + l.period) }
    ensures { Cut first (u * l.period) (u * l.period + l.period)
        (row_lowered first (travel_at (decode file.now) arc) (entries hs.now) l.period
        (u * l.period) work.old) work.old work.new result }
{
    let p = row_place(l, u);
    let e = p + l.period;
    toward_row::lower_arc(first, file, l, starts, arc, hs, &mut work[p..e])
}

// The lesser of two numbers of a row. The row's loops compare as signed numbers, which the vector code of any
// x86-64 can do.
pub fn lower(a: u32, b: u32) -> u32
    requires { (a < 2 ^ 31) × (b < 2 ^ 31) }
    ensures { result ≡ min a b }
{
    if is_before(b, a) { b } else { a }
}

// The greater of two numbers of a row.
pub fn higher(a: u32, b: u32) -> u32
    requires { (a < 2 ^ 31) × (b < 2 ^ 31) }
    ensures { result ≡ max a b }
{
    if is_before(a, b) { b } else { a }
}

// How near a node is: never less the least number of its row.
pub fn nearness(l: Layout, u: usize, work: &[u32]) -> u32
    requires small { Small l }
    requires u_lt_nodes { (u < l.nodes) × (length work.now ≡ l.nodes * l.period)
        × Numbers work.now (u * l.period) (u * l.period + l.period) }
    ensures { Near l.period work.now u result }
{
    let p = row_place(l, u);
    let e = p + l.period;
    let mut low = work[p];
    for &number in &work[p..e] {
        low = lower(low, number);
    }
    NEVER - low
}

// The same, where a row that got its first numbers needs no look: by an arc with least travel `least`, whose
// head has `reach` in `near`.
pub fn nearness_after(first: bool, reach: u32, least: u16, l: Layout, u: usize, work: &[u32]) -> u32
    requires small { Small l }
    requires u_lt_nodes { (u < l.nodes) × (length work.now ≡ l.nodes * l.period) × (least ≤ reach)
        × NearFirst first l.period work.now u (reach - least)
        × Numbers work.now (u * l.period) (u * l.period + l.period) }
    ensures { Near l.period work.now u result }
{
    if first {
        return reach - least as u32;
    }
    nearness(l, u, work)
}

// The greatest number of a node's row.
pub fn highest(l: Layout, u: usize, work: &[u32]) -> u32
    requires small { Small l }
    requires u_lt_nodes { (u < l.nodes) × (length work.now ≡ l.nodes * l.period)
        × Numbers work.now (u * l.period) (u * l.period + l.period) }
    ensures { Highest l.period work.now u result }
{
    let p = row_place(l, u);
    let e = p + l.period;
    let mut high = work[p];
    for &number in &work[p..e] {
        high = higher(high, number);
    }
    high
}

// Each entry of node u's row is `value`.
pub fn fill_row(l: Layout, u: usize, value: u32, work: &mut [u32])
    requires small { Small l }
    requires u_lt_nodes { (u < l.nodes) × (length work.old ≡ l.nodes * l.period) }
    ensures { Filled (u * l.period) (u * l.period + l.period) (λ _. value) work.old
        work.new }
{
    let p = row_place(l, u);
    let e = p + l.period;
    work[p..e].fill(value);
}

// The rows of the nodes from `from` up to `to` that have no number are never.
pub fn show_rows(l: Layout, from: usize, to: usize, room: &[u32; MOST_NODES], work: &mut [u32])
    requires small { Small l }
    requires from_le_to { (from ≤ to) × (to ≤ l.nodes) × (length work.old ≡ l.nodes * l.period) }
    ensures { Shown l.period from to room.now work.old work.new }
{
    for u in from..to {
        let bare = room[u] == 0;
        if bare {
            fill_row(l, u, NEVER, work);
        }
    }
}

// The same for the rows that are wanted: that of the node `goal`, or all, where there is no such node.
pub fn show_wanted(l: Layout, goal: usize, room: &[u32; MOST_NODES], work: &mut [u32])
    requires small { Small l }
    requires work_len { length work.old ≡ l.nodes * l.period }
    ensures { ShownFor l goal room.now work.old work.new }
{
    if goal < l.nodes {
        show_rows(l, goal, goal + 1, room, work);
        return;
    }
    show_rows(l, 0, l.nodes, room, work);
}
