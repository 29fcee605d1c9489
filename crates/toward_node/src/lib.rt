// toward_node: the least travel from every node, at every tick, to one node, worked out backwards from it in
// a lent list of numbers. The list has a row for each node and in it a number for each tick. A node whose
// row has fallen is dirty; the arcs into a dirty node lower the rows of their tails, whole rows at a time,
// until no node is dirty. The order in which nodes are taken is free; the nearest dirty node is taken first.
// Where the row of one node is wanted alone, what is not below its greatest number is left out. The list is
// lent as it comes: a row's first numbers are written over what stood there, and a wanted row that got none
// is filled with never in the end (`toward_list`, specs/Seen.antt).
// By the tables beside the rows an arc that cannot lower its tail's row is passed over.
//   roads    the file of a network with the tables of its arcs (`Roads`)
// It may call `toward_list` for rows and tables and `network` for the entries of the file; it cites
// `toward_row`, `theory_loops` and `theory_paths`.
#![tactic(auto)]

ghost use Rattle.std.specs.Prelude.{◌≡◌, ◌≢◌, ◌+◌, ◌*◌, ◌≤◌, ◌<◌, max, length, get_or, replicate, leb};
ghost use Rattle.network.specs.Network.{head};
ghost use Rattle.network.specs.Limits.{most_nodes};
ghost use Rattle.network.specs.Decode.{decode};
ghost use Rattle.network.specs.Town.{graph_of};
ghost use Rattle.toward_list.specs.Heights.{Heights, Held, Lows, Bounds};
ghost use Rattle.toward_list.specs.Rows.{Worked, WorkedFor, WorkedRow};
ghost use Rattle.toward_list.specs.Seen.{seen};
ghost use Rattle.toward_node.specs.Turn.{Stepped, Turned, Found, Bar};
ghost use Rattle.toward_node.specs.Nearest.{Most};

pub mod roads;

use crate::roads::Roads;
use network::limits::{MOST_NODES, MOST_PERIOD, NEVER};
use network::read;
use toward_list::rows::{copy_row, fill_row, highest, lower_row, nearness_after, show_wanted};

// Whether an arc gives no less than its tail's row has, or nothing that is wanted: `near` is that of its
// head, `room` that of its tail, and `least` its least travel.
fn is_idle(near: u32, room: u32, bar: u32, least: u16) -> bool
    ensures { result ≡ leb near (max room bar + least) }
{
    u64::from(near) <= u64::from(room.max(bar)) + u64::from(least)
}

// An arc's turn: its tail's row is lowered, and where an entry fell the tail is dirty. `hs` is its head's row
// and `reach` what `near` had of the head; numbers that are not below never less `bar` are not wanted.
fn lower_tail(
    roads: &Roads<'_>,
    arc: usize,
    hs: &[u32; MOST_PERIOD],
    reach: u32,
    bar: u32,
    work: &mut [u32],
    near: &mut [u32; MOST_NODES],
    room: &mut [u32; MOST_NODES],
)
    requires { (arc < roads.now.layout.arcs)
        × Heights roads.now.layout (seen roads.now.layout.period room.old work.old) near.old room.old
        × Held roads.now.layout.period reach hs.now (seen roads.now.layout.period room.old work.old) room.old
        (head (decode roads.now.file.now) arc) }
    ensures { Stepped roads.now.file.now roads.now.layout arc reach bar hs.now
        (seen roads.now.layout.period room.old work.old) near.old room.old
        (seen roads.now.layout.period room.new work.new) near.new room.new }
{
    let u = read::tail(roads.file, roads.layout, arc);
    let top = room[u];
    let least = roads.least[arc];
    if is_idle(reach, top, bar, least) {
        return;
    }
    let first = top == 0;
    let fell = lower_row(
        first,
        roads.file,
        roads.layout,
        roads.starts,
        arc,
        u,
        hs,
        work,
    );
    if fell == 0 {
        return;
    }
    near[u] = nearness_after(first, reach, least, roads.layout, u, work);
    room[u] = NEVER - highest(roads.layout, u, work);
}

// A node's turn: it is clean, and each arc into it has its turn. Its row is copied to `hs`.
fn settle(
    roads: &Roads<'_>,
    v: usize,
    bar: u32,
    hs: &mut [u32; MOST_PERIOD],
    work: &mut [u32],
    near: &mut [u32; MOST_NODES],
    low: &mut [u32; MOST_NODES],
    room: &mut [u32; MOST_NODES],
)
    requires { (v < roads.now.layout.nodes)
        × Heights roads.now.layout (seen roads.now.layout.period room.old work.old) near.old room.old
        × Lows roads.now.layout (seen roads.now.layout.period room.old work.old) near.old low.old
        × (get_or near.old v 0 ≢ 0) × (roads.now.layout.period ≤ length hs.old) }
    ensures { Turned roads.now.file.now roads.now.layout bar
        (seen roads.now.layout.period room.old work.old) near.old room.old
        (seen roads.now.layout.period room.new work.new) near.new room.new
        low.new × (length hs.new ≡ length hs.old) }
{
    copy_row(roads.layout, v, work, hs);
    let reach = near[v];
    near[v] = 0;
    low[v] = reach;
    let mut a = usize::from(roads.into[v]);
    while a < roads.layout.arcs {
        lower_tail(roads, a, hs, reach, bar, work, near, room);
        a = usize::from(roads.next[a]);
    }
}

// The most that a node has in `near`.
fn most_near(near: &[u32; MOST_NODES], nodes: usize) -> u32
    requires { nodes ≤ most_nodes }
    ensures { Most nodes result near.now }
{
    let mut most = 0u32;
    for &entry in &near[..nodes] {
        most = most.max(entry);
    }
    most
}

// The first node that has `most` in `near`.
fn first_with(near: &[u32; MOST_NODES], nodes: usize, most: u32) -> usize
    requires { (nodes ≤ most_nodes) × Most nodes most near.now × (most ≢ 0) }
    ensures { (result < nodes) × (get_or near.now result 0 ≡ most) }
{
    near[..nodes]
        .iter()
        .position(|&entry| entry == most)
        .unwrap_or(nodes)
}

// The nearest dirty node, or the number of nodes where none has more than `bar` in `near`. Two looks, the
// first of which has no test in its loop and becomes vector code.
fn nearest(near: &[u32; MOST_NODES], nodes: usize, bar: u32) -> usize
    requires { nodes ≤ most_nodes }
    ensures { Found nodes bar near.now result }
{
    let most = most_near(near, nodes);
    if most <= bar {
        return nodes;
    }
    first_with(near, nodes, most)
}

// What `room` has of the node whose row is wanted; 0 where every row is.
fn bar_of(room: &[u32; MOST_NODES], nodes: usize, goal: usize) -> u32
    requires { nodes ≤ most_nodes }
    ensures { Bar nodes goal room.now result }
{
    if goal < nodes {
        return room[goal];
    }
    0
}

// The least travels to node b, by turn after turn: from the node `goal`, or from every node, where there is
// no such node. `hs` is a row to work in; `low` and `room` begin as zeros, and where every node is asked for
// they end with bounds of its row.
fn work_out(
    roads: &Roads<'_>,
    b: usize,
    goal: usize,
    work: &mut [u32],
    hs: &mut [u32; MOST_PERIOD],
    low: &mut [u32; MOST_NODES],
    room: &mut [u32; MOST_NODES],
)
    requires { (b < roads.now.layout.nodes)
        × (length work.old ≡ roads.now.layout.nodes * roads.now.layout.period)
        × (roads.now.layout.period ≤ length hs.old) × (low.old ≡ replicate most_nodes 0)
        × (room.old ≡ replicate most_nodes 0) }
    ensures { WorkedFor (graph_of (decode roads.now.file.now)) b goal work.new
        × (roads.now.layout.nodes ≤ goal → Bounds roads.now.layout work.new low.new room.new)
        × (length hs.new ≡ length hs.old) }
{
    let l = roads.layout;
    fill_row(l, b, 0, work);
    let mut near = [0u32; MOST_NODES];
    near[b] = NEVER;
    room[b] = NEVER;
    let mut bar = bar_of(room, l.nodes, goal);
    let mut v = b;
    while v < l.nodes {
        settle(roads, v, bar, hs, work, &mut near, low, room);
        bar = bar_of(room, l.nodes, goal);
        v = nearest(&near, l.nodes, bar);
    }
    show_wanted(l, goal, room, work);
}

// The least travels to node b from every node. `low` and `room` begin as zeros, and end with never less a
// number that no entry of a node's row is below, and never less one that none is above.
pub fn least_travels(
    roads: &Roads<'_>,
    b: usize,
    work: &mut [u32],
    hs: &mut [u32; MOST_PERIOD],
    low: &mut [u32; MOST_NODES],
    room: &mut [u32; MOST_NODES],
)
    requires { (b < roads.now.layout.nodes)
        × (length work.old ≡ roads.now.layout.nodes * roads.now.layout.period)
        × (roads.now.layout.period ≤ length hs.old) × (low.old ≡ replicate most_nodes 0)
        × (room.old ≡ replicate most_nodes 0) }
    ensures { Worked (graph_of (decode roads.now.file.now)) b work.new
        × Bounds roads.now.layout work.new low.new room.new
        × (length hs.new ≡ length hs.old) }
{
    work_out(roads, b, roads.layout.nodes, work, hs, low, room);
}

// The least travels to node b from node `from`: its row is theirs, and the others are left as they come.
pub fn least_travels_from(
    roads: &Roads<'_>,
    b: usize,
    from: usize,
    work: &mut [u32],
    hs: &mut [u32; MOST_PERIOD],
)
    requires { (b < roads.now.layout.nodes) × (from < roads.now.layout.nodes)
        × (length work.old ≡ roads.now.layout.nodes * roads.now.layout.period)
        × (roads.now.layout.period ≤ length hs.old) }
    ensures { WorkedRow (graph_of (decode roads.now.file.now)) b from work.new }
{
    let mut low = [0u32; MOST_NODES];
    let mut room = [0u32; MOST_NODES];
    work_out(roads, b, from, work, hs, &mut low, &mut room);
}
