// The labels of every node that may lie on an earliest path to the target: the nearest node of the frontier
// is settled, and the permitted arcs out of it are relaxed, again and again, until it is the target or the
// frontier is empty. Beside each label stands the note of the fewest arcs by which it came about.
ghost use Rattle.std.specs.Prelude.{◌≡◌, ◌≤◌, ◌<◌, length, replicate};
ghost use Rattle.theory_paths.specs.Labels.{label};
ghost use Rattle.network.specs.Limits.{most_nodes};
ghost use Rattle.network.specs.Network.{tail, head};
ghost use Rattle.network.specs.Decode.{decode};
ghost use Rattle.network.specs.Town.{graph_of};
ghost use Rattle.search_labels.specs.Ready.{Ready, permit_of};
ghost use Rattle.search_chains.specs.Town.{Town};
ghost use Rattle.search_chains.specs.Chain.{Chained};
ghost use Rattle.search_frontier.specs.Frontier.{last_label, Held, Frontier, Open};
ghost use Rattle.search_labels.specs.Notes.{hops_in, most_note};
ghost use Rattle.search_labels.specs.Walk.{Stepped, Spread};
ghost use Rattle.search_labels.specs.Reach.{Started, Reached};

use crate::notes;
use crate::query::Query;
use network::header::Layout;
use network::limits::{MOST_ARCS, MOST_NODES, NEVER};
use search_arcs::times;
use search_chains::{chain, tables};
use search_frontier::frontier;

// The head of an arc, by the table: its entry in the file would have to be found first.
fn head_of(
    file: &[u8],
    l: Layout,
    mask: &[u8],
    heads: &[u16; MOST_ARCS],
    starts: &[u16; MOST_ARCS],
    arc: usize,
) -> usize
    requires ready { Ready file.now l mask.now heads.now starts.now }
    requires arc_lt_arcs { arc < l.arcs }
    ensures { (result ≡ head (decode file.now) arc) × (result < 65536) }
{
    usize::from(heads[arc])
}

// Relaxes one arc, taken at a tick and bringing its note from `base` on: of two notes for one label the
// lesser stays, and a head that gets its first label goes into the frontier.
fn relax(
    file: &[u8],
    l: Layout,
    mask: &[u8],
    heads: &[u16; MOST_ARCS],
    starts: &[u16; MOST_ARCS],
    arc: usize,
    tick: u32,
    base: u32,
    labels: &mut [u32],
    notes: &mut [u32; MOST_NODES],
    frontier: &mut frontier::Frontier,
)
    requires ready { Ready file.now l mask.now heads.now starts.now }
    requires arc_lt_arcs { (arc < l.arcs) × (tick ≤ last_label) × (base ≤ most_note) ×
        (length labels.old ≡ l.nodes) }
    requires frontier { Frontier labels.old frontier.old.keys frontier.old.places frontier.old.size ×
        Open labels.old frontier.old.keys frontier.old.size tick }
    ensures { Stepped (graph_of (decode file.now)) (permit_of mask.now) tick base
        arc labels.old labels.new notes.old notes.new
        frontier.old.keys frontier.new.keys frontier.new.places frontier.old.size frontier.new.size }
{
    if mask[arc] != 1 {
        return;
    }
    let v = head_of(file, l, mask, heads, starts, arc);
    let old = labels[v];
    // An arc never ends before it is taken.
    if old <= tick {
        return;
    }
    let end = times::ends_at(file, l, starts, arc, tick);
    if old < end {
        return;
    }
    let note = base + arc as u32;
    if old <= end {
        if notes[v] <= note {
            return;
        }
        notes[v] = note;
        return;
    }
    labels[v] = end;
    notes[v] = note;
    if old < NEVER {
        frontier.lower(v, end);
        return;
    }
    frontier.add(v, end);
}

// Takes a nearest node out of the frontier, and relaxes the permitted arcs out of it, taken at its label.
fn settle(
    file: &[u8],
    l: Layout,
    mask: &[u8],
    heads: &[u16; MOST_ARCS],
    starts: &[u16; MOST_ARCS],
    first: &[u16; MOST_NODES],
    next: &[u16; MOST_ARCS],
    u: usize,
    labels: &mut [u32],
    notes: &mut [u32; MOST_NODES],
    frontier: &mut frontier::Frontier,
)
    requires ready { Ready file.now l mask.now heads.now starts.now }
    requires chained { Chained (tail (decode file.now)) l.nodes l.arcs 0 first.now next.now }
    requires labels_len { (length labels.old ≡ l.nodes) × (label labels.old u ≤ last_label) }
    requires u_bound { (hops_in notes.old u < most_nodes) × (length notes.old ≡ most_nodes) }
    requires frontier { Frontier labels.old frontier.old.keys frontier.old.places frontier.old.size ×
        Held frontier.old.keys frontier.old.size u ×
        Open labels.old frontier.old.keys frontier.old.size (label labels.old u) }
    ensures { Spread (graph_of (decode file.now)) (permit_of mask.now) u
        labels.old labels.new notes.old notes.new
        frontier.old.keys frontier.new.keys frontier.new.places frontier.old.size frontier.new.size }
{
    frontier.take(u);
    let tick = labels[u];
    let base = notes::longer(notes[u]);
    let mut a = usize::from(first[u]);
    while a < l.arcs {
        relax(
            file, l, mask, heads, starts, a, tick, base, labels, notes, frontier,
        );
        a = usize::from(next[a]);
    }
}

// The source's label is the departure, and no other node has one.
fn start(labels: &mut [u32], q: Query)
    requires { q.source < length labels.old }
    ensures { Started (length labels.old) q.source q.departure
        labels.new }
{
    labels.fill(NEVER);
    labels[q.source as usize] = q.departure;
}

// Settles the nearest node, again and again, until it is the target or the frontier is empty.
fn settle_all(
    file: &[u8],
    l: Layout,
    mask: &[u8],
    heads: &[u16; MOST_ARCS],
    starts: &[u16; MOST_ARCS],
    first: &[u16; MOST_NODES],
    next: &[u16; MOST_ARCS],
    q: Query,
    labels: &mut [u32],
    notes: &mut [u32; MOST_NODES],
)
    requires ready { Ready file.now l mask.now heads.now starts.now }
    requires chained { Chained (tail (decode file.now)) l.nodes l.arcs 0 first.now next.now }
    requires source_lt_nodes { (q.source < l.nodes) × (q.departure < l.period) }
    requires started { Started l.nodes q.source q.departure labels.old ×
        (notes.old ≡ replicate most_nodes 0) }
    ensures { Reached (graph_of (decode file.now))
        (permit_of mask.now) q.source q.target labels.new notes.new ×
        (label labels.new q.source ≡ q.departure) }
{
    let mut frontier = frontier::Frontier {
        keys: [0u32; MOST_NODES],
        places: [0u16; MOST_NODES],
        size: 0,
    };
    frontier.add(q.source as usize, q.departure);
    while 0 < frontier.size {
        let u = frontier::node(frontier.nearest());
        if u == q.target as usize {
            return;
        }
        settle(
            file,
            l,
            mask,
            heads,
            starts,
            first,
            next,
            u,
            labels,
            notes,
            &mut frontier,
        );
    }
}

// The search: exact labels up to the target's, and for each of their nodes the note of the chosen path.
pub fn reach(
    file: &[u8],
    l: Layout,
    mask: &[u8],
    q: Query,
    labels: &mut [u32],
    notes: &mut [u32; MOST_NODES],
)
    requires town { Town file.now l × (l.arcs ≤ length mask.now) }
    requires source_lt_nodes { (q.source < l.nodes) × (q.departure < l.period)
        × (length labels.old ≡ l.nodes) ×
        (notes.old ≡ replicate most_nodes 0) }
    ensures { Reached (graph_of (decode file.now))
        (permit_of mask.now) q.source q.target labels.new notes.new ×
        (label labels.new q.source ≡ q.departure) }
{
    let mut heads = [0u16; MOST_ARCS];
    let mut starts = [0u16; MOST_ARCS];
    let mut first = [chain::NONE; MOST_NODES];
    let mut next = [chain::NONE; MOST_ARCS];
    tables::fill(file, l, &mut heads, &mut starts, &mut first, &mut next);
    start(labels, q);
    settle_all(
        file, l, mask, &heads, &starts, &first, &next, q, labels, notes,
    );
}
