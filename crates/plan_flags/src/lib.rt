// plan_flags: the flag words of a plan that is made of a network. At first an arc has the flag of the cell in
// which both its ends lie (`inside_words`); with each border of the network it gets the flag of the border's
// cell where it starts a least path to the border (`flag_border`). Most arcs that do not are ruled out by
// bounds of the rows of their ends (specs/Bounds.antt).
// It may call `toward_start` for what starts a least path, `plan` for flags and `network` for the entries of
// the file, and takes the roads of `toward_node`; it cites `theory_loops`, `theory_paths`, `toward_row` and
// `toward_list`.
#![tactic(auto)]

ghost use Rattle.std.specs.Prelude.{◌≡◌, ◌+◌, ◌*◌, ◌≤◌, ◌<◌, length};
ghost use Rattle.theory_paths.specs.Least.{least_ticks};
ghost use Rattle.theory_paths.specs.Planned.{starts as startsLeast};
ghost use Rattle.network.specs.Limits.{most_cells};
ghost use Rattle.network.specs.Decode.{decode};
ghost use Rattle.network.specs.Town.{graph_of};
ghost use Rattle.search_chains.specs.Town.{Town};
ghost use Rattle.toward_list.specs.Heights.{Bounds};
ghost use Rattle.toward_list.specs.Rows.{Worked};
ghost use Rattle.plan_flags.specs.Words.{planned_word, with_flag, Flags, FlagsAfter};

use network::header::Layout;
use network::limits::{MOST_ARCS, MOST_NODES, MOST_PERIOD};
use network::read;
use plan::flag;
use toward_node::roads::Roads;
use toward_start::is_start;

// The flag word of arc a by no border: the flag of its ends' cell, where they have one.
fn inside_word(file: &[u8], l: Layout, a: usize) -> u64
    requires town { Town file.now l }
    requires a_lt_arcs { a < l.arcs }
    ensures { result ≡ planned_word (decode file.now) 0 a }
{
    let tail = read::tail(file, l, a);
    let head = read::head(file, l, a);
    let from = read::cell(file, l, tail);
    let to = read::cell(file, l, head);
    if from != to {
        return 0;
    }
    flag::alone(from)
}

// The flag words by no border.
pub fn inside_words(file: &[u8], l: Layout, words: &mut [u64; MOST_ARCS])
    requires town { Town file.now l }
    requires arcs_in_bounds { l.arcs ≤ length words.old }
    ensures { Flags (decode file.now) 0 words.new }
{
    for a in 0..l.arcs {
        words[a] = inside_word(file, l, a);
    }
}

// The flag word of arc a once border b, in cell c, is counted. `row` is a row to work in.
fn flag_arc(
    roads: &Roads<'_>,
    low: &[u32; MOST_NODES],
    room: &[u32; MOST_NODES],
    work: &[u32],
    row: &mut [u32; MOST_PERIOD],
    a: usize,
    b: usize,
    c: usize,
    word: u64,
) -> u64
    requires a_lt_arcs { (a < roads.now.layout.arcs) × (b < roads.now.layout.nodes) × (c < most_cells)
        × (length work.now ≡ roads.now.layout.nodes * roads.now.layout.period)
        × (roads.now.layout.period ≤ length row.old) }
    requires worked { Worked (graph_of (decode roads.now.file.now)) b work.now
        × Bounds roads.now.layout work.now low.now room.now }
    ensures { (result ≡ with_flag word c (startsLeast (graph_of (decode roads.now.file.now))
        (least_ticks (graph_of (decode roads.now.file.now)) b) a))
        × (length row.new ≡ length row.old) }
{
    if flag::is_set(word, c) {
        return word;
    }
    let u = read::tail(roads.file, roads.layout, a);
    let v = read::head(roads.file, roads.layout, a);
    // at its best the arc gives more than its tail's row has anywhere
    let ruled_out = u64::from(low[v]) < u64::from(room[u]) + u64::from(roads.least[a]);
    if ruled_out {
        return word;
    }
    if is_start(roads.file, roads.layout, roads.starts, a, b, work, row) {
        return word + flag::alone(c);
    }
    word
}

// The flag words with border b counted, to which `work` has the least travels, with `low` and `room` as
// bounds of its rows. `row` is a row to work in.
pub fn flag_border(
    roads: &Roads<'_>,
    b: usize,
    low: &[u32; MOST_NODES],
    room: &[u32; MOST_NODES],
    work: &[u32],
    row: &mut [u32; MOST_PERIOD],
    words: &mut [u64; MOST_ARCS],
)
    requires b_lt_nodes { (b < roads.now.layout.nodes)
        × (length work.now ≡ roads.now.layout.nodes * roads.now.layout.period)
        × (roads.now.layout.period ≤ length row.old) × (roads.now.layout.arcs ≤ length words.old) }
    requires worked { Worked (graph_of (decode roads.now.file.now)) b work.now
        × Bounds roads.now.layout work.now low.now room.now }
    ensures { FlagsAfter (decode roads.now.file.now) b words.old words.new
        × (length row.new ≡ length row.old) }
{
    let c = read::cell(roads.file, roads.layout, b);
    for a in 0..roads.layout.arcs {
        words[a] = flag_arc(roads, low, room, work, row, a, b, c, words[a]);
    }
}
