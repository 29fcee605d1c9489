// toward_start: whether an arc starts a least path to the node that a list of travels is for, at some tick.
// An arc never gives less than its tail's number, so it gives that number somewhere exactly where it lowers
// the tail's row once each entry there is one more.
// It may call `toward_row` for an arc lowered into a row and `toward_list` for rows; it cites `theory_paths`.
#![tactic(auto)]

ghost use Rattle.std.specs.Prelude.{◌≡◌, ◌+◌, ◌*◌, ◌≤◌, ◌<◌, length};
ghost use Rattle.theory_loops.specs.Fill.{Filled};
ghost use Rattle.theory_paths.specs.Least.{least_ticks};
ghost use Rattle.theory_paths.specs.Planned.{starts as startsLeast};
ghost use Rattle.network.specs.Decode.{decode, Small};
ghost use Rattle.network.specs.Town.{graph_of};
ghost use Rattle.toward_row.specs.Arcs.{Primed};
ghost use Rattle.toward_list.specs.Rows.{Worked};
ghost use Rattle.toward_start.specs.Start.{raised, HasNumbers};

use network::header::Layout;
use network::limits::{MOST_ARCS, MOST_PERIOD, NEVER};
use network::read;
use toward_list::rows::row_place;

// Writes a node's row with one more at each tick.
fn raise_row(l: Layout, u: usize, work: &[u32], row: &mut [u32; MOST_PERIOD])
    requires small { Small l }
    requires u_lt_nodes { (u < l.nodes) × (length work.now ≡ l.nodes * l.period)
        × (l.period ≤ length row.old) }
    requires has_numbers { HasNumbers l.period work.now u }
    ensures { Filled 0 l.period (raised l.period work.now u) row.old
        row.new }
{
    let p = row_place(l, u);
    for x in 0..l.period {
        row[x] = work[p + x] + 1;
    }
}

// Does the arc start a least path to node b at some tick? `row` is a row to work in.
pub fn is_start(
    file: &[u8],
    l: Layout,
    starts: &[u16; MOST_ARCS],
    arc: usize,
    b: usize,
    work: &[u32],
    row: &mut [u32; MOST_PERIOD],
) -> bool
    requires primed { Primed file.now l starts.now }
    requires arc_lt_arcs { (arc < l.arcs) × (b < l.nodes) × (length work.now ≡ l.nodes * l.period)
        × (l.period ≤ length row.old) }
    requires worked { Worked (graph_of (decode file.now)) b work.now }
    ensures { (result ≡ startsLeast (graph_of (decode file.now))
        (least_ticks (graph_of (decode file.now)) b) arc)
        × (length row.new ≡ length row.old) }
{
    let u = read::tail(file, l, arc);
    let v = read::head(file, l, arc);
    let p = row_place(l, v);
    if work[p] == NEVER {
        return false;
    }
    let e = p + l.period;
    raise_row(l, u, work, row);
    0 < toward_row::lower_arc(false, file, l, starts, arc, &work[p..e], row)
}
