// arc_runs: the travel of an arc over the day, from its points as the network file has them: as runs of equal
// travel. Each point is read once, so its runs take as many finds as it has points.
//   brief   a byte for each arc that spares reading its points, where that is enough
//   points  a reader of the points
// It may call `network` for the entries of the file, `file_blocks` for the walk over points and `day_runs`
// for runs; it cites `theory_travel` for the line and `theory_loops` for filled parts.
#![tactic(auto)]

pub mod brief;
mod points;

ghost use Rattle.std.specs.Prelude.{◌≡◌, ◌+◌, ◌^◌, ◌≤◌, ◌<◌, length, get_or};
ghost use Rattle.theory_loops.specs.Fill.{Filled};
ghost use Rattle.network.specs.Network;
ghost use Rattle.network.specs.Decode.{decode};
ghost use Rattle.network.specs.Town.{travel_at};
ghost use Rattle.search_chains.specs.Town.{Town};
ghost use Rattle.day_slopes.specs.Runs.{Runs, Short};
ghost use Rattle.day_runs.specs.Filling.{Space};
ghost use Rattle.arc_runs.specs.Travels.{Narrow, entries};

use crate::points::ArcPoints;
use day_runs::points::fill_day;
use network::header::Layout;
use network::limits::MOST_ARCS;
use network::read;

// The first point of an arc: `points` is the table of where the points of arcs start.
fn first_point<'a>(
    file: &'a [u8],
    l: &'a Layout,
    points: &[u16; MOST_ARCS],
    arc: usize,
) -> ArcPoints<'a>
    requires town { Town file.now l.now }
    requires arc_lt_arcs { (arc < l.now.arcs)
        × (get_or points.now arc 0 ≡ Network.start (decode file.now) arc) }
    ensures { (result.file.now ≡ file.now) × (result.layout.now ≡ l.now)
        × (result.point ≡ get_or points.now arc 0) }
{
    ArcPoints::new(file, l, usize::from(points[arc]))
}

// The first n values as numbers of 16 bits. By index: over the two slices at once the proof did not close.
fn narrow(values: &[u32], n: usize, travels: &mut [u16])
    requires { (n ≤ length values.now) × (n ≤ length travels.old) × Narrow values.now n }
    ensures { Filled 0 n (entries values.now) travels.old
        travels.new }
{
    for i in 0..n {
        travels[i] = values[i] as u16;
    }
}

// The runs of an arc's travel: where they begin, and their travels. Answers their number. `values` is room
// that is left with nothing of use; a travel is at most a period, so that 16 bits hold it.
pub fn fill_arc(
    file: &[u8],
    l: Layout,
    points: &[u16; MOST_ARCS],
    arc: usize,
    starts: &mut [u16],
    values: &mut [u32],
    travels: &mut [u16],
    finds: &mut u64,
) -> usize
    requires town { Town file.now l }
    requires arc_lt_arcs { (arc < l.arcs) × (get_or points.now arc 0 ≡ Network.start (decode file.now) arc) }
    requires space { Space starts.old values.old l.period × (l.period ≤ length travels.old) }
    requires arc_bound { finds.old + Network.count (decode file.now) arc < 2 ^ 64 }
    ensures { Runs starts.new travels.new result l.period
        (travel_at (decode file.now) arc) × Short travels.new result l.period
        × (finds.new ≡ finds.old + Network.count (decode file.now) arc) }
{
    let first = first_point(file, &l, points, arc);
    let count = read::count(file, l, arc);
    let n = fill_day(first, count, l.period, starts, values, finds);
    narrow(values, n, travels);
    n
}
