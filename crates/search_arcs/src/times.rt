// When an arc that is taken at a tick ends: the travel by the arc's points, read in place from the file. A
// travel is read by `ends_at` alone; what it needs of the arcs' first points stands in a table, which
// `first_points` fills once, or `search_chains::tables::fill` for a search.
ghost use Rattle.std.specs.Prelude.{◌≡◌, ◌+◌, ◌%◌, ◌≤◌, ◌<◌, length, get_or};
ghost use Rattle.theory_loops.specs.Fill.{Filled};
ghost use Rattle.theory_paths.specs.Graph.{ends};
ghost use Rattle.theory_paths.specs.Earliest.{never};
ghost use Rattle.theory_travel.specs.Line;
ghost use Rattle.theory_travel.specs.Search.{Sorted, Last};
ghost use Rattle.theory_travel.specs.Day.{Day};
ghost use Rattle.theory_travel.specs.Table.{entry_at, value_at};
ghost use Rattle.network.specs.Network.{count, start};
ghost use Rattle.network.specs.Decode.{decode, Laid};
ghost use Rattle.network.specs.Points.{Placed};
ghost use Rattle.network.specs.Town.{graph_of};
ghost use Rattle.search_chains.specs.Town.{Town, last_tick};
ghost use Rattle.search_arcs.specs.Stretches.{Reaching};
ghost use Rattle.search_arcs.specs.Halves.{Step};
ghost use Rattle.search_arcs.specs.Times.{NextStart};

use network::header::Layout;
use network::limits::MOST_ARCS;
use network::points::Stretch;
use network::read;

// The first point of each arc.
pub fn first_points(file: &[u8], l: Layout, starts: &mut [u16; MOST_ARCS])
    requires town { Town file.now l }
    requires arcs_in_bounds { l.arcs ≤ length starts.old }
    ensures { Filled 0 l.arcs (start (decode file.now)) starts.old
        starts.new }
{
    let mut sum = 0;
    for a in 0..l.arcs {
        starts[a] = sum as u16;
        sum += read::count(file, l, a);
    }
}

// The stretch of the `count` points from `from` on that has the last at or before x: the points of a block
// are passed where more follow and the next block's first is not after x.
fn stretch_of(file: &[u8], l: Layout, from: usize, count: usize, x: usize) -> Stretch
    requires laid { Laid file.now l }
    requires count_bound { from + count ≤ l.points }
    requires sorted { Sorted (entry_at (decode file.now).ticks from) count x }
    ensures { Reaching (decode file.now).ticks l from count x result }
{
    let end = from + count;
    let mut s = Stretch::new(file, l, from);
    while s.first + s.room < end {
        let next = s.next(file, l);
        if x < next.tick(file, l, 0) {
            return s;
        }
        s = next;
    }
    s
}

// A step of a search: `half` where tick t is at or before x, else 0. It is reckoned, not branched for, since
// neither is the likelier: bits 0 to 15 of the number that is held against `half` are all 1, or all 0.
fn step(half: usize, t: usize, x: usize) -> usize
    requires { (half < 65536) × (t < 65536) × (x < 65536) }
    ensures { Step half t x result }
{
    half & ((4294967295 - x + t) >> 16)
}

// The last of the first n points of a stretch that is at or before x, counted from its first.
fn segment(file: &[u8], l: Layout, s: Stretch, n: usize, x: usize) -> usize
    requires laid { Laid file.now l × (x < 65536) }
    requires placed { Placed l s × (n ≤ s.room) × (s.first + n ≤ l.points) }
    requires sorted { Sorted (entry_at (decode file.now).ticks s.first) n x }
    ensures { Last (entry_at (decode file.now).ticks s.first) n x result }
{
    let mut a = 0;
    let mut left = n;
    while 1 < left {
        let half = left / 2;
        a += step(half, s.tick(file, l, a + half), x);
        left -= half;
    }
    a
}

// The line from (a, v) to (b, w) at x, by numbers as they are read.
fn line(x: usize, a: usize, v: usize, b: usize, w: usize) -> usize
    requires { (a ≤ x) × (x < b) × (b < 65536) × (v < 65536) × (w < 65536) }
    ensures { result ≡ Line.line x a v b w }
{
    theory_travel::line(x as u16, a as u16, v as u32, b as u16, w as u32) as usize
}

// The travel at tick x of the period, by `count` points from `from` on: after the last point the line runs on
// to the next day's first.
fn travel_at(file: &[u8], l: Layout, from: usize, count: usize, x: usize) -> usize
    requires town { Town file.now l }
    requires count_bound { (from + count ≤ l.points) × (x < l.period) }
    requires day { Day (entry_at (decode file.now).ticks from) count l.period }
    ensures { result ≡ value_at (decode file.now).ticks
        (decode file.now).travels from count l.period x }
{
    let end = from + count;
    let s = stretch_of(file, l, from, count, x);
    let n = s.count_before(end);
    let k = segment(file, l, s, n, x);
    let a = s.tick(file, l, k);
    let v = s.travel(file, l, k);
    if s.first + (k + 1) < end {
        let next = s.after(file, l, k);
        line(x, a, v, next.tick(file, l, 0), next.travel(file, l, 0))
    } else {
        line(x, a, v, l.period, read::travel(file, l, from))
    }
}

// A tick of any day as a tick of the period. Most are of the first day, and then nothing is divided.
pub fn in_period(tick: u32, period: usize) -> usize
    requires { 0 < period }
    ensures { result ≡ tick % period }
{
    let x = tick as usize;
    if x < period {
        return x;
    }
    x % period
}

// How many points an arc has, by the table: as many as stand before the next arc's first, or before the end.
fn count_of(file: &[u8], l: Layout, starts: &[u16; MOST_ARCS], arc: usize) -> usize
    requires town { Town file.now l }
    requires arc_lt_arcs { arc < l.arcs }
    requires arc_value { (get_or starts.now arc 0 ≡ start (decode file.now) arc)
        × NextStart (decode file.now) l.arcs starts.now arc }
    ensures { result ≡ count (decode file.now) arc }
{
    let from = usize::from(starts[arc]);
    let after = arc + 1;
    if after < l.arcs {
        return usize::from(starts[after]) - from;
    }
    l.points - from
}

// The tick at which an arc, taken at a tick, ends.
pub fn ends_at(file: &[u8], l: Layout, starts: &[u16; MOST_ARCS], arc: usize, tick: u32) -> u32
    requires town { Town file.now l }
    requires arc_lt_arcs { (arc < l.arcs) × (tick ≤ last_tick) }
    requires arc_value { (get_or starts.now arc 0 ≡ start (decode file.now) arc)
        × NextStart (decode file.now) l.arcs starts.now arc }
    ensures { (result ≡ ends (graph_of (decode file.now)) arc tick) × (result < never) }
{
    let from = usize::from(starts[arc]);
    let count = count_of(file, l, starts, arc);
    let x = in_period(tick, l.period);
    tick + travel_at(file, l, from, count, x) as u32
}
