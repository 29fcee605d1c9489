// A brief of an arc's travel: a byte, noted once, that has the travel where that is the same all day, and
// else a number that it is never below. By it most arcs are passed or met without a look at their points.
// A travel of more than an hour does not fit, and is read each time.
ghost use Rattle.std.specs.Prelude.{◌≡◌, ◌+◌, ◌-◌, ◌%◌, ◌^◌, ◌≤◌, ◌<◌, length, get_or, set};
ghost use Rattle.network.specs.Network;
ghost use Rattle.network.specs.Decode.{decode};
ghost use Rattle.network.specs.Town.{travel_at};
ghost use Rattle.search_chains.specs.Town.{Town};
ghost use Rattle.day_slopes.specs.Runs.{Runs, Short};
ghost use Rattle.day_runs.specs.Filling.{Space};
ghost use Rattle.arc_runs.specs.Brief.{Brief, Briefs, Pointed, Between};

use crate::{fill_arc, first_point};
use day_runs::points::{greatest_point, least_point};
use network::header::Layout;
use network::limits::MOST_ARCS;
use network::read;

// From here on a byte is a travel of all day, with this added.
const STEADY: u8 = 128;

// The byte of a travel whose least and greatest are known.
fn between(low: u32, high: u32) -> u8
    ensures { Between low high result }
{
    if 128 <= low {
        return 127;
    }
    if low == high {
        return low as u8 + STEADY;
    }
    low as u8
}

// The brief of an arc.
fn brief_of(file: &[u8], l: Layout, points: &[u16; MOST_ARCS], arc: usize) -> u8
    requires town { Town file.now l }
    requires arc_lt_arcs { (arc < l.arcs) × (get_or points.now arc 0 ≡ Network.start (decode file.now) arc) }
    ensures { Brief (travel_at (decode file.now) arc) l.period result }
{
    let first = first_point(file, &l, points, arc);
    let count = read::count(file, l, arc);
    between(least_point(first, count), greatest_point(first, count))
}

// The briefs of all arcs.
pub fn fill_briefs(file: &[u8], l: Layout, points: &[u16; MOST_ARCS], briefs: &mut [u8; MOST_ARCS])
    requires town { Town file.now l }
    requires pointed { Pointed (decode file.now) l.arcs points.now }
    requires arcs_in_bounds { l.arcs ≤ length briefs.old }
    ensures { Briefs (decode file.now) l.period l.arcs briefs.new }
{
    let arcs = l.arcs;
    for a in 0..arcs {
        briefs[a] = brief_of(file, l, points, a);
    }
}

// The number that an arc with this brief is never below.
pub fn least(brief: u8) -> u32
    ensures { result ≡ brief % 128 }
{
    u32::from(brief % STEADY)
}

// One run of all day.
fn put_steady(starts: &mut [u16], travels: &mut [u16], period: usize, travel: u16)
    requires { (1 < length starts.old) × (0 < length travels.old) × (period ≤ 65535) }
    ensures { (starts.new ≡ set (set starts.old 0 0) 1 period)
        × (travels.new ≡ set travels.old 0 travel) }
{
    starts[0] = 0;
    starts[1] = period as u16;
    travels[0] = travel;
}

// The runs of an arc's travel, as `fill_arc` has them, by its brief: without a find where it is the same all
// day.
pub fn fill_runs(
    file: &[u8],
    l: Layout,
    points: &[u16; MOST_ARCS],
    arc: usize,
    brief: u8,
    starts: &mut [u16],
    values: &mut [u32],
    travels: &mut [u16],
    finds: &mut u64,
) -> usize
    requires town { Town file.now l }
    requires arc_lt_arcs { (arc < l.arcs) × (get_or points.now arc 0 ≡ Network.start (decode file.now) arc) }
    requires brief { Brief (travel_at (decode file.now) arc) l.period brief }
    requires space { Space starts.old values.old l.period × (l.period ≤ length travels.old) }
    requires arc_bound { finds.old + Network.count (decode file.now) arc < 2 ^ 64 }
    ensures { Runs starts.new travels.new result l.period
        (travel_at (decode file.now) arc) × Short travels.new result l.period
        × (finds.old ≤ finds.new)
        × (finds.new ≤ finds.old + Network.count (decode file.now) arc) }
{
    if brief < STEADY {
        return fill_arc(file, l, points, arc, starts, values, travels, finds);
    }
    put_steady(starts, travels, l.period, u16::from(brief - STEADY));
    1
}
