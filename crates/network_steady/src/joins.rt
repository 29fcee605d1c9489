// At how many points the order goes on. It looks at the points of all arcs as one row, block by block and
// without a jump. specs/Joins.antt has the test of a point and the one before it.
ghost use Rattle.std.specs.Prelude.{◌≡◌, ◌+◌, ◌*◌, ◌<◌, ◌≤◌, length};
ghost use Rattle.theory_loops.specs.Count;
ghost use Rattle.theory_breaks.specs.Tally.{flag};
ghost use Rattle.file_blocks.specs.Kind.{point_size, point_per};
ghost use Rattle.network.specs.Limits.{most_period};
ghost use Rattle.network.specs.Network.{points, tick, travel};
ghost use Rattle.network.specs.Decode.{decode, Laid};
ghost use Rattle.network_steady.specs.Joins.{PointAt, join_of, join_at, joined};

use file_blocks::kind;
use file_fields::fields::le16;
use file_fields::{BLOCK, HEAD};
use network::header::Layout;

// The numbers of a field of 16 bits, half of them, and the bits 15 and 31: the top bits of two fields.
pub const FIELD: u32 = 65536;

const HALF: u32 = 32768;

const SIGNS: u32 = 2147516416;

// 1 where the order goes on from one point to the next, 0 where it breaks off. Each of three differences has
// to go below 0 in both of its fields, so that a processor judges some pairs at once.
fn joins(period: u32, last: u32, next: u32) -> u32
    requires { period ≤ most_period }
    ensures { result ≡ flag (join_of period last next) }
{
    let back = last.wrapping_sub(next);
    let order = back.wrapping_add(back % FIELD * FIELD);
    let range = (FIELD - 1).wrapping_sub(next) & next.wrapping_sub(FIELD * period + HALF);
    u32::from(order & range & SIGNS == SIGNS)
}

// The point at byte o as one number: its tick below its travel.
pub fn point_at(file: &[u8], o: usize) -> u32
    requires { o + point_size ≤ length file.now }
    ensures { PointAt file.now o result }
{
    u32::from(le16(file, o)) + FIELD * u32::from(le16(file, o + 2))
}

// How many of m points go on from the one before, behind a point at byte `base`, side by side with it.
fn joins_beside(file: &[u8], base: usize, m: usize, period: u32) -> u32
    requires { (base + point_size * (m + 1) ≤ length file.now) × (m < point_per) × (period ≤ most_period) }
    ensures { result ≡ Count.count m (join_at period file.now base) }
{
    let mut count = 0;
    for e in 0..m {
        let last = point_at(file, base + kind::POINT.size * e);
        let next = point_at(file, base + kind::POINT.size * e + kind::POINT.size);
        count += joins(period, last, next);
    }
    count
}

// How many of all points go on from the one before.
pub fn count_joins(file: &[u8], l: Layout) -> u32
    requires { Laid file.now l }
    ensures { result ≡ Count.count (points (decode file.now))
        (joined l.period (tick (decode file.now)) (travel (decode file.now))) }
{
    let period = l.period as u32;
    let points = l.points;
    let runs = kind::POINT.blocks(points);
    let mut last = 0;
    let mut count = 0;
    for j in 0..runs {
        let m = kind::POINT.entries_in(points, j) - 1;
        let base = BLOCK * (l.pointblock + j) + HEAD;
        let next = point_at(file, base);
        count += joins(period, last, next);
        count += joins_beside(file, base, m, period);
        last = point_at(file, base + kind::POINT.size * m);
    }
    count
}
