// Whether the days of all arcs close. The arcs are walked block by block, without a division; the points at
// the ends of an arc cost one each.
ghost use Rattle.std.specs.Prelude.{◌≡◌, ◌+◌, ◌*◌, ◌<◌, ◌≤◌, true, IfSome};
ghost use Rattle.theory_travel.specs.Table.{entry_at};
ghost use Rattle.file_blocks.specs.Kind.{arc_per};
ghost use Rattle.network.specs.Limits.{most_period};
ghost use Rattle.network.specs.Decode.{decode, Laid};
ghost use Rattle.network.specs.FirstPoint.{Counted};
ghost use Rattle.network_steady.specs.Steady.{Closed, AllClosed};
ghost use Rattle.network_steady.specs.Closes.{PointOf, unclosed, Closing};

use crate::joins::{FIELD, point_at};
use file_blocks::kind;
use file_fields::{BLOCK, HEAD};
use network::arcs::entry_in;
use network::header::Layout;

// The bytes between the points of a block and those of the next.
const BETWEEN: usize = BLOCK - kind::POINT.size * kind::POINT.per;

// Point q as one number. A division of 32 bits costs a processor less than one of 64.
fn point(file: &[u8], l: Layout, q: usize) -> u32
    requires laid { Laid file.now l }
    requires q_lt_points { q < l.points }
    ensures { PointOf (decode file.now) q result }
{
    let passed = q as u32 / (kind::POINT.per as u32);
    let at = BLOCK * l.pointblock + HEAD + kind::POINT.size * q + BETWEEN * (passed as usize);
    point_at(file, at)
}

// Does a day whose first point has tick t and travel v, and whose last has tick u and travel w, not close?
fn is_unclosed(period: u32, t: u32, v: u32, u: u32, w: u32) -> bool
    requires { (period ≤ most_period) × (v < 65536) × (u < 65536) × (w < 65536) }
    ensures { result ≡ unclosed period t v u w }
{
    if 0 < t {
        return true;
    }
    if v < 1 {
        return true;
    }
    if period < v {
        return true;
    }
    if period <= u {
        return true;
    }
    period + v < u + w
}

// Does the day of one arc close, whose points stand from point `from` on?
fn is_closed(file: &[u8], l: Layout, from: usize, count: usize) -> bool
    requires laid { Laid file.now l }
    requires count_bound { (from + count ≤ l.points) × (0 < count) }
    ensures { result ≡ true → Closed l.period (entry_at (decode file.now).ticks from)
        (entry_at (decode file.now).travels from) count }
{
    let first = point(file, l, from);
    let last = point(file, l, from + (count - 1));
    !is_unclosed(
        l.period as u32,
        first % FIELD,
        first / FIELD,
        last % FIELD,
        last / FIELD,
    )
}

// The points of all arcs up to the m-th of block j, or none where the day of an arc in the block does not
// close. The arcs before the block have `before` points.
fn close_block(file: &[u8], l: Layout, j: usize, m: usize, before: usize) -> Option<usize>
    requires laid { Laid file.now l }
    requires m_le_arc_per { (m ≤ arc_per) × (arc_per * j + m ≤ l.arcs) }
    requires closing { Closing (decode file.now) l (arc_per * j) before }
    ensures { IfSome result (Closing (decode file.now) l (arc_per * j + m)) }
{
    let mut sum = before;
    for e in 0..m {
        let arc = entry_in(file, l, j, e);
        let closed = is_closed(file, l, sum, arc.count);
        if !closed {
            return None;
        }
        sum += arc.count;
    }
    Some(sum)
}

// Do the days of all arcs close?
pub fn are_closed(file: &[u8], l: Layout) -> bool
    requires laid { Laid file.now l }
    requires counted { Counted (decode file.now) }
    ensures { result ≡ true → AllClosed (decode file.now) }
{
    let arcs = l.arcs;
    let mut sum = 0;
    for j in 0..kind::ARC.blocks(arcs) {
        let m = kind::ARC.entries_in(arcs, j);
        let Some(passed) = close_block(file, l, j, m, sum) else {
            return false;
        };
        sum = passed;
    }
    true
}
