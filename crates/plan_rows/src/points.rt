// The points of one row, put into a plan's file from a place on. Ticks are gone through by parts of 32: most
// parts have no point, which vector code tells.
ghost use Rattle.std.specs.Prelude.{◌≡◌, ◌+◌, ◌-◌, ◌≤◌, ◌<◌, length};
ghost use Rattle.theory_travel.specs.Turns.{turn_count};
ghost use Rattle.plan_encode.specs.Places.{PlanRoom};
ghost use Rattle.toward_points.specs.Row.{entry_of, Low, points_before};
ghost use Rattle.plan_rows.specs.Points.{PutPoints};

use plan::header::PlanLayout;
use plan_encode::entries::put_point;
use toward_points::{points_between, turn};

// The ticks of a part.
const PART: usize = 32;

// Puts the point at tick x, where `turned` says that it is one. Answers the next place.
fn put_tick(row: &[u32], x: usize, turned: u32, out: &mut [u8], k: PlanLayout, q: usize) -> usize
    requires low { Low row.now × PlanRoom k (length out.old) }
    requires x_in_bounds { (x < length row.now) × (q + turned ≤ k.points)
        × (points_before row.now x + turned ≡ points_before row.now (x + 1)) }
    ensures { PutPoints k row.now x (x + 1) q out.old out.new result }
{
    if turned == 0 {
        return q;
    }
    put_point(out, k, q, x as u16, row[x]);
    q + 1
}

// Puts the points from tick a up to tick b, from place q on. Answers the place after them.
fn put_each(row: &[u32], a: usize, b: usize, out: &mut [u8], k: PlanLayout, q: usize) -> usize
    requires low { Low row.now × PlanRoom k (length out.old) }
    requires le_a { (1 ≤ a) × (a ≤ b) × (b < length row.now)
        × (q + (points_before row.now b - points_before row.now a) ≤ k.points) }
    ensures { PutPoints k row.now a b q out.old out.new result }
{
    let mut at = q;
    for x in a..b {
        let turned = turn(row[x - 1], row[x], row[x + 1]);
        at = put_tick(row, x, turned, out, k, at);
    }
    at
}

// The same, where the part may have no point.
fn put_part(row: &[u32], a: usize, b: usize, out: &mut [u8], k: PlanLayout, q: usize) -> usize
    requires low { Low row.now × PlanRoom k (length out.old) }
    requires le_a { (1 ≤ a) × (a ≤ b) × (b < length row.now)
        × (q + (points_before row.now b - points_before row.now a) ≤ k.points) }
    ensures { PutPoints k row.now a b q out.old out.new result }
{
    if points_between(row, a, b) == 0 {
        return q;
    }
    put_each(row, a, b, out, k, q)
}

// Where the part that starts at tick x ends.
fn part_end(x: usize, last: usize) -> usize
    requires { x < last }
    ensures { (x < result) × (result ≤ last) }
{
    x + PART.min(last - x)
}

// Puts the points from tick 1 up to the last, part by part.
fn put_parts(row: &[u32], last: usize, out: &mut [u8], k: PlanLayout, q: usize) -> usize
    requires low { Low row.now × PlanRoom k (length out.old) }
    requires le_last { (1 ≤ last) × (last < length row.now)
        × (q + (points_before row.now last - points_before row.now 1) ≤ k.points) }
    ensures { PutPoints k row.now 1 last q out.old out.new result }
{
    let mut at = q;
    let mut x = 1;
    while x < last {
        let e = part_end(x, last);
        at = put_part(row, x, e, out, k, at);
        x = e;
    }
    at
}

// Puts all points of a row: that of tick 0, and those after it.
pub fn put_points(row: &[u32], out: &mut [u8], k: PlanLayout, q: usize) -> usize
    requires low { Low row.now × PlanRoom k (length out.old) }
    requires row_bound { q + turn_count (entry_of row.now) (length row.now) ≤ k.points }
    ensures { PutPoints k row.now 0 (length row.now) q out.old
        out.new result }
{
    put_point(out, k, q, 0, row[0]);
    let last = row.len() - 1;
    if last == 0 {
        return q + 1;
    }
    let next = put_parts(row, last, out, k, q + 1);
    let turned = turn(row[last - 1], row[last], row[0]);
    put_tick(row, last, turned, out, k, next)
}
