// day_merge: what an arc gives at every tick of a day, held against a node's own profile, by runs: on a
// span on which the node's value, the arc's travel and the head's value at the arc's end do not change one
// comparison serves all ticks. No tick is looked at by itself and nothing is divided. What comes out is
// painted into a byte for each tick, many spans at once while it stays the same. Over one run of the arc node
// and head go on side by side (`sweep`), so that a step waits for few reads.
//   sides  what is held against one another
// It may call `day_walk` to walk along runs; it cites `day_slopes` for runs and `theory_loops` for filled
// parts.
#![tactic(auto)]

pub mod sides;

ghost use Rattle.std.specs.Prelude.{◌≡◌, ◌+◌, ◌≤◌, ◌<◌, length, get_or};
ghost use Rattle.theory_loops.specs.Fill.{Filled};
ghost use Rattle.day_walk.specs.Walk.{At};
ghost use Rattle.day_merge.specs.Merged;
ghost use Rattle.day_merge.specs.Merged.{Told, Turned, Swept, painted, always};

use crate::sides::Sides;
use day_walk::walk::ends;

// The bits of a tick at which an arc gives g and the node's own value is o.
fn bits(same: u8, g: u64, o: u64) -> u8
    ensures { result ≡ Merged.bits same g o }
{
    if g < o {
        return 1;
    }
    if g == o {
        return same;
    }
    0
}

// The bits while the node is in run i and its head in run j, where the arc's travel is w.
fn judge(sides: &Sides<'_, '_, '_>, i: usize, w: u16, j: usize) -> u8
    requires { (i < sides.now.own.count) × (j < sides.now.head.count) }
    ensures { result ≡ Merged.bits sides.now.same (get_or sides.now.head.values.now j 0 + w)
        (get_or sides.now.own.values.now i 0) }
{
    let gives = u64::from(sides.head.values[j]) + u64::from(w);
    bits(sides.same, gives, u64::from(sides.own.values[i]))
}

// Sets bits of the ticks from `a` up to `b`.
fn paint(marks: &mut [u8], a: usize, b: usize, more: u8)
    requires { (a ≤ b) × (b ≤ length marks.old) }
    ensures { Filled a b (painted (always more) marks.old) marks.old
        marks.new }
{
    for x in a..b {
        marks[x] |= more;
    }
}

// The same, where there may be none to set.
fn paint_some(marks: &mut [u8], a: usize, b: usize, more: u8)
    requires { (a ≤ b) × (b ≤ length marks.old) }
    ensures { Filled a b (painted (always more) marks.old) marks.old
        marks.new }
{
    if more != 0 {
        paint(marks, a, b, more);
    }
}

// At tick t, up to which the bits since tick `since` were `held`, and from which on they are `more`: where
// they change, those held are painted. Answers since when they are the same.
fn turn(marks: &mut [u8], since: usize, t: usize, held: u8, more: u8) -> usize
    requires { (since ≤ t) × (t ≤ length marks.old) }
    ensures { Turned since t held more result marks.old marks.new }
{
    if more == held {
        return since;
    }
    paint_some(marks, since, t, held);
    t
}

// Where a walk stands: at tick t, in run i of the node, and in the head it was last in run j. All is painted
// up to tick `since`, and from there on the bits are `held`.
#[derive(Clone, Copy)]
struct Place {
    t: usize,
    i: usize,
    j: usize,
    since: usize,
    held: u8,
}

// Goes on through run k of the arc, up to its end or to the tick from which on the arc ends a day later.
fn sweep(sides: &Sides<'_, '_, '_>, k: usize, p: Place, marks: &mut [u8]) -> Place
    requires bytes { sides.now.own.period ≤ length marks.old }
    requires at { (p.t < sides.now.own.period) × At sides.now.own.starts.now sides.now.own.count p.i p.t
        × At sides.now.arc.starts.now sides.now.arc.count k p.t × (p.j ≤ sides.now.head.count)
        × (p.since ≤ p.t) }
    ensures { Swept sides.now.own.starts.now sides.now.own.values.now sides.now.arc.starts.now
        sides.now.arc.values.now sides.now.head.starts.now sides.now.head.values.now
        sides.now.own.count sides.now.arc.count sides.now.head.count sides.now.own.period
        sides.now.same k p result marks.old marks.new }
{
    let from = p.t;
    let period = sides.own.period;
    let w = sides.arc.values[k];
    let e = ends(from, usize::from(w), period);
    let stop = sides.arc.start(k + 1).min(from + (period - e));
    let mut t = from;
    let mut i = p.i;
    let mut j = sides.head.seek(p.j, e);
    let mut since = p.since;
    let mut held = p.held;
    while t < stop {
        let end = e + (t - from);
        let to = sides.own.until(i, &sides.head, j, t, end, stop);
        let more = judge(sides, i, w, j);
        since = turn(marks, since, t, held, more);
        held = more;
        i = sides.own.next(i, t, to);
        j = sides.head.next(j, end, end + (to - t));
        t = to;
    }
    Place {
        t,
        i,
        j,
        since,
        held,
    }
}

// Holds what an arc gives against the node's own profile, at all ticks: at a tick sets bit 1 where it gives
// less and the bits of `same` where it gives the same.
pub fn merge(sides: &Sides<'_, '_, '_>, marks: &mut [u8])
    requires { sides.now.own.period ≤ length marks.old }
    ensures { Told sides.now.own.starts.now sides.now.own.values.now sides.now.arc.starts.now
        sides.now.arc.values.now sides.now.head.starts.now sides.now.head.values.now
        sides.now.own.count sides.now.arc.count sides.now.head.count sides.now.own.period
        sides.now.same marks.old marks.new }
{
    let period = sides.own.period;
    let mut p = Place {
        t: 0,
        i: 0,
        j: 0,
        since: 0,
        held: 0,
    };
    let mut k = 0;
    while p.t < period {
        let t = p.t;
        p = sweep(sides, k, p, marks);
        k = sides.arc.next(k, t, p.t);
    }
    paint_some(marks, p.since, period, p.held);
}
