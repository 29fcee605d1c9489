// Whether the points of all arcs keep the rules 9 and 10, yes or no: what good tables are asked. A point is
// held against the one after it without asking whether that starts an arc: at a tick of 0 the comparisons
// hold, and there are as many such ticks as arcs. So one loop with no way out goes over all points, and a
// compiler makes vector code of it. Where the answer is no, rules.rt finds the rule and the point.
ghost use Rattle.std.specs.Prelude.{◌≡◌, true, ◌+◌, ◌-◌, ◌≤◌, ◌<◌, length, get_or, Ok};
ghost use Rattle.network.specs.FirstPoint.{Counted};
ghost use Rattle.network.specs.Limits.{most_period, most_points};
ghost use Rattle.network.specs.Rules.{judged_points};
ghost use Rattle.network_tables.specs.Cut.{bare};
ghost use Rattle.network_tables.specs.Pairs.{Ordered, Paired};
ghost use Rattle.network_tables.specs.Steady.{Closed, AllClosed};

use crate::rules::entry;

// What is seen of the points that have one after them: how many of those after them have tick 0, and a number
// that is 0 only where all of them keep the rules.
#[derive(Clone, Copy)]
pub struct Pairs {
    pub starts: u16,
    pub fault: u16,
}

// 0 only where a point with tick t and travel v keeps the rules, before one with tick u and travel w. One
// less than 0 comes out above all others.
fn fault(period: u16, t: u16, v: u16, u: u16, w: u16) -> u16
    requires { (0 < period) × (period ≤ most_period) }
    ensures { result ≡ 0 → Ordered period t v u w }
{
    let low = u.wrapping_sub(1);
    let over = v.wrapping_sub(1);
    let early = t.saturating_sub(low);
    let late = t.saturating_add(over).saturating_sub(low.saturating_add(w));
    early
        .saturating_add(late)
        .saturating_add(over.saturating_sub(period - 1))
}

// All points but the last, each with the one after it.
fn pair_up(period: u16, ticks: &[u16], travels: &[u16]) -> Pairs
    requires period_nonzero { (0 < period) × (period ≤ most_period) × (0 < length ticks.now) }
    requires ticks_len_bound { (length ticks.now ≤ most_points) × (length travels.now ≡ length ticks.now) }
    ensures { Paired period ticks.now travels.now
        (length ticks.now - 1) result }
{
    let mut starts = 0;
    let mut over = 0u16;
    for q in 0..ticks.len() - 1 {
        let u = ticks[q + 1];
        starts += u16::from(u == 0);
        over = over.max(fault(period, ticks[q], travels[q], u, travels[q + 1]));
    }
    Pairs {
        starts,
        fault: over,
    }
}

// Does a day close whose first point has tick t and travel v, and whose last has tick u and travel w?
fn is_closed(period: usize, t: usize, v: usize, u: usize, w: usize) -> bool
    requires { (period ≤ most_period) × (v < 65536) × (u < 65536) × (w < 65536) }
    ensures { result ≡ true → Closed period t v u w }
{
    if 0 < t {
        return false;
    }
    if w < 1 {
        return false;
    }
    if period < w {
        return false;
    }
    if period <= u {
        return false;
    }
    u + w <= period + v
}

// Does the day of one arc close, whose points stand from point `from` on?
fn is_closed_at(period: usize, from: usize, count: usize, ticks: &[u16], travels: &[u16]) -> bool
    requires count_in_bounds { (from + count ≤ length ticks.now) × (from + count ≤ length travels.now) }
    requires count_nonzero { (0 < count) × (period ≤ most_period) }
    ensures { result ≡ true → Closed period (get_or ticks.now from 0)
        (get_or travels.now from 0) (get_or ticks.now (from + count - 1) 0)
        (get_or travels.now (from + count - 1) 0) }
{
    let last = from + count - 1;
    let t = entry(ticks, from);
    let v = entry(travels, from);
    is_closed(period, t, v, entry(ticks, last), entry(travels, last))
}

// Do the days of all arcs close?
fn are_closed(period: usize, counts: &[u16], ticks: &[u16], travels: &[u16]) -> bool
    requires counted { Counted (bare period counts.now ticks.now travels.now) }
    requires travels_len { (length travels.now ≡ length ticks.now) × (length ticks.now ≤ most_points) }
    requires period_le_most_period { period ≤ most_period }
    ensures { result ≡ true → AllClosed
        (bare period counts.now ticks.now travels.now)
        (length counts.now) }
{
    let mut from = 0;
    for a in 0..counts.len() {
        let count = entry(counts, a);
        if !is_closed_at(period, from, count, ticks, travels) {
            return false;
        }
        from += count;
    }
    true
}

// Do the points of all arcs keep the rules?
pub fn is_steady(period: usize, counts: &[u16], ticks: &[u16], travels: &[u16]) -> bool
    requires counted { Counted (bare period counts.now ticks.now travels.now) }
    requires period_nonzero { (0 < period) × (period ≤ most_period) }
    requires travels_len { (length travels.now ≡ length ticks.now) × (length ticks.now ≤ most_points) }
    ensures { result ≡ true → judged_points
        (bare period counts.now ticks.now travels.now) ≡ Ok tt }
{
    if ticks.len() == 0 {
        return true;
    }
    let pairs = pair_up(period as u16, ticks, travels);
    if 0 < pairs.fault {
        return false;
    }
    let starts = pairs.starts as usize;
    if starts + 1 != counts.len() {
        return false;
    }
    are_closed(period, counts, ticks, travels)
}
