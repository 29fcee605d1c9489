// toward_row: what an arc gives at every tick of the day, lowered into a row of travels to one node. Where an
// arc's travel does not change the head's row is copied, shifted, so the inner loop has no look-up and
// becomes vector code. Where the runs of one travel begin is found by one division for each point of the arc.
// It tells whether an entry fell by a count.
// It may call `network` for the entries of the file, `search_arcs` for comparisons and `travel_runs` for
// steps; it cites `theory_travel` and `theory_loops`.
#![tactic(auto)]

ghost use Rattle.std.specs.Prelude.{◌≡◌, true, false, ◌+◌, ◌-◌, ◌/◌, ◌^◌, ◌≤◌, ◌<◌, min, length};
ghost use Rattle.theory_travel.specs.Pieces.{line_at};
ghost use Rattle.theory_travel.specs.Table.{value_at};
ghost use Rattle.network.specs.Limits.{most_period};
ghost use Rattle.network.specs.Decode.{decode, Laid};
ghost use Rattle.network.specs.Town.{travel_at};
ghost use Rattle.theory_loops.specs.Fill.{Filled};
ghost use Rattle.toward_row.specs.Cut.{Cut, Fell};
ghost use Rattle.toward_row.specs.Lower.{entries, always, lowered, shifted};
ghost use Rattle.toward_row.specs.Lower.{Capped, Numbers, Known, Ready};
ghost use Rattle.toward_row.specs.Arcs.{Arc, Primed};

use network::header::Layout;
use network::limits::MOST_ARCS;
use network::read;
use search_arcs::is_before;

// The lesser of an entry and a head's entry with `more` added.
fn lesser(old: u32, value: u32, more: u32) -> u32
    requires { (old < 2 ^ 31) × (value + more < 2 ^ 31) }
    ensures { result ≡ min old (value + more) }
{
    let sum = value + more;
    if is_before(sum, old) { sum } else { old }
}

// 1 where an entry that does not rise fell.
fn fell(old: u32, new: u32) -> u32
    ensures { Fell old new result }
{
    u32::from(new != old)
}

// The wholes of so many parts.
fn wholes(parts: u64) -> usize
    ensures { result ≡ parts / 4294967296 }
{
    (parts / 4294967296) as usize
}

// Writes the head's entries from `from` on, with `more` added, into the entries from `a` up to `b`.
fn copy_run(hs: &[u32], from: usize, more: u32, row: &mut [u32], a: usize, b: usize)
    requires a_le_b { (a ≤ b) × (b ≤ length row.old) × (more ≤ most_period) }
    requires capped { Capped hs.now (from + (b - a)) }
    ensures { Filled a b (shifted true hs.now from a more row.old)
        row.old row.new }
{
    for x in a..b {
        row[x] = hs[from + (x - a)] + more;
    }
}

// Lowers the entries from `a` up to `b` by the head's entries from `from` on, with `more` added.
fn fold_run(hs: &[u32], from: usize, more: u32, row: &mut [u32], a: usize, b: usize) -> u32
    requires a_le_b { (a ≤ b) × (b ≤ length row.old) × (b ≤ most_period) × (more ≤ most_period) }
    requires capped { Capped hs.now (from + (b - a)) × Numbers row.old a b }
    ensures { Cut false a b (shifted false hs.now from a more row.old)
        row.old row.new result }
{
    let mut count = 0;
    for x in a..b {
        let old = row[x];
        let new = lesser(old, hs[from + (x - a)], more);
        row[x] = new;
        count += fell(old, new);
    }
    count
}

// The same, where the row may be written for the first time: then there is nothing to compare. Which it is is
// asked here, once a run, so that neither loop has a test.
fn lower_run(
    first: bool,
    hs: &[u32],
    from: usize,
    more: u32,
    row: &mut [u32],
    a: usize,
    b: usize,
) -> u32
    requires a_le_b { (a ≤ b) × (b ≤ length row.old) × (b ≤ most_period) × (more ≤ most_period) }
    requires capped { Capped hs.now (from + (b - a)) × Known first row.old a b }
    ensures { Cut first a b (shifted first hs.now from a more row.old)
        row.old row.new result }
{
    if first {
        copy_run(hs, from, more, row, a, b);
        return (b - a) as u32;
    }
    fold_run(hs, from, more, row, a, b)
}

// Lowers the entries from `a` up to `b` by an arc whose travel there is `c`: those that end today, and
// those that end tomorrow.
fn lower_span(
    first: bool,
    hs: &[u32],
    period: usize,
    c: usize,
    row: &mut [u32],
    a: usize,
    b: usize,
) -> u32
    requires a_le_b { (a ≤ b) × (b ≤ period) × (c ≤ period) × (period ≤ most_period)
        × (period ≤ length row.old) }
    requires capped { Capped hs.now period × Known first row.old a b }
    ensures { Cut first a b (lowered first (always c) (entries hs.now) period
        row.old) row.old row.new result }
{
    let next = period - c;
    let more = c as u32;
    if b <= next {
        return lower_run(first, hs, a + c, more, row, a, b);
    }
    if next <= a {
        return lower_run(first, hs, a - next, more, row, a, b);
    }
    let today = lower_run(first, hs, a + c, more, row, a, next);
    let tomorrow = lower_run(first, hs, 0, more, row, next, b);
    today + tomorrow
}

// The same by an arc whose travel falls on the line from (a, v) to (b, w): one run for each travel.
fn lower_falling(
    first: bool,
    hs: &[u32],
    period: usize,
    row: &mut [u32],
    a: usize,
    v: usize,
    b: usize,
    w: usize,
) -> u32
    requires ready { Ready first hs.now row.old period a v b w }
    requires w_lt_v { w < v }
    ensures { Cut first a b (lowered first (line_at a v b w) (entries hs.now) period
        row.old) row.old row.new result }
{
    let fall = v - w;
    let step = travel_runs::step_down((b - a) as u32, fall);
    let mut count = 0;
    let mut parts = 4294967295;
    let mut x = a;
    for j in 0..fall {
        parts += step;
        let e = a + wholes(parts);
        count += lower_span(first, hs, period, v - j, row, x, e);
        x = e;
    }
    count
}

// The same where it rises: the first tick has v, and the last run w.
fn lower_rising(
    first: bool,
    hs: &[u32],
    period: usize,
    row: &mut [u32],
    a: usize,
    v: usize,
    b: usize,
    w: usize,
) -> u32
    requires ready { Ready first hs.now row.old period a v b w }
    requires v_lt_w { v < w }
    ensures { Cut first a b (lowered first (line_at a v b w) (entries hs.now) period
        row.old) row.old row.new result }
{
    let last = w - v - 1;
    let step = travel_runs::step_up((b - a) as u32, w - v);
    let begun = lower_span(first, hs, period, v, row, a, a + 1);
    let mut count = 0;
    let mut parts = 0;
    let mut x = a + 1;
    for j in 0..last {
        parts += step;
        let e = a + 1 + wholes(parts);
        count += lower_span(first, hs, period, v + (j + 1), row, x, e);
        x = e;
    }
    let ended = lower_span(first, hs, period, w, row, x, b);
    begun + (count + ended)
}

// The same on any line.
fn lower_piece(
    first: bool,
    hs: &[u32],
    period: usize,
    row: &mut [u32],
    a: usize,
    v: usize,
    b: usize,
    w: usize,
) -> u32
    requires { Ready first hs.now row.old period a v b w }
    ensures { Cut first a b (lowered first (line_at a v b w) (entries hs.now) period
        row.old) row.old row.new result }
{
    if v < w {
        return lower_rising(first, hs, period, row, a, v, b, w);
    }
    if w < v {
        return lower_falling(first, hs, period, row, a, v, b, w);
    }
    lower_span(first, hs, period, v, row, a, b)
}

// The same by `count` points from `from` on, over the whole day. Pieces that are flat wait for the next
// that is not: from tick `flat` on the travel is v.
fn lower_points(
    first: bool,
    file: &[u8],
    l: Layout,
    from: usize,
    count: usize,
    hs: &[u32],
    row: &mut [u32],
) -> u32
    requires laid { Laid file.now l }
    requires arc { Arc (decode file.now).ticks (decode file.now).travels from count l.period
        l.points }
    requires period_in_bounds { (l.period ≤ length row.old) × Capped hs.now l.period
        × Known first row.old 0 l.period }
    ensures { Cut first 0 l.period
        (lowered first (value_at (decode file.now).ticks (decode file.now).travels from
        count l.period) (entries hs.now) l.period row.old)
        row.old row.new result }
{
    let last = count - 1;
    let begin = read::travel(file, l, from);
    let mut fallen = 0;
    let mut flat = 0;
    let mut a = 0;
    let mut v = begin;
    for k in 0..last {
        let b = read::tick(file, l, from + (k + 1));
        let w = read::travel(file, l, from + (k + 1));
        if v == w {
            a = b;
            continue;
        }
        fallen += lower_span(first, hs, l.period, v, row, flat, a);
        fallen += lower_piece(first, hs, l.period, row, a, v, b, w);
        flat = b;
        a = b;
        v = w;
    }
    fallen += lower_span(first, hs, l.period, v, row, flat, a);
    fallen + lower_piece(first, hs, l.period, row, a, v, l.period, begin)
}

// Lowers a row by what an arc gives, where `hs` is its head's row. Answers how many entries fell.
pub fn lower_arc(
    first: bool,
    file: &[u8],
    l: Layout,
    starts: &[u16; MOST_ARCS],
    arc: usize,
    hs: &[u32],
    row: &mut [u32],
) -> u32
    requires primed { Primed file.now l starts.now }
    requires arc_lt_arcs { (arc < l.arcs) × (l.period ≤ length row.old) × Capped hs.now l.period
        × Known first row.old 0 l.period }
    ensures { Cut first 0 l.period
        (lowered first (travel_at (decode file.now) arc) (entries hs.now) l.period
        row.old) row.old row.new result }
{
    let from = usize::from(starts[arc]);
    let count = read::count(file, l, arc);
    lower_points(first, file, l, from, count, hs, row)
}
