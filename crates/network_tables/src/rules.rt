// The rules 7 to 10 and 37, on tables that are as long as the header says. The points of all arcs are first
// asked whether they keep rules 9 and 10 (steady.rt). Where they do not, one scan finds the places, as in a
// file (`network_scan`).
ghost use Rattle.std.specs.Prelude.{◌≡◌, ◌+◌, ◌≤◌, ◌<◌, length, get_or, MatchResult};
ghost use Rattle.theory_loops.specs.First.{first};
ghost use Rattle.theory_loops.specs.Total.{total};
ghost use Rattle.theory_travel.specs.Table.{entry_at};
ghost use Rattle.network.specs.FirstPoint.{Counted};
ghost use Rattle.network.specs.Limits.{most_period, most_arcs, most_points};
ghost use Rattle.network.specs.Rules.{judged_points, judged};
ghost use Rattle.network.specs.Tables.{tables_of, network_of};
ghost use Rattle.network_rules.specs.ScanArcs.{FirstBad};
ghost use Rattle.network_scan.specs.Scan.{Scanned};
ghost use Rattle.network_scan.specs.ScanAll.{ScannedAll};
ghost use Rattle.network_encode.specs.Packable.{Packable};
ghost use Rattle.network_tables.specs.Cut.{bad_cell_in, bad_hours_in, bad_arc_in, bare};
ghost use Rattle.network_tables.specs.Cut.{whole, Cut};

use crate::steady::is_steady;
use file_refusals::reason::Reason;
use file_refusals::{Refusal, refused};
use network::header::{Header, Layout};
use network::tables::LentTables;
use network_rules::rules::{bad_ends, bad_hours};
use network_scan::scan::{bad_point, late_at, late_in};

// Entry i of a table.
pub fn entry(table: &[u16], i: usize) -> usize
    requires { i < length table.now }
    ensures { (result ≡ get_or table.now i 0) × (result < 65536) }
{
    usize::from(table[i])
}

// Rule 7 at node v.
fn is_bad_cell(cells: usize, cellof: &[u16], v: usize) -> bool
    requires { v < length cellof.now }
    ensures { result ≡ bad_cell_in cells cellof.now v }
{
    cells <= entry(cellof, v)
}

// The first node that breaks rule 7, or the count of nodes.
fn first_bad_cell(cells: usize, cellof: &[u16]) -> usize
    ensures { result ≡ first (length cellof.now) (bad_cell_in cells cellof.now) }
{
    let bad = (0..cellof.len()).position(|v| is_bad_cell(cells, cellof, v));
    bad.unwrap_or(cellof.len())
}

// Rule 37 at node v.
fn is_bad_hours(hours: usize, period: usize, opens: &[u16], closes: &[u16], v: usize) -> bool
    requires { (v < length opens.now) × (v < length closes.now) }
    ensures { result ≡ bad_hours_in hours period opens.now closes.now v }
{
    bad_hours(hours, period, entry(opens, v), entry(closes, v))
}

// The first node that breaks rule 37, or the count of nodes.
fn first_bad_hours(hours: usize, period: usize, opens: &[u16], closes: &[u16]) -> usize
    requires { length closes.now ≡ length opens.now }
    ensures { result ≡ first (length opens.now)
        (bad_hours_in hours period opens.now closes.now) }
{
    let bad = (0..opens.len()).position(|v| is_bad_hours(hours, period, opens, closes, v));
    bad.unwrap_or(opens.len())
}

// Rule 8 at arc a.
fn is_bad_arc(
    nodes: usize,
    period: usize,
    tails: &[u16],
    heads: &[u16],
    counts: &[u16],
    a: usize,
) -> bool
    requires { (a < length tails.now) × (a < length heads.now) × (a < length counts.now) }
    ensures { result
        ≡ bad_arc_in nodes period tails.now heads.now counts.now a }
{
    bad_ends(
        nodes,
        period,
        entry(tails, a),
        entry(heads, a),
        entry(counts, a),
    )
}

// The points of all arcs, added up, or the first arc that breaks rule 8.
fn scan_arcs(
    nodes: usize,
    period: usize,
    tails: &[u16],
    heads: &[u16],
    counts: &[u16],
) -> Result<usize, usize>
    requires heads_len { (length heads.now ≡ length tails.now) × (length counts.now ≡ length tails.now) }
    requires tails_len_bound { length tails.now ≤ most_arcs }
    ensures { MatchResult result
        (λ sum. (length tails.now
        ≡ first (length tails.now) (bad_arc_in nodes period tails.now heads.now counts.now))
        × (sum ≡ total (length tails.now) (λ a. get_or counts.now a 0)))
        (FirstBad (length tails.now) (bad_arc_in nodes period tails.now heads.now counts.now)) }
{
    let mut sum = 0;
    for a in 0..tails.len() {
        if is_bad_arc(nodes, period, tails, heads, counts, a) {
            return Err(a);
        }
        sum += entry(counts, a);
    }
    Ok(sum)
}

// The points of one arc, which stand from point `from` on: the first that breaks rule 10, or how many there
// are, and as an error the first that breaks rule 9.
fn find_faults(
    period: usize,
    from: usize,
    count: usize,
    ticks: &[u16],
    travels: &[u16],
) -> Result<usize, usize>
    requires count_in_bounds { (from + count ≤ length ticks.now) × (from + count ≤ length travels.now) }
    requires count_nonzero { (0 < count) × (period ≤ most_period) }
    ensures { Scanned period (entry_at ticks.now from) (entry_at travels.now from)
        count result }
{
    let mut tick = 0;
    let mut end = 0;
    let mut late = 0;
    for i in 0..count {
        let t = entry(ticks, from + i);
        let v = entry(travels, from + i);
        if bad_point(period, i, tick, t, v) {
            return Err(i);
        }
        late = late_at(late, i, end, t + v);
        tick = t;
        end = t + v;
    }
    let v = entry(travels, from);
    Ok(late_at(late, count, end, period + v))
}

// The points of all arcs: the first that breaks rule 10, or how many there are, and as an error the first
// that breaks rule 9.
fn scan_points(
    period: usize,
    counts: &[u16],
    ticks: &[u16],
    travels: &[u16],
) -> Result<usize, usize>
    requires counted { Counted (bare period counts.now ticks.now travels.now) }
    requires travels_len { (length travels.now ≡ length ticks.now) × (length ticks.now ≤ most_points) }
    requires period_le_most_period { period ≤ most_period }
    ensures { ScannedAll
        (bare period counts.now ticks.now travels.now) result }
{
    let points = ticks.len();
    let mut from = 0;
    let mut late = points;
    for a in 0..counts.len() {
        let count = entry(counts, a);
        let at = match find_faults(period, from, count, ticks, travels) {
            Ok(at) => at,
            Err(bad) => return Err(from + bad),
        };
        late = late_in(late, points, from, count, at);
        from += count;
    }
    Ok(late)
}

// Rules 9 and 10.
fn judge_points(
    period: usize,
    counts: &[u16],
    ticks: &[u16],
    travels: &[u16],
) -> Result<(), Refusal>
    requires counted { Counted (bare period counts.now ticks.now travels.now) }
    requires period_nonzero { (0 < period) × (period ≤ most_period) }
    requires travels_len { (length travels.now ≡ length ticks.now) × (length ticks.now ≤ most_points) }
    ensures { result ≡ judged_points
        (bare period counts.now ticks.now travels.now) }
{
    if is_steady(period, counts, ticks, travels) {
        return Ok(());
    }
    let late = match scan_points(period, counts, ticks, travels) {
        Ok(late) => late,
        Err(bad) => return refused(Reason::NetworkPoint, bad as u32),
    };
    if late < ticks.len() {
        return refused(Reason::NetworkFifo, late as u32);
    }
    Ok(())
}

// The first of the rules 7, 37, 8, 9 and 10 that the network of these tables breaks, and its lowest place.
fn judge(h: Header, l: Layout, tables: &LentTables<'_>) -> Result<(), Refusal>
    requires { Cut h l (tables_of tables.now) }
    ensures { result ≡ judged (whole h (tables_of tables.now)) }
{
    let v = first_bad_cell(l.cells, tables.cells);
    if v < l.nodes {
        return refused(Reason::NetworkCell, v as u32);
    }
    let u = first_bad_hours(l.hours, l.period, tables.opens, tables.closes);
    if u < l.nodes {
        return refused(Reason::NetworkHours, u as u32);
    }
    let sum = match scan_arcs(l.nodes, l.period, tables.tails, tables.heads, tables.counts) {
        Ok(sum) => sum,
        Err(a) => return refused(Reason::NetworkRoad, a as u32),
    };
    if sum != l.points {
        return refused(Reason::NetworkRoad, l.arcs as u32);
    }
    judge_points(l.period, tables.counts, tables.ticks, tables.travels)
}

// The same of tables that may be longer than their counts.
pub fn judge_tables(h: Header, l: Layout, tables: &LentTables<'_>) -> Result<(), Refusal>
    requires { Packable h l (tables_of tables.now) }
    ensures { result ≡ judged (network_of h (tables_of tables.now)) }
{
    let cut = LentTables {
        cells: &tables.cells[..l.nodes],
        opens: &tables.opens[..l.nodes],
        closes: &tables.closes[..l.nodes],
        tails: &tables.tails[..l.arcs],
        heads: &tables.heads[..l.arcs],
        counts: &tables.counts[..l.arcs],
        ticks: &tables.ticks[..l.points],
        travels: &tables.travels[..l.points],
    };
    judge(h, l, &cut)
}
