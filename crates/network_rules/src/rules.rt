// The rules 7 to 10 and 37, on a file that is laid out as its header says. The points are first asked whether
// they keep rules 9 and 10 (`network_steady`). Where they do not, one scan finds the places (`network_scan`).
ghost use Rattle.std.specs.Prelude.{◌≡◌, ◌+◌, ◌*◌, ◌≤◌, ◌<◌, MatchResult};
ghost use Rattle.theory_loops.specs.First.{first};
ghost use Rattle.file_blocks.specs.Kind.{arc_per};
ghost use Rattle.network.specs.Decode.{decode, Laid};
ghost use Rattle.network.specs.Rules.{bad_cell, part_of_day, bad_hours, bad_hours_of, bad_ends, bad_arc};
ghost use Rattle.network.specs.Rules.{judged_points, judged_arcs, judged};
ghost use Rattle.network.specs.FirstPoint.{Counted};
ghost use Rattle.network_rules.specs.ScanArcs.{ArcsPassed, FirstBad};

use file_blocks::kind::ARC;
use file_refusals::reason::Reason;
use file_refusals::{Refusal, refused};
use network::arcs::entry_in;
use network::header::Layout;
use network::read;
use network_scan::scan::scan_points;
use network_steady::steady::is_steady;

// Rule 7 at node v.
fn is_bad_cell(file: &[u8], l: Layout, v: usize) -> bool
    requires laid { Laid file.now l }
    requires v_lt_nodes { v < l.nodes }
    ensures { result ≡ bad_cell (decode file.now) v }
{
    l.cells <= read::cell(file, l, v)
}

// The first node that breaks rule 7, or the count of nodes.
fn first_bad_cell(file: &[u8], l: Layout) -> usize
    requires { Laid file.now l }
    ensures { result ≡ first l.nodes (bad_cell (decode file.now)) }
{
    let bad = (0..l.nodes).position(|v| is_bad_cell(file, l, v));
    bad.unwrap_or(l.nodes)
}

// Where no hours are held: is a node that opens and closes at these ticks not open all day?
fn is_part_of_day(hours: usize, period: usize, opens: usize, closes: usize) -> bool
    ensures { result ≡ part_of_day hours period opens closes }
{
    if hours != 0 {
        return false;
    }
    if opens != 0 {
        return true;
    }
    closes != period
}

// Rule 37 for a node that opens and closes at these ticks.
pub fn bad_hours(hours: usize, period: usize, opens: usize, closes: usize) -> bool
    ensures { result ≡ bad_hours hours period opens closes }
{
    if closes <= opens {
        return true;
    }
    if period < closes {
        return true;
    }
    is_part_of_day(hours, period, opens, closes)
}

// Rule 37 at node v.
fn is_bad_hours(file: &[u8], l: Layout, v: usize) -> bool
    requires laid { Laid file.now l }
    requires v_lt_nodes { v < l.nodes }
    ensures { result ≡ bad_hours_of (decode file.now) v }
{
    let opens = read::opens_at(file, l, v);
    let closes = read::closes_at(file, l, v);
    bad_hours(l.hours, l.period, opens, closes)
}

// The first node of a file that breaks rule 37, or the count of nodes. Without hours there is none.
fn first_bad_hours(file: &[u8], l: Layout) -> usize
    requires { Laid file.now l }
    ensures { result ≡ first l.nodes (bad_hours_of (decode file.now)) }
{
    if l.hours == 0 {
        return l.nodes;
    }
    let bad = (0..l.nodes).position(|v| is_bad_hours(file, l, v));
    bad.unwrap_or(l.nodes)
}

// Rule 8 for an arc of these ends and this count of points.
pub fn bad_ends(nodes: usize, period: usize, tail: usize, head: usize, count: usize) -> bool
    ensures { result ≡ bad_ends nodes period tail head count }
{
    if nodes <= tail {
        return true;
    }
    if nodes <= head {
        return true;
    }
    if tail == head {
        return true;
    }
    if count < 1 {
        return true;
    }
    period < count
}

// The points of all arcs up to the m-th of block j, or the first of them that breaks rule 8. The arcs before
// the block keep it and have `before` points.
fn scan_block(file: &[u8], l: Layout, j: usize, m: usize, before: usize) -> Result<usize, usize>
    requires laid { Laid file.now l }
    requires m_le_arc_per { (m ≤ arc_per) × (arc_per * j + m ≤ l.arcs) }
    requires arcs_passed { ArcsPassed (decode file.now) (arc_per * j) before }
    ensures { MatchResult result (ArcsPassed (decode file.now) (arc_per * j + m))
        (FirstBad (arc_per * j + m) (bad_arc (decode file.now))) }
{
    let first = ARC.per * j;
    let mut sum = before;
    for e in 0..m {
        let arc = entry_in(file, l, j, e);
        if bad_ends(l.nodes, l.period, arc.tail, arc.head, arc.count) {
            return Err(first + e);
        }
        sum += arc.count;
    }
    Ok(sum)
}

// The points of all arcs, added up, or the first arc that breaks rule 8.
fn scan_arcs(file: &[u8], l: Layout) -> Result<usize, usize>
    requires { Laid file.now l }
    ensures { MatchResult result (ArcsPassed (decode file.now) l.arcs)
        (FirstBad l.arcs (bad_arc (decode file.now))) }
{
    let arcs = l.arcs;
    let mut sum = 0;
    for j in 0..ARC.blocks(arcs) {
        let m = ARC.entries_in(arcs, j);
        sum = scan_block(file, l, j, m, sum)?;
    }
    Ok(sum)
}

// Rules 9 and 10. Where they are kept, a test that finds no place says so sooner.
fn judge_points(file: &[u8], l: Layout) -> Result<(), Refusal>
    requires laid { Laid file.now l }
    requires counted { Counted (decode file.now) }
    ensures { result ≡ judged_points (decode file.now) }
{
    if is_steady(file, l) {
        return Ok(());
    }
    let late = match scan_points(file, l) {
        Ok(late) => late,
        Err(bad) => return refused(Reason::NetworkPoint, bad as u32),
    };
    if late < l.points {
        return refused(Reason::NetworkFifo, late as u32);
    }
    Ok(())
}

// Rules 8 to 10.
fn judge_arcs(file: &[u8], l: Layout) -> Result<(), Refusal>
    requires { Laid file.now l }
    ensures { result ≡ judged_arcs (decode file.now) }
{
    let sum = match scan_arcs(file, l) {
        Ok(sum) => sum,
        Err(a) => return refused(Reason::NetworkRoad, a as u32),
    };
    if sum != l.points {
        return refused(Reason::NetworkRoad, l.arcs as u32);
    }
    judge_points(file, l)
}

// The first of the rules 7, 37, 8, 9 and 10 that the network breaks, and its lowest place.
pub fn judge(file: &[u8], l: Layout) -> Result<(), Refusal>
    requires { Laid file.now l }
    ensures { result ≡ judged (decode file.now) }
{
    let v = first_bad_cell(file, l);
    if v < l.nodes {
        return refused(Reason::NetworkCell, v as u32);
    }
    let u = first_bad_hours(file, l);
    if u < l.nodes {
        return refused(Reason::NetworkHours, u as u32);
    }
    judge_arcs(file, l)
}
