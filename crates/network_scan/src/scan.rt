// The rules 9 and 10, point by point: the first that breaks rule 9, and the first that breaks rule 10, which
// is judged at each point while rule 9 is, and told where 9 holds everywhere.
ghost use Rattle.std.specs.Prelude.{◌≡◌, ◌+◌, ◌≤◌, ◌<◌};
ghost use Rattle.theory_travel.specs.Table.{entry_at};
ghost use Rattle.network.specs.Decode.{decode, Laid};
ghost use Rattle.network.specs.FirstPoint.{Counted};
ghost use Rattle.network_scan.specs.Scan.{misplaced, bad_point_by, late_at, Scanned};
ghost use Rattle.network_scan.specs.ScanAll.{ScannedAll, late_in};

use network::header::Layout;
use network::read;

// Is tick t of point i, after a point with tick p, out of its place?
fn is_misplaced(i: usize, p: usize, t: usize) -> bool
    ensures { result ≡ misplaced i p t }
{
    if i == 0 {
        return t != 0;
    }
    t <= p
}

// Rule 9 for point i of an arc, after a point with tick p.
pub fn bad_point(period: usize, i: usize, p: usize, t: usize, v: usize) -> bool
    ensures { result ≡ bad_point_by period i p t v }
{
    if is_misplaced(i, p, t) {
        return true;
    }
    if period <= t {
        return true;
    }
    if v < 1 {
        return true;
    }
    period < v
}

// The first late point of i points, by the first of the i - 1 before: the last of them ends at `end`, and the
// one after it at `next`.
pub fn late_at(late: usize, i: usize, end: usize, next: usize) -> usize
    ensures { result ≡ late_at late i end next }
{
    if i == 0 {
        return 0;
    }
    if late < i - 1 {
        return late;
    }
    if next < end {
        return i - 1;
    }
    i
}

// The points of one arc, which stand from point `from` on: the first that breaks rule 10, or how many there
// are, and as an error the first that breaks rule 9.
fn find_faults(file: &[u8], l: Layout, from: usize, count: usize) -> Result<usize, usize>
    requires laid { Laid file.now l }
    requires count_bound { (from + count ≤ l.points) × (0 < count) }
    ensures { Scanned l.period (entry_at (decode file.now).ticks from)
        (entry_at (decode file.now).travels from) count result }
{
    let mut tick = 0;
    let mut end = 0;
    let mut late = 0;
    for i in 0..count {
        let t = read::tick(file, l, from + i);
        let v = read::travel(file, l, from + i);
        if bad_point(l.period, i, tick, t, v) {
            return Err(i);
        }
        late = late_at(late, i, end, t + v);
        tick = t;
        end = t + v;
    }
    let v = read::travel(file, l, from);
    Ok(late_at(late, count, end, l.period + v))
}

// The first late point of one arc more: `count` points from `from` on, of which `at` is the first late one;
// `points` stands for none.
pub fn late_in(late: usize, points: usize, from: usize, count: usize, at: usize) -> usize
    requires { from + count ≤ points }
    ensures { result ≡ late_in late points from count at }
{
    if late < points {
        return late;
    }
    if at < count {
        return from + at;
    }
    points
}

// The points of all arcs: the first that breaks rule 10, or how many there are, and as an error the first
// that breaks rule 9.
pub fn scan_points(file: &[u8], l: Layout) -> Result<usize, usize>
    requires laid { Laid file.now l }
    requires counted { Counted (decode file.now) }
    ensures { ScannedAll (decode file.now) result }
{
    let arcs = l.arcs;
    let points = l.points;
    let mut from = 0;
    let mut late = points;
    for a in 0..arcs {
        let count = read::count(file, l, a);
        let at = match find_faults(file, l, from, count) {
            Ok(at) => at,
            Err(bad) => return Err(from + bad),
        };
        late = late_in(late, points, from, count, at);
        from += count;
    }
    Ok(late)
}
