// theory_travel: the straight line in whole ticks, for the travel of an arc and for a profile alike. It owns
// the line between two points, rounded up (specs/Line.antt, all that rounding touches), the binary search
// for the segment of a tick (specs/Search.antt), and the value at a tick by points in general
// (specs/Points.antt), by a day's points (specs/Day.antt, specs/Pieces.antt) and by points in tables
// (specs/Table.antt), with the laws of values: least, most, FIFO over all days; and the points of a day that
// has a value at every tick (specs/Turns.antt). Those who read points from a file write the loops. It calls
// no other crate, and cites the shapes of loops from `theory_loops` alone. It knows no bytes, no files and no
// graph.
#![tactic(auto)]

ghost use Rattle.std.specs.Prelude.{◌≡◌, ◌≤◌, ◌<◌};
ghost use Rattle.theory_travel.specs.Line;

// The line from (a, v) to (b, w) at x.
pub fn line(x: u16, a: u16, v: u32, b: u16, w: u32) -> u32
    requires { (a ≤ x) × (x < b) }
    ensures { result ≡ Line.line x a v b w }
{
    ((u64::from(v) * u64::from(b - x) + u64::from(w) * u64::from(x - a) + u64::from(b - a - 1))
        / u64::from(b - a)) as u32
}
