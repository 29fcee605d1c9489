// day_runs: a day's values as runs of equal value, put after one another: at most one division for each piece
// of the line, none for a tick or a run. Run i holds the ticks from starts[i] up to starts[i + 1]. The last
// run stays open, so that a piece which begins with its value goes on with it, until `finish` ends the day.
// `extend` and `finish` count themselves, and nothing else that is public here divides.
//   points  a day by its points, whatever file they are read from
// It may call `day_slopes` for the runs of a line, and cites `theory_travel` for the line.
#![tactic(auto)]

pub mod points;

ghost use Rattle.std.specs.Prelude.{◌≡◌, ◌+◌, ◌^◌, ◌<◌};
ghost use Rattle.theory_travel.specs.Pieces.{line_at};
ghost use Rattle.day_slopes.specs.Held.{Added, Held, Room, Ending, Closed, Leading};

use day_slopes::slopes::{Piece, climb, falling, put, rising, sink};

// Runs of any line: at most ONE division. A flat one only goes on with the run that is open.
fn piece(starts: &mut [u16], values: &mut [u32], n: usize, p: Piece) -> usize
    requires { Room starts.old values.old n p.a p.b }
    ensures { Held starts.old values.old starts.new
        values.new n result p.a p.v p.b p.w (line_at p.a p.v p.b p.w) }
{
    if p.v == p.w {
        return n;
    }
    let ticks = (p.b - p.a) as u32;
    if p.v < p.w {
        if p.w - p.v < ticks {
            return rising(starts, values, n, p);
        }
        return climb(starts, values, n, p);
    }
    if p.v - p.w < ticks {
        return falling(starts, values, n, p);
    }
    sink(starts, values, n, p)
}

// One find more.
fn count_find(finds: &mut u64)
    requires { finds.old + 1 < 2 ^ 64 }
    ensures { finds.new ≡ finds.old + 1 }
{
    *finds += 1;
}

// The runs of a day up to a piece, n of them and an open one of the piece's first value, and those of the
// piece after them: one find, which counts itself. Answers the number of runs before the open one, which then
// has the piece's last value. Nearly all lines are flat or of one tick: these are put here, by two tests that
// stand in the callers' loops, and `piece` has the others.
pub fn extend(starts: &mut [u16], values: &mut [u32], n: usize, p: Piece, finds: &mut u64) -> usize
    requires room { Room starts.old values.old n p.a p.b }
    requires finds_bound { finds.old + 1 < 2 ^ 64 }
    ensures { Held starts.old values.old starts.new
        values.new n result p.a p.v p.b p.w (line_at p.a p.v p.b p.w) × (finds.new ≡ finds.old + 1) }
{
    count_find(finds);
    if p.v == p.w {
        return n;
    }
    if p.b == p.a + 1 {
        put(starts, values, n, p.b, p.v);
        return n + 1;
    }
    piece(starts, values, n, p)
}

// Ends the day at tick b with the run that is open, of value v, if it has a tick. Answers the number of runs.
fn close(starts: &mut [u16], values: &mut [u32], n: usize, b: usize, v: u32) -> usize
    requires { Ending starts.old values.old n b }
    ensures { Closed starts.old values.old starts.new
        values.new n result b v }
{
    if usize::from(starts[n]) < b {
        put(starts, values, n, b, v);
        return n + 1;
    }
    n
}

// The same as `extend` for the day's last line, with which the day ends. Answers the number of runs.
pub fn finish(starts: &mut [u16], values: &mut [u32], n: usize, p: Piece, finds: &mut u64) -> usize
    requires room { Room starts.old values.old n p.a p.b }
    requires leading { Leading starts.old values.old n p.a p.v p.b (line_at p.a p.v p.b p.w) }
    requires finds_bound { finds.old + 1 < 2 ^ 64 }
    ensures { Added starts.old values.old starts.new
        values.new n result p.a p.v p.b (line_at p.a p.v p.b p.w) × (finds.new ≡ finds.old + 1) }
{
    count_find(finds);
    let m = piece(starts, values, n, p);
    close(starts, values, m, p.b, p.w)
}
