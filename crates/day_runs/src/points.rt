// A day by its points, whatever file they are read from: its runs, and its least and greatest point. Each
// point is read once, in its order, so that the runs take as many finds as there are points.
ghost use Rattle.std.specs.Prelude.{◌≡◌, ℕ, ◌+◌, ◌^◌, ◌≤◌, ◌<◌};
ghost use Rattle.theory_travel.specs.Day.{Day, day_value};
ghost use Rattle.day_slopes.specs.Runs.{Runs};
ghost use Rattle.day_runs.specs.Filling.{Space};
ghost use Rattle.day_runs.specs.Bounds.{Least, Most};
ghost use Rattle.day_runs.specs.Reading.{Passed};

use crate::{extend, finish};
use day_slopes::slopes::Piece;

// A reader that stands before a point.
pub trait Points: Drop {
    // The tick and the value of the k-th point from here on, and how many there are.
    ghost ticks: { Self → ℕ → ℕ };

    ghost values: { Self → ℕ → ℕ };

    ghost left: { Self → ℕ };

    fn tick(&self) -> usize
        requires { 0 < left self.now }
        ensures { result ≡ ticks self.now 0 };

    fn value(&self) -> u32
        requires { 0 < left self.now }
        ensures { result ≡ values self.now 0 };

    // On to the next point.
    fn step(&mut self)
        requires { 1 < left self.old }
        ensures { Passed 1 (ticks self.old) (values self.old) (left self.old) (ticks self.new)
            (values self.new) (left self.new) };
}

// The runs of the day by the next `count` points. Answers their number.
pub fn fill_day<P: Points>(
    mut points: P,
    count: usize,
    period: usize,
    starts: &mut [u16],
    values: &mut [u32],
    finds: &mut u64,
) -> usize
    requires day { Day (P.ticks points) count period × (count ≤ P.left points) }
    requires space { Space starts.old values.old period × (finds.old + count < 2 ^ 64) }
    ensures { Runs starts.new values.new result period
        (day_value (P.ticks points) (P.values points) count period)
        × (finds.new ≡ finds.old + count) }
{
    let last = count - 1;
    let begin = points.value();
    starts[0] = 0;
    let mut n = 0;
    let mut a = 0;
    let mut v = begin;
    for k in 0..last {
        points.step();
        let b = points.tick();
        let w = points.value();
        n = extend(starts, values, n, Piece { a, v, b, w }, finds);
        a = b;
        v = w;
    }
    let end = Piece {
        a,
        v,
        b: period,
        w: begin,
    };
    finish(starts, values, n, end, finds)
}

// The least value of the next `count` points.
pub fn least_point<P: Points>(mut points: P, count: usize) -> u32
    requires { (0 < count) × (count ≤ P.left points) }
    ensures { Least (P.values points) count result }
{
    let last = count - 1;
    let mut least = points.value();
    for k in 0..last {
        points.step();
        least = least.min(points.value());
    }
    least
}

// The greatest.
pub fn greatest_point<P: Points>(mut points: P, count: usize) -> u32
    requires { (0 < count) × (count ≤ P.left points) }
    ensures { Most (P.values points) count result }
{
    let last = count - 1;
    let mut greatest = points.value();
    for k in 0..last {
        points.step();
        greatest = greatest.max(points.value());
    }
    greatest
}
