// What the lines of a road file so far come to: specs/Reading.antt.
ghost use Rattle.std.specs.Prelude.{◌≡◌, ◌+◌, ◌^◌, ◌<◌};
ghost use Rattle.dimacs_reading.specs.Reading as readings;
ghost use Rattle.dimacs_reading.specs.Reading.{outside, misfit, noted};
ghost use Rattle.dimacs_reading.specs.Reading.{passed_by, sized_by, arc_by, stepped};

use dimacs_line::line::{Arc, Shape, Sizes};
use network::limits::{MOST_ARCS, MOST_NODES, MOST_PERIOD};

const NODES: u32 = MOST_NODES as u32;

const ARCS: u32 = MOST_ARCS as u32;

const PERIOD: u32 = MOST_PERIOD as u32;

// How many lines have been read, and whether the last of them is refused as 35; the sizes, once they have
// been read; how many arcs; and the number of the first line that is to be refused as 36.
#[derive(Clone, Copy)]
pub struct Reading {
    pub lines: usize,
    pub stopped: bool,
    pub sizes: Option<Sizes>,
    pub seen: u32,
    pub wrong: Option<usize>,
}

// Before the first line.
pub fn begun() -> Reading
    ensures { result ≡ readings.begun }
{
    Reading {
        lines: 0,
        stopped: false,
        sizes: None,
        seen: 0,
        wrong: None,
    }
}

// Are the sizes outside the limits?
#[tactic(auto, unfolding(crate::specs::Reading::outside))]
fn is_outside(k: Sizes) -> bool
    ensures { result ≡ outside k }
{
    k.nodes == 0 || NODES < k.nodes || ARCS < k.arcs
}

// Has the arc equal ends, an end that is none of the nodes, or a weight that is no travel?
#[tactic(auto, unfolding(crate::specs::Reading::misfit))]
fn is_misfit(nodes: u32, a: Arc) -> bool
    ensures { result ≡ misfit nodes a }
{
    a.tail == a.head
        || a.tail == 0
        || nodes < a.tail
        || a.head == 0
        || nodes < a.head
        || a.weight == 0
        || PERIOD < a.weight
}

// The first line that is wrong: the one that was, or this line.
#[tactic(auto, unfolding(crate::specs::Reading::noted))]
fn note(wrong: Option<usize>, line: usize, fault: bool) -> Option<usize>
    ensures { result ≡ noted wrong line fault }
{
    wrong.or(fault.then_some(line))
}

// A line that changes nothing: a remark, or one that stops the reading.
fn after_line(r: Reading, stopped: bool) -> Reading
    requires { r.lines + 1 < 2 ^ 64 }
    ensures { result ≡ passed_by r stopped }
{
    Reading {
        lines: r.lines + 1,
        stopped,
        ..r
    }
}

// The sizes: they come once.
#[tactic(auto, unfolding(crate::specs::Reading::sized_by))]
fn after_sizes(r: Reading, k: Sizes) -> Reading
    requires { r.lines + 1 < 2 ^ 64 }
    ensures { result ≡ sized_by r k }
{
    if r.sizes.is_some() {
        return after_line(r, true);
    }
    let line = r.lines + 1;
    Reading {
        lines: line,
        stopped: false,
        sizes: Some(k),
        seen: 0,
        wrong: note(r.wrong, line, is_outside(k)),
    }
}

// An arc: there are as many as the sizes say, and none before them.
#[tactic(auto, unfolding(crate::specs::Reading::arc_by, crate::specs::Reading::arc_within))]
fn after_arc(r: Reading, a: Arc) -> Reading
    requires { r.lines + 1 < 2 ^ 64 }
    ensures { result ≡ arc_by r a }
{
    let Some(sizes) = r.sizes else {
        return after_line(r, true);
    };
    if sizes.arcs <= r.seen {
        return after_line(r, true);
    }
    let line = r.lines + 1;
    Reading {
        lines: line,
        stopped: false,
        seen: r.seen + 1,
        wrong: note(r.wrong, line, is_misfit(sizes.nodes, a)),
        ..r
    }
}

// One more line.
#[tactic(auto, unfolding(crate::specs::Reading::stepped))]
pub fn step(r: Reading, shape: Shape) -> Reading
    requires { r.lines + 1 < 2 ^ 64 }
    ensures { result ≡ stepped r shape }
{
    match shape {
        Shape::Remark => after_line(r, false),
        Shape::Sizes(k) => after_sizes(r, k),
        Shape::Arc(a) => after_arc(r, a),
        Shape::Other => after_line(r, true),
    }
}
