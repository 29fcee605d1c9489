// The arcs of a text, noted in tables as its lines are read: an arc's ends lowered by one, since the nodes of
// a network's file are numbered from 0 on, and its weight. What does not fit an entry's 16 bits is no part of
// an accepted text.
ghost use Rattle.std.specs.Prelude.{◌≡◌};
ghost use Rattle.dimacs_text.specs.Noting.{roads_with, roads_after};
ghost use Rattle.dimacs_text.specs.Noting as notes;

use crate::roads::Roads;
use dimacs_line::line::{Arc, Shape};
use network::limits::MOST_ARCS;

// An end, lowered by one.
fn lowered(end: u32) -> u16
    ensures { result ≡ notes.lowered end }
{
    ((u64::from(end) + 65535) % 65536) as u16
}

// A weight.
fn shortened(weight: u32) -> u16
    ensures { result ≡ notes.shortened weight }
{
    (weight % 65536) as u16
}

impl Roads {
    // Notes an arc as arc i, if there is such an entry.
    fn note_arc(&mut self, i: usize, a: Arc)
        ensures { self.new ≡ roads_with a i self.old }
    {
        if MOST_ARCS <= i {
            return;
        }
        self.tails[i] = lowered(a.tail);
        self.heads[i] = lowered(a.head);
        self.travels[i] = shortened(a.weight);
    }

    // Notes the arc of a line of this shape as arc i, if it is one.
    pub fn note_line(&mut self, i: usize, shape: Shape)
        ensures { self.new ≡ roads_after shape i self.old }
    {
        if let Shape::Arc(a) = shape {
            self.note_arc(i, a);
        }
    }
}
