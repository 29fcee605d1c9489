// A line of the input, and the trip that it asks for.
ghost use Rattle.std.specs.Prelude.{◌≡◌};
ghost use Rattle.sheet_line.specs.Line as lines;

use text_spaced::spaced::{Scan, is_whole};

// The trip that a line asks for.
#[derive(Clone, Copy)]
pub struct Asking {
    pub from: u32,
    pub to: u32,
    pub leave: u32,
}

// How many numbers such a line has.
const NUMBERS: u32 = 3;

// What a line asks for, once it has ended: a trip, or nothing where it is of another shape.
#[tactic(auto, unfolding(crate::specs::Line::ended))]
pub fn ended(s: Option<Scan>) -> Option<Asking>
    ensures { result ≡ lines.ended s }
{
    let s = s?;
    if !is_whole(s, NUMBERS) {
        return None;
    }
    Some(Asking {
        from: s.first,
        to: s.second,
        leave: s.value,
    })
}
