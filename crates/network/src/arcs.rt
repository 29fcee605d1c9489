// The arcs of a network file by their blocks (specs/Arcs.antt): an entry is found by its block and its place
// there, so that a walk over the arcs divides nothing.
ghost use Rattle.std.specs.Prelude.{◌+◌, ◌*◌, ◌<◌};
ghost use Rattle.file_blocks.specs.Kind.{arc_per};
ghost use Rattle.network.specs.Decode.{decode, Laid};
ghost use Rattle.network.specs.Arcs.{EntryOf};

use crate::header::Layout;
use file_blocks::kind::ARC;
use file_fields::fields::le16;
use file_fields::{BLOCK, HEAD};

// An arc's entry.
#[derive(Clone, Copy)]
pub struct Entry {
    pub tail: usize,
    pub head: usize,
    pub count: usize,
}

// The entry at place e of block j of the arcs, both from 0.
pub fn entry_in(file: &[u8], l: Layout, j: usize, e: usize) -> Entry
    requires laid { Laid file.now l }
    requires e_lt_arc_per { (e < arc_per) × (arc_per * j + e < l.arcs) }
    ensures { EntryOf (decode file.now) (arc_per * j + e) result }
{
    let at = BLOCK * (l.arcblock + j) + HEAD + ARC.size * e;
    Entry {
        tail: le16(file, at) as usize,
        head: le16(file, at + 2) as usize,
        count: le16(file, at + 4) as usize,
    }
}
