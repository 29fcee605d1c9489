// A walk over the entries of a run in their order, without a division, by the byte at which the next one
// starts: each field of it is then one addition away. specs/Walk.antt says where it stands before entry i.
ghost use Rattle.std.specs.Prelude.{◌≡◌, ◌+◌, ◌*◌, ◌/◌, ◌^◌, ◌≤◌, ◌<◌, length};
ghost use Rattle.file_fields.specs.Block.{block_size, entries_size};
ghost use Rattle.file_fields.specs.Fields;
ghost use Rattle.file_blocks.specs.Walk.{walk_at, stepped};

use crate::kind::Kind;
use file_fields::BLOCK;
use file_fields::fields::{le16, le32};

// The byte at which the entry starts, and how many entries its block has from it on.
#[derive(Clone, Copy)]
pub struct Walk {
    pub at: usize,
    pub left: usize,
}

impl Walk {
    // Before entry i of a run from block `from` on.
    pub fn new(from: usize, kind: Kind, i: usize) -> Walk
        requires { (0 < kind.per) × (kind.size * kind.per ≤ entries_size) × (from + i / kind.per < 2 ^ 54) }
        ensures { result ≡ walk_at from kind.per kind.size i }
    {
        Walk {
            at: kind.offset(from, i),
            left: kind.per - i % kind.per,
        }
    }

    // Before the next entry. The kind comes with each call, so that its numbers are constant there.
    pub fn next(self, kind: Kind) -> Walk
        requires { (0 < kind.per) × (kind.size * kind.per ≤ entries_size) × (self.at + block_size < 2 ^ 64) }
        ensures { result ≡ stepped kind.per kind.size self }
    {
        if 1 < self.left {
            return Walk {
                at: self.at + kind.size,
                left: self.left - 1,
            };
        }
        Walk {
            at: self.at + kind.size + (BLOCK - kind.size * kind.per),
            left: kind.per,
        }
    }

    // The 16 bits at byte `at` of the entry.
    pub fn field16(self, file: &[u8], at: usize) -> usize
        requires { self.at + at + 2 ≤ length file.now }
        ensures { (result ≡ Fields.le16 file.now (self.at + at)) × (result < 65536) }
    {
        usize::from(le16(file, self.at + at))
    }

    // The 32 bits there.
    pub fn field32(self, file: &[u8], at: usize) -> u32
        requires { self.at + at + 4 ≤ length file.now }
        ensures { result ≡ Fields.le32 file.now (self.at + at) }
    {
        le32(file, self.at + at)
    }
}
