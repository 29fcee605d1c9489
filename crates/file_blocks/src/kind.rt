// The kinds of entries, with what each takes of a block: specs/Kind.antt has the same by name.
ghost use Rattle.std.specs.Prelude.{◌≡◌, ◌+◌, ◌*◌, ◌/◌, ◌≤◌, ◌<◌, ◌^◌};
ghost use Rattle.file_fields.specs.Block.{entries_size};
ghost use Rattle.file_blocks.specs.Place;

use file_fields::{BLOCK, HEAD};

// A kind's number, the bytes of an entry, and the entries of a full block.
#[derive(Clone, Copy)]
pub struct Kind {
    pub number: u8,
    pub size: usize,
    pub per: usize,
}

// The header of a network.
pub const NETWORK: Kind = Kind {
    number: 1,
    size: 17,
    per: 1,
};

// The cell of a node.
pub const CELL: Kind = Kind {
    number: 2,
    size: 2,
    per: 250,
};

// An arc's tail, head and count of points.
pub const ARC: Kind = Kind {
    number: 3,
    size: 6,
    per: 83,
};

// A point's tick and travel.
pub const POINT: Kind = Kind {
    number: 4,
    size: 4,
    per: 125,
};

// The header of a plan.
pub const PLAN: Kind = Kind {
    number: 5,
    size: 20,
    per: 1,
};

// The flag word of an arc.
pub const FLAG: Kind = Kind {
    number: 6,
    size: 8,
    per: 62,
};

// A profile's count of points.
pub const COUNT: Kind = Kind {
    number: 7,
    size: 2,
    per: 250,
};

// A profile's point: tick and travel.
pub const PROFILE_POINT: Kind = Kind {
    number: 8,
    size: 6,
    per: 83,
};

// A node's cell, and the ticks at which it opens and closes.
pub const HOURS: Kind = Kind {
    number: 9,
    size: 6,
    per: 83,
};

impl Kind {
    // The blocks that n entries take.
    pub fn blocks(self, n: usize) -> usize
        requires { (0 < self.per) × (n + self.per < 2 ^ 64) }
        ensures { result ≡ Place.blocks self.per n }
    {
        (n + (self.per - 1)) / self.per
    }

    // The entries in block j of a run of n.
    pub fn entries_in(self, n: usize, j: usize) -> usize
        requires { self.per * j ≤ n }
        ensures { result ≡ Place.entries_in self.per n j }
    {
        self.per.min(n - self.per * j)
    }

    // The byte at which entry i of a run from block `from` on starts. Entries are counted on through the
    // blocks before it, each of which has some bytes more than entries: that takes one division, and no
    // remainder.
    pub fn offset(self, from: usize, i: usize) -> usize
        requires { (0 < self.per) × (self.size * self.per ≤ entries_size) × (from + i / self.per < 2 ^ 54) }
        ensures { result ≡ Place.offset from self.per self.size i }
    {
        let more = BLOCK - self.size * self.per;
        BLOCK * from + HEAD + self.size * i + more * (i / self.per)
    }
}
