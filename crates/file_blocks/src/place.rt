// A run of entries of one kind in a file: where they stand, a field of one of them, and a table filled from
// one field of all of them. specs/Place.antt, over the run's numbers.
ghost use Rattle.std.specs.Prelude.{◌≡◌, ◌+◌, ◌*◌, ◌/◌, ◌≤◌, ◌<◌, ◌^◌, length};
ghost use Rattle.theory_loops.specs.Fill.{Filled};
ghost use Rattle.file_fields.specs.Block.{entries_size};
ghost use Rattle.file_blocks.specs.Place;
ghost use Rattle.file_blocks.specs.Place.{RunInFile, EntryInFile};
ghost use Rattle.file_blocks.specs.Table.{entry16, part16};

use crate::kind::Kind;
use file_fields::fields::le16;
use file_fields::{BLOCK, HEAD};

// The first block of the run, the kind of its entries, and how many there are.
#[derive(Clone, Copy)]
pub struct Run {
    pub from: usize,
    pub kind: Kind,
    pub count: usize,
}

// The m entries of `out` from `first` on become the 16-bit fields at byte `at` of the m entries that start at
// byte `base`.
fn decode_part16(
    file: &[u8],
    base: usize,
    size: usize,
    at: usize,
    m: usize,
    out: &mut [u16],
    first: usize,
)
    requires { (at + 2 ≤ size) × (base + size * m ≤ length file.now) × (first + m ≤ length out.old) }
    ensures { Filled first (first + m) (part16 file.now base size at first)
        out.old
        out.new }
{
    for e in 0..m {
        out[first + e] = le16(file, base + size * e + at);
    }
}

impl Run {
    // The blocks that it takes.
    pub fn blocks(self) -> usize
        requires { (0 < self.kind.per) × (self.count + self.kind.per < 2 ^ 64) }
        ensures { result ≡ Place.blocks self.kind.per self.count }
    {
        self.kind.blocks(self.count)
    }

    // The entries in its block j.
    pub fn entries_in(self, j: usize) -> usize
        requires { self.kind.per * j ≤ self.count }
        ensures { result ≡ Place.entries_in self.kind.per self.count j }
    {
        self.kind.entries_in(self.count, j)
    }

    // The byte at which entry i starts.
    pub fn offset(self, i: usize) -> usize
        requires { (0 < self.kind.per) × (self.kind.size * self.kind.per ≤ entries_size)
            × (self.from + i / self.kind.per < 2 ^ 54) }
        ensures { result ≡ Place.offset self.from self.kind.per self.kind.size i }
    {
        self.kind.offset(self.from, i)
    }

    // The 16-bit field at byte `at` of entry i.
    pub fn field16(self, file: &[u8], at: usize, i: usize) -> usize
        requires entry_in_file { EntryInFile self.from self.kind.per self.kind.size i file.now }
        requires at_bound { at + 2 ≤ self.kind.size }
        ensures { (result ≡ entry16 file.now self.from self.kind.per self.kind.size at i)
            × (result < 65536) }
    {
        usize::from(le16(file, self.offset(i) + at))
    }

    // The first entries of `out` become the 16-bit fields at byte `at` of its entries.
    pub fn decode16(self, file: &[u8], at: usize, out: &mut [u16])
        requires run_in_file { RunInFile self.from self.kind.per self.kind.size self.count file.now }
        requires at_bound { (at + 2 ≤ self.kind.size) × (self.count ≤ length out.old) }
        ensures { Filled 0 self.count (entry16 file.now self.from self.kind.per self.kind.size at)
            out.old
            out.new }
    {
        for j in 0..self.blocks() {
            let m = self.entries_in(j);
            let base = BLOCK * (self.from + j) + HEAD;
            decode_part16(file, base, self.kind.size, at, m, out, self.kind.per * j);
        }
    }
}
