// A reader that carries the lent blocks and the number of the next one: specs/Read.antt. One is made for a
// file and stepped from block to block.
ghost use Rattle.std.specs.Prelude.{◌≡◌, ◌+◌, ◌/◌, ◌<◌, ◌^◌, length};
ghost use Rattle.theory_loops.specs.First.{first};
ghost use Rattle.file_fields.specs.Block.{block_size};
ghost use Rattle.file_forms.specs.Read.{good_at, bad};

use file_fields::BLOCK;
use file_fields::sum::is_good;

#[derive(Clone, Copy)]
pub struct Blocks<'a> {
    pub file: &'a [u8],
    pub at: usize,
}

// Whether the file has block b, and its check is right.
fn good_at(file: &[u8], b: usize) -> bool
    ensures { result ≡ good_at file.now b }
{
    b < file.len() / BLOCK && is_good(file, b)
}

impl<'a> Blocks<'a> {
    // A reader before the first block.
    pub fn new(file: &'a [u8]) -> Blocks<'a>
        ensures { (result.file ≡ file.entry) × (result.at ≡ 0) }
    {
        Blocks { file, at: 0 }
    }

    // Whether there is a next block, and its check is right.
    pub fn next_is_good(self) -> bool
        ensures { result ≡ good_at self.entry.file.now self.entry.at }
    {
        good_at(self.file, self.at)
    }

    // The same blocks, past the next one.
    pub fn past(self) -> Blocks<'a>
        requires { self.at + 1 < 2 ^ 64 }
        ensures { (result.file ≡ self.entry.file) × (result.at ≡ self.entry.at + 1) }
    {
        Blocks {
            file: self.file,
            at: self.at + 1,
        }
    }
}

// The first block whose check is wrong, or the number of blocks.
pub fn first_bad_sum(file: &[u8]) -> usize
    ensures { result ≡ first (length file.now / block_size) (bad file.now) }
{
    let mut blocks = Blocks::new(file);
    while blocks.next_is_good() {
        blocks = blocks.past();
    }
    blocks.at
}
