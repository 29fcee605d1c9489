// Two tables filled in one pass from entries that are two fields of 16 bits side by side (specs/Pairs.antt).
// An entry is read as one number and then taken apart: so a processor takes several at once.
ghost use Rattle.std.specs.Prelude.{◌≡◌, ◌+◌, ◌*◌, ◌≤◌, ◌<◌, length};
ghost use Rattle.theory_loops.specs.Fill.{Filled};
ghost use Rattle.file_blocks.specs.Place.{RunInFile};
ghost use Rattle.file_blocks.specs.Table.{entry16, part16};
ghost use Rattle.file_blocks.specs.Pairs.{pair_size, PairAt};

use crate::place::Run;
use file_fields::fields::le32;
use file_fields::{BLOCK, HEAD};

// The bytes of an entry, and the numbers of a field.
const PAIR: usize = 4;

const FIELD: u32 = 65536;

// The entry at byte o as one number: its first field below its second. It is read as one, and not as the two
// fields, so that the compiler reads its four bytes at once before it sees that the fields are wanted apart.
fn pair_at(file: &[u8], o: usize) -> u32
    requires { o + pair_size ≤ length file.now }
    ensures { PairAt file.now o result }
{
    le32(file, o)
}

// The m entries of `lows` and of `highs` from `first` on become the first and the second fields of the m
// entries that start at byte `base`.
fn decode_part_pairs(
    file: &[u8],
    base: usize,
    m: usize,
    lows: &mut [u16],
    highs: &mut [u16],
    first: usize,
)
    requires { (base + pair_size * m ≤ length file.now) × (first + m ≤ length lows.old)
        × (first + m ≤ length highs.old) }
    ensures { Filled first (first + m) (part16 file.now base pair_size 0 first)
        lows.old lows.new
        × Filled first (first + m) (part16 file.now base pair_size 2 first)
        highs.old highs.new }
{
    for e in 0..m {
        let x = pair_at(file, base + PAIR * e);
        lows[first + e] = (x % FIELD) as u16;
        highs[first + e] = (x / FIELD) as u16;
    }
}

// The first entries of `lows` and of `highs` become the first and the second fields of a run's entries.
pub fn decode_pairs(file: &[u8], run: Run, lows: &mut [u16], highs: &mut [u16])
    requires run_in_file { RunInFile run.from run.kind.per pair_size run.count file.now }
    requires n_in_bounds { (run.count ≤ length lows.old) × (run.count ≤ length highs.old) }
    ensures { Filled 0 run.count (entry16 file.now run.from run.kind.per pair_size 0) lows.old
        lows.new
        × Filled 0 run.count (entry16 file.now run.from run.kind.per pair_size 2) highs.old
        highs.new }
{
    for j in 0..run.blocks() {
        let m = run.entries_in(j);
        let base = BLOCK * (run.from + j) + HEAD;
        decode_part_pairs(file, base, m, lows, highs, run.kind.per * j);
    }
}
