// A block's form, and the first block of a run that has not the form it is to have: specs/Form.antt.
ghost use Rattle.std.specs.Prelude.{◌≡◌, ◌+◌, ◌*◌, ◌≤◌, ◌<◌, ◌^◌, length};
ghost use Rattle.theory_loops.specs.First.{first};
ghost use Rattle.file_fields.specs.Block.{block_size, head_size, entries_size, summed_size};
ghost use Rattle.file_blocks.specs.Place;
ghost use Rattle.file_blocks.specs.Place.{RunInFile};
ghost use Rattle.file_forms.specs.Form.{bad_length, zeros, formed, unformed};

use file_blocks::kind::Kind;
use file_blocks::place::Run;
use file_fields::fields::{le16, le32};
use file_fields::{BLOCK, HEAD, SUMMED};

// Is this the length of no file of at most `most` bytes: no block, a part of a block, or more?
pub fn is_bad_length(long: usize, most: usize) -> bool
    ensures { result ≡ bad_length most long }
{
    if long == 0 {
        return true;
    }
    if long % BLOCK != 0 {
        return true;
    }
    most < long
}

// Are all bytes from a up to e zero?
pub fn is_zero(file: &[u8], a: usize, e: usize) -> bool
    requires { (a ≤ e) × (e ≤ length file.now) }
    ensures { result ≡ zeros file.now a e }
{
    file[a..e].iter().all(|&byte| byte == 0)
}

// Has block b this kind and number of entries, its own number, and zeros after its first `used` bytes?
pub fn is_formed(file: &[u8], b: usize, kind: u8, entries: usize, used: usize) -> bool
    requires { (block_size * b + block_size ≤ length file.now) × (used ≤ summed_size) }
    ensures { result ≡ formed file.now b kind entries used }
{
    let at = BLOCK * b;
    file[at] == kind
        && (file[at + 1] == 0
            && (le16(file, at + 2) as usize == entries
                && (le32(file, at + 4) as usize == b && is_zero(file, at + used, at + SUMMED))))
}

// Is block b one of so many entries of a kind?
pub fn is_block_of(file: &[u8], b: usize, kind: Kind, entries: usize) -> bool
    requires { (block_size * b + block_size ≤ length file.now) × (kind.size * entries ≤ entries_size) }
    ensures { result ≡ formed file.now b kind.number entries (head_size + kind.size * entries) }
{
    is_formed(file, b, kind.number, entries, HEAD + kind.size * entries)
}

// Is block j of a run out of its form?
pub fn is_unformed(file: &[u8], run: Run, j: usize) -> bool
    requires run_in_file { RunInFile run.from run.kind.per run.kind.size run.count file.now }
    requires j_bound { j < Place.blocks run.kind.per run.count }
    ensures { result
        ≡ unformed file.now run.from run.kind.number run.kind.per run.kind.size run.count j }
{
    !is_block_of(file, run.from + j, run.kind, run.entries_in(j))
}

// The number of the first block of a run that is out of its form, or of the block after the run.
pub fn first_unformed(file: &[u8], run: Run) -> usize
    requires run_in_file { RunInFile run.from run.kind.per run.kind.size run.count file.now }
    requires per_bound { run.count + run.kind.per < 2 ^ 64 }
    ensures { result
        ≡ run.from + first (Place.blocks run.kind.per run.count)
        (unformed file.now run.from run.kind.number run.kind.per run.kind.size run.count) }
{
    let m = run.blocks();
    for j in 0..m {
        if is_unformed(file, run, j) {
            return run.from + j;
        }
    }
    run.from + m
}
