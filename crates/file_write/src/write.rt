// A block's bytes written into a lent file: its head, zeros after its entries, and its check once all else
// stands. Each contract gives the list that is left; specs/Write.antt says of each which bytes that changes,
// and to what.
ghost use Rattle.std.specs.Prelude.{◌≡◌, ◌+◌, ◌*◌, ◌≤◌, ◌<◌, ◌^◌, length};
ghost use Rattle.theory_loops.specs.Fill.{Filled};
ghost use Rattle.file_fields.specs.Block.{block_size};
ghost use Rattle.file_write.specs.Write.{headed, sealed};

use file_fields::fields::{put16, put32};
use file_fields::sum::sums_of;
use file_fields::{BLOCK, SUMMED};

// Bytes 0 to 7 of block b: kind, zero, entries, the block's number.
pub fn write_head(out: &mut [u8], b: usize, kind: u8, entries: usize)
    requires { (block_size * b + block_size ≤ length out.old) × (b < 2 ^ 32) × (entries < 65536) }
    ensures { out.new ≡ headed out.old b kind entries }
{
    let at = BLOCK * b;
    put16(out, at, u16::from(kind));
    put16(out, at + 2, entries as u16);
    put32(out, at + 4, b as u32);
}

// The bytes from a up to e become 0.
pub fn write_zeros(out: &mut [u8], a: usize, e: usize)
    requires { (a ≤ e) × (e ≤ length out.old) }
    ensures { Filled a e (λ _. 0) out.old out.new }
{
    out[a..e].fill(0);
}

// The last four bytes of block b: the check of those before them.
pub fn write_check(out: &mut [u8], b: usize)
    requires { block_size * b + block_size ≤ length out.old }
    ensures { out.new ≡ sealed out.old b }
{
    let start = BLOCK * b;
    let end = start + SUMMED;
    let r = sums_of(&out[start..end]);
    put16(out, end, r.a);
    put16(out, end + 2, r.b);
}
