// A block's check over a slice of exactly the bytes that it is over, and the check of a block of a file,
// whose part is lent to the sum. The definition in specs/Sum.antt reduces at each word; the code adds plain
// numbers and reduces once.
ghost use Rattle.std.specs.Prelude.{◌≡◌, ◌+◌, ◌*◌, ◌%◌, ◌^◌, ◌≤◌, ◌<◌, length};
ghost use Rattle.file_fields.specs.Fields;
ghost use Rattle.file_fields.specs.Block.{block_size, summed_size, summed_words};
ghost use Rattle.file_fields.specs.Sum.{sums, good};

use crate::fields::le16;
use crate::{BLOCK, SUMMED};

#[derive(Clone, Copy)]
pub struct Sums {
    pub a: u16,
    pub b: u16,
}

// The remainder of a sum by 65,535, of which 65,536 is one more. The comparison leaves the sums to a compiler
// as one value to be added up, also where they are stored and not compared.
fn reduced(x: u32) -> u16
    requires { x + 1 < 2 ^ 32 }
    ensures { result ≡ x % 65535 }
{
    let y = x / 65536 + x % 65536;
    if y < 65535 {
        return y as u16;
    }
    (y - 65535) as u16
}

// Both sums, reduced.
fn reduced_both(a: u32, b: u32) -> Sums
    requires { (a + 1 < 2 ^ 32) × (b + 1 < 2 ^ 32) }
    ensures { (result.a ≡ a % 65535) × (result.b ≡ b % 65535) }
{
    Sums {
        a: reduced(a),
        b: reduced(b),
    }
}

// The word at byte o, to be added up.
fn word(s: &[u8], o: usize) -> u32
    requires { o + 2 ≤ length s.now }
    ensures { (result ≡ Fields.le16 s.now o) × (result < 65536) }
{
    u32::from(le16(s, o))
}

// A and B over the 254 words of 508 bytes. Four columns of 63 words are added up side by side, which a
// processor does at once, and joined at the end with the last two words. All sums stay below 2^32.
pub fn sums_of(s: &[u8]) -> Sums
    requires { length s.now ≡ summed_size }
    ensures { result ≡ sums s.now summed_words }
{
    let mut a0: u32 = 0;
    let mut a1: u32 = 0;
    let mut a2: u32 = 0;
    let mut a3: u32 = 0;
    let mut b0: u32 = 0;
    let mut b1: u32 = 0;
    let mut b2: u32 = 0;
    let mut b3: u32 = 0;
    for i in 0..63 {
        a0 += word(s, 8 * i);
        a1 += word(s, 8 * i + 2);
        a2 += word(s, 8 * i + 4);
        a3 += word(s, 8 * i + 6);
        b0 += a0;
        b1 += a1;
        b2 += a2;
        b3 += a3;
    }
    let x = word(s, 504);
    let y = word(s, 506);
    let a = 1 + a0 + a1 + a2 + a3;
    let b = 252 + 4 * (b0 + b1 + b2 + b3) - (a1 + 2 * a2 + 3 * a3);
    reduced_both(a + x + y, b + 2 * a + 2 * x + y)
}

// Is block b's check right?
pub fn is_good(file: &[u8], b: usize) -> bool
    requires { block_size * b + block_size ≤ length file.now }
    ensures { result ≡ good file.now b }
{
    let start = BLOCK * b;
    let end = start + SUMMED;
    let r = sums_of(&file[start..end]);
    r.a == le16(file, end) && r.b == le16(file, end + 2)
}
