// Numbers stored in lent bytes, one after the other and a space before each: each function answers the byte
// after what it stored, and leaves the other bytes as they were.
ghost use Rattle.std.specs.Prelude.{◌∷◌, ◌+◌, ◌*◌, ◌≤◌, length, take};
ghost use Rattle.text_numbers.specs.Text.{Stored};
ghost use Rattle.text_numbers.specs.Number.{decimal};
ghost use Rattle.sheet_text.specs.Numbers.{spaced};

use text_numbers::text::put_decimal;

// Stores a space and a number.
fn put_spaced(out: &mut [u8], at: usize, n: u32) -> usize
    requires { at + 11 ≤ length out.old }
    ensures { Stored out.old out.new at result (32 ∷ decimal n) }
{
    out[at] = b' ';
    put_decimal(out, at + 1, n)
}

// Stores numbers, a space before each.
pub fn put_numbers(out: &mut [u8], at: usize, numbers: &[u32]) -> usize
    requires { at + 11 * length numbers.now ≤ length out.old }
    ensures text { Stored out.old out.new at result (spaced numbers.now) }
    ensures room { result ≤ at + 11 * length numbers.now }
{
    let mut next = at;
    for n in numbers {
        next = put_spaced(out, next, *n);
    }
    next
}

// Stores the first numbers of a list of roads, a space before each.
pub fn put_roads(out: &mut [u8], at: usize, roads: &[u16], count: usize) -> usize
    requires { (count ≤ length roads.now) × (at + 6 * count + 5 ≤ length out.old) }
    ensures text { Stored out.old out.new at result
        (spaced (take count roads.now)) }
    ensures room { result ≤ at + 6 * count }
{
    let mut next = at;
    for road in &roads[..count] {
        next = put_spaced(out, next, u32::from(*road));
    }
    next
}
