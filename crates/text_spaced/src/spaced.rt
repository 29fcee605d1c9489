// Numbers one space apart, read a byte at a time into a small state, so that a line may be of any length. A
// reader says how many digits a number may have, leading zeros counted; `ANY` stands for any number of them.
ghost use Rattle.std.specs.Prelude.{◌≡◌};
ghost use Rattle.text_spaced.specs.Scanning;
ghost use Rattle.text_spaced.specs.Scanning.{one_more, space_scanned, digit_scanned, scanned};
ghost use Rattle.text_spaced.specs.Scanning.{scanned_all, whole};

// The greatest number that a line may hold.
const LIMIT: u64 = 4294967295;

// Any number of digits: they are counted up to here.
pub const ANY: u32 = 10;

// What the bytes of a line so far come to, where they do not rule numbers out: how many numbers a space has
// ended, and the first two of them; how many digits the number that is being read has, and its value.
#[derive(Clone, Copy)]
pub struct Scan {
    pub fields: u32,
    pub digits: u32,
    pub value: u32,
    pub first: u32,
    pub second: u32,
}

// Nothing has been read.
const NOTHING: Scan = Scan {
    fields: 0,
    digits: 0,
    value: 0,
    first: 0,
    second: 0,
};

// Before a line's first byte.
pub fn fresh() -> Option<Scan>
    ensures { result ≡ Scanning.fresh }
{
    Some(NOTHING)
}

// A space ends the first or the second number.
#[tactic(auto, unfolding(crate::specs::Scanning::space_scanned))]
fn scan_space(s: Scan) -> Option<Scan>
    ensures { result ≡ space_scanned s }
{
    if s.digits == 0 {
        return None;
    }
    match s.fields {
        0 => Some(Scan {
            fields: 1,
            first: s.value,
            ..NOTHING
        }),
        1 => Some(Scan {
            fields: 2,
            first: s.first,
            second: s.value,
            ..NOTHING
        }),
        _ => None,
    }
}

// One digit more, counted up to `ANY`.
fn one_more(digits: u32) -> u32
    ensures { result ≡ one_more digits }
{
    digits.saturating_add(1).min(ANY)
}

// A digit goes on with the number; any other byte rules numbers out, and so do a digit too many and a number
// above the limit.
#[tactic(auto, unfolding(crate::specs::Scanning::digit_scanned))]
fn scan_digit(s: Scan, byte: u8, most: u32) -> Option<Scan>
    ensures { result ≡ digit_scanned most s byte }
{
    if byte < b'0' || b'9' < byte {
        return None;
    }
    let digits = one_more(s.digits);
    if most < digits {
        return None;
    }
    let value = 10 * u64::from(s.value) + u64::from(byte - b'0');
    if LIMIT < value {
        return None;
    }
    Some(Scan {
        digits,
        value: value as u32,
        ..s
    })
}

// One more byte of a line whose numbers have at most so many digits.
#[tactic(auto, unfolding(crate::specs::Scanning::scanned))]
pub fn scan_byte(s: Option<Scan>, byte: u8, most: u32) -> Option<Scan>
    ensures { result ≡ scanned most s byte }
{
    let s = s?;
    if byte == b' ' {
        return scan_space(s);
    }
    scan_digit(s, byte, most)
}

// All bytes of a line.
pub fn scan_line(line: &[u8], most: u32) -> Option<Scan>
    ensures { result ≡ scanned_all most Scanning.fresh line.now }
{
    let mut s = fresh();
    for byte in line {
        s = scan_byte(s, *byte, most);
    }
    s
}

// Is a line that has ended so many numbers?
#[tactic(auto, unfolding(crate::specs::Scanning::whole))]
pub fn is_whole(s: Scan, count: u32) -> bool
    ensures { result ≡ whole s count }
{
    u64::from(s.fields) + 1 == u64::from(count) && 0 < s.digits
}
