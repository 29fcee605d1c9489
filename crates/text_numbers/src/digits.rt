// Digits that stand at a place of a text, with the number that they are.
ghost use Rattle.std.specs.Prelude.{◌+◌, ◌≤◌, length};
ghost use Rattle.text_numbers.specs.Digits.{DigitsAt, DigitBy};

// A number, and the place behind its last digit.
#[derive(Clone, Copy)]
pub struct Number {
    pub value: u32,
    pub end: usize,
}

// The digit that a byte is, or a number above 9.
fn digit(byte: u8) -> u32
    ensures { DigitBy byte result }
{
    u32::from(byte).wrapping_sub(u32::from(b'0'))
}

// The first digits from byte `at` on, up to nine. There may be none, and there may be further ones.
fn digits_at(text: &[u8], at: usize) -> Number
    requires { at + 9 ≤ length text.now }
    ensures { DigitsAt text.now at result.end result.value }
{
    let mut number = Number { value: 0, end: at };
    for byte in &text[at..at + 9] {
        let next = digit(*byte);
        if 9 < next {
            return number;
        }
        number = Number {
            value: 10 * number.value + next,
            end: number.end + 1,
        };
    }
    number
}

// The same, with no loop where there are at most four, as those of a town's roads are.
pub fn number_at(text: &[u8], at: usize) -> Number
    requires { at + 9 ≤ length text.now }
    ensures { DigitsAt text.now at result.end result.value }
{
    let first = digit(text[at]);
    if 9 < first {
        return Number { value: 0, end: at };
    }
    let second = digit(text[at + 1]);
    if 9 < second {
        return Number {
            value: first,
            end: at + 1,
        };
    }
    let two = 10 * first + second;
    let third = digit(text[at + 2]);
    if 9 < third {
        return Number {
            value: two,
            end: at + 2,
        };
    }
    let three = 10 * two + third;
    let fourth = digit(text[at + 3]);
    if 9 < fourth {
        return Number {
            value: three,
            end: at + 3,
        };
    }
    if 9 < digit(text[at + 4]) {
        return Number {
            value: 10 * three + fourth,
            end: at + 4,
        };
    }
    digits_at(text, at)
}
