// A text and a number in decimal, stored in lent bytes: each function answers the byte after what it stored,
// and leaves the other bytes as they were. A number of 32 bits takes at most ten bytes.
ghost use Rattle.std.specs.Prelude.{◌+◌, ◌<◌, ◌≤◌, length};
ghost use Rattle.text_numbers.specs.Text.{Stored, line_feed};
ghost use Rattle.text_numbers.specs.Number.{decimal};

// Stores a text.
pub fn put_text(out: &mut [u8], at: usize, text: &[u8]) -> usize
    requires { at + length text.now ≤ length out.old }
    ensures { Stored out.old out.new at result text.now }
{
    let end = at + text.len();
    out[at..end].copy_from_slice(text);
    end
}

// Stores a line feed.
pub fn end_line(out: &mut [u8], at: usize) -> usize
    requires { at < length out.old }
    ensures { Stored out.old out.new at result line_feed }
{
    out[at] = b'\n';
    at + 1
}

// Stores a number in decimal.
pub fn put_decimal(out: &mut [u8], at: usize, n: u32) -> usize
    requires { at + 10 ≤ length out.old }
    ensures { Stored out.old out.new at result (decimal n) }
{
    if n < 10 {
        out[at] = b'0' + n as u8;
        return at + 1;
    }
    let last = put_decimal(out, at, n / 10);
    out[last] = b'0' + (n % 10) as u8;
    last + 1
}
