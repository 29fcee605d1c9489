// The lines of a text that stands in lent bytes. Most are short, so a line's end is looked for in its first
// sixteen bytes together, which a processor compares at once, and only behind them by `memchr`, which begins
// more slowly and goes on faster.
ghost use Rattle.std.specs.Prelude.{◌≡◌, false, ◌+◌, ◌≤◌, length};
ghost use Rattle.text_lines.specs.Lines.{Unended, LineTo};

use memchr::memchr;

// The bytes that are looked at together.
const TOGETHER: usize = 16;

// May there be a line feed among the sixteen bytes from byte `at` on?
fn may_end(text: &[u8], at: usize) -> bool
    requires { at + 16 ≤ length text.now }
    ensures { result ≡ false → Unended text.now at (at + 16) }
{
    let mut found = false;
    for k in 0..TOGETHER {
        found |= text[at + k] == b'\n';
    }
    found
}

// Where a line ends that has no line feed before byte `at`: looked for byte by byte.
fn near_end(text: &[u8], at: usize) -> usize
    requires { at ≤ length text.now }
    ensures { LineTo text.now at result }
{
    for i in at..text.len() {
        if text[i] == b'\n' {
            return i;
        }
    }
    text.len()
}

// The same, looked for by many bytes together. It is a call of its own, so that a short line does not save the
// registers that it needs.
#[inline(never)]
fn far_end(text: &[u8], at: usize) -> usize
    requires { at ≤ length text.now }
    ensures { LineTo text.now at result }
{
    match memchr(b'\n', &text[at..]) {
        Some(feed) => at + feed,
        None => text.len(),
    }
}

// Where the line that starts at byte `at` ends: at its line feed, or at the end of the text.
pub fn line_end(text: &[u8], at: usize) -> usize
    requires { at ≤ length text.now }
    ensures { LineTo text.now at result }
{
    let behind = at + TOGETHER;
    if behind <= text.len() && !may_end(text, at) {
        return far_end(text, behind);
    }
    near_end(text, at)
}
