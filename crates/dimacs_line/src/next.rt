// The next line of a text, by its shape. A remark is known by its first byte, and an arc is read as its
// numbers come, which finds the line's end too; any other line is looked at whole.
ghost use Rattle.std.specs.Prelude.{◌≡◌, true, ◌≤◌, ◌<◌, length, IfSome};
ghost use Rattle.dimacs_line.specs.Next.{NextLine, ArcStart, EndedBy};

use crate::line::{Arc, Shape, shape_of};
use text_lines::lines::line_end;
use text_numbers::digits::number_at;

// The shape of a line, and where it ends: at its line feed, or at the end of the text.
#[derive(Clone, Copy)]
pub struct Line {
    pub shape: Shape,
    pub end: usize,
}

// The most bytes of an arc's line: two, and three times nine digits and a byte behind them.
const ARC_BYTES: usize = 32;

// Any line.
fn whole_line(text: &[u8], at: usize) -> Line
    requires { at ≤ length text.now }
    ensures { NextLine text.now at result }
{
    let end = line_end(text, at);
    Line {
        shape: shape_of(&text[at..end]),
        end,
    }
}

// Are there bytes from `from` to `end`, with this byte behind them?
fn is_ended(text: &[u8], from: usize, end: usize, byte: u8) -> bool
    requires { end < length text.now }
    ensures { result ≡ true → EndedBy text.now from end byte }
{
    from < end && text[end] == byte
}

// Does a line start as an arc does, with room in the text for all of it?
fn is_arc_start(text: &[u8], at: usize) -> bool
    requires { at ≤ length text.now }
    ensures { result ≡ true → ArcStart text.now at }
{
    if text.len() - at < ARC_BYTES {
        return false;
    }
    text[at] == b'a' && text[at + 1] == b' '
}

// The line of an arc, which starts as one, if its numbers are met.
fn arc_at(text: &[u8], at: usize) -> Option<Line>
    requires { ArcStart text.now at }
    ensures { IfSome result (NextLine text.now at) }
{
    let tail_at = at + 2;
    let tail = number_at(text, tail_at);
    let tail_end = tail.end;
    if !is_ended(text, tail_at, tail_end, b' ') {
        return None;
    }
    let head_at = tail_end + 1;
    let head = number_at(text, head_at);
    let head_end = head.end;
    if !is_ended(text, head_at, head_end, b' ') {
        return None;
    }
    let weight_at = head_end + 1;
    let weight = number_at(text, weight_at);
    let end = weight.end;
    if !is_ended(text, weight_at, end, b'\n') {
        return None;
    }
    Some(Line {
        shape: Shape::Arc(Arc {
            tail: tail.value,
            head: head.value,
            weight: weight.value,
        }),
        end,
    })
}

// The line that starts at byte `at`.
pub fn next_line(text: &[u8], at: usize) -> Line
    requires { at < length text.now }
    ensures { NextLine text.now at result }
{
    if text[at] == b'c' {
        return Line {
            shape: Shape::Remark,
            end: line_end(text, at),
        };
    }
    if is_arc_start(text, at) {
        if let Some(line) = arc_at(text, at) {
            return line;
        }
    }
    whole_line(text, at)
}
