// Standard input, in pieces, and what each byte prints. What a step of `sheet` stores is written at once;
// after the last line nothing is read. What the operating system reads and writes no contract says.
ghost use Rattle.std.specs.Prelude.{◌≡◌, ◌≤◌, length, take};
ghost use Rattle.sheet_text.specs.Printed.{most_line};
ghost use Rattle.sheet.specs.Reading.{stepped_all};
ghost use Rattle.sheet.specs.Pieces.{Fed};

use crate::files::read_some;
use sheet::reading::{LINES, Reading, begin, finish, take_byte};
use std::io::Read;

// How many bytes of the input are asked for at a time.
const PIECE: usize = 4096;

// The reading after a piece of the input, and how many bytes the piece had.
#[derive(Clone, Copy)]
struct Piece {
    reading: Reading,
    count: usize,
}

// Writes the first bytes of a text. Where the system takes no more of them, the program goes on without.
fn say(rt: &impl Print, text: &[u8], count: usize)
    requires { count ≤ length text.now }
{
    let _ = rt.write_all(&text[..count]);
}

// Takes the bytes of a piece, one after the other, and hands on every one of them.
fn take_bytes(
    rt: &impl Print,
    network: &[u8],
    plan: &[u8],
    before: Reading,
    bytes: &[u8],
    out: &mut [u8],
) -> Reading
    requires { most_line ≤ length out.old }
    ensures { result ≡ stepped_all before bytes.now }
{
    let mut reading = before;
    for byte in bytes {
        let step = take_byte(network, plan, reading, *byte, out);
        say(rt, out, step.length);
        reading = step.reading;
    }
    reading
}

// Reads a piece into lent bytes, and takes it: it is the first of them, as many as it had.
fn take_piece(
    rt: &impl Print,
    network: &[u8],
    plan: &[u8],
    reading: Reading,
    input: &mut impl Read,
    bytes: &mut [u8],
    out: &mut [u8],
) -> Piece
    requires { most_line ≤ length out.old }
    ensures count_in_bounds { result.count ≤ length bytes.new }
    ensures reading_value { result.reading ≡ stepped_all reading (take result.count bytes.new) }
{
    let count = read_some(input, bytes);
    Piece {
        reading: take_bytes(rt, network, plan, reading, &bytes[..count], out),
        count,
    }
}

// Reads piece upon piece, up to the last line or the end of the input, and hands on what each had. A proved
// loop has to end, and nothing says that an input does: so its turns are counted, up to a number that no run
// uses up.
fn take_input(
    rt: &(impl Input + Print),
    network: &[u8],
    plan: &[u8],
    before: Reading,
    out: &mut [u8],
) -> Reading
    requires { most_line ≤ length out.old }
    ensures { Fed before result }
{
    let mut reading = before;
    let mut input = rt.reader();
    let mut bytes = [0u8; PIECE];
    'pieces: for _ in 0..u64::MAX {
        if LINES <= reading.lines {
            return reading;
        }
        let piece = take_piece(rt, network, plan, reading, &mut input, &mut bytes, out);
        reading = piece.reading;
        if piece.count == 0 {
            return reading;
        }
    }
    reading
}

// Prints the sheet.
pub fn answer(rt: &(impl Input + Print), network: &[u8], plan: &[u8], out: &mut [u8])
    requires { most_line ≤ length out.old }
{
    let step = begin(network, plan, out);
    say(rt, out, step.length);
    let reading = take_input(rt, network, plan, step.reading, out);
    let count = finish(network, plan, reading, out);
    say(rt, out, count);
}
