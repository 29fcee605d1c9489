// The run sheet, a byte of the input at a time: what is stored at the start, at each byte and at the end is
// the sheet (specs/Sheet.antt, `sheet_bytes`). Each step stores its text from the first lent byte on. Nothing
// of the input is kept but a small state, so a line may be of any length.
ghost use Rattle.std.specs.Prelude.{◌≡◌, cond, ◌≤◌, length};
ghost use Rattle.sheet_text.specs.Printed.{Printed, most_line};
ghost use Rattle.sheet_text.specs.Head.{head_text};
ghost use Rattle.sheet.specs.Reading.{beginning};
ghost use Rattle.sheet.specs.Reading.{stepped, step_text, end_text};
ghost use Rattle.sheet_text.specs.TripText.{line_text};

use sheet_text::answer::put_line;
use sheet_text::head::put_head;
use text_spaced::spaced::{ANY, Scan, fresh, scan_byte};

// How many lines are answered; further ones are not read.
pub const LINES: u32 = 64;

// How far the input is read: how many lines have ended, whether one more has begun, and what its bytes come
// to.
#[derive(Clone, Copy)]
pub struct Reading {
    pub lines: u32,
    pub begun: bool,
    pub scan: Option<Scan>,
}

// The reading after a step, and how many bytes of text the step has stored.
#[derive(Clone, Copy)]
pub struct Step {
    pub reading: Reading,
    pub length: usize,
}

// The number of lines to start from: where none is read, as after the last.
fn lines_before(reads: bool) -> u32
    ensures { result ≡ cond reads 0 64 }
{
    if reads { 0 } else { LINES }
}

// Before the first byte of the input: the first line of the sheet.
pub fn begin(network: &[u8], plan: &[u8], out: &mut [u8]) -> Step
    requires { most_line ≤ length out.old }
    ensures text { Printed out.old out.new result.length
        (head_text network.now plan.now) }
    ensures reading { result.reading ≡ beginning network.now plan.now }
{
    let head = put_head(network, plan, out);
    Step {
        reading: Reading {
            lines: lines_before(head.reads),
            begun: false,
            scan: fresh(),
        },
        length: head.length,
    }
}

// One byte of the input: at a line feed the text of the line.
pub fn take_byte(network: &[u8], plan: &[u8], reading: Reading, byte: u8, out: &mut [u8]) -> Step
    requires { most_line ≤ length out.old }
    ensures text { Printed out.old out.new result.length
        (step_text (line_text network.now plan.now) reading byte) }
    ensures reading { result.reading ≡ stepped reading byte }
{
    let scan = reading.scan;
    if reading.lines >= LINES {
        return Step { reading, length: 0 };
    }
    if byte == b'\n' {
        let length = put_line(network, plan, scan, out);
        return Step {
            reading: Reading {
                lines: reading.lines + 1,
                begun: false,
                scan: fresh(),
            },
            length,
        };
    }
    Step {
        reading: Reading {
            begun: true,
            scan: scan_byte(scan, byte, ANY),
            ..reading
        },
        length: 0,
    }
}

// The end of the input: the text of a line that has begun.
pub fn finish(network: &[u8], plan: &[u8], reading: Reading, out: &mut [u8]) -> usize
    requires { most_line ≤ length out.old }
    ensures { Printed out.old out.new result
        (end_text (line_text network.now plan.now) reading) }
{
    let scan = reading.scan;
    if LINES <= reading.lines {
        return 0;
    }
    if reading.begun {
        return put_line(network, plan, scan, out);
    }
    0
}
