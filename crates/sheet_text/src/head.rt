// The first line of the sheet, stored in lent bytes: the check, or `too large` where a file has more than
// 24,576 bytes. Lines of the input are read only where the plan is accepted.
ghost use Rattle.std.specs.Prelude.{◌≡◌, false, ◌≤◌, length, Err};
ghost use Rattle.text_numbers.specs.Text.{Stored, ascii};
ghost use Rattle.sheet_text.specs.Printed.{most_line};
ghost use Rattle.sheet_text.specs.Head.{verdict_text, is_accepted, head_text, reads};

use crate::numbers::put_numbers;
use file_refusals::Refusal;
use plan_check::check::check_plan;
use text_numbers::text::{end_line, put_text};

// The most bytes that a file may have.
pub const MOST: usize = 24576;

// How many bytes the first line has, and whether lines of the input are read.
#[derive(Clone, Copy)]
pub struct Head {
    pub length: usize,
    pub reads: bool,
}

// `plan refused`, the number and its three places.
fn put_refusal(out: &mut [u8], r: Refusal) -> usize
    requires { most_line ≤ length out.old }
    ensures text { Stored out.old out.new 0 result
        (verdict_text (Err r)) }
    ensures room { result ≤ most_line }
{
    let next = put_text(out, 0, b"plan refused");
    let numbers = [r.number, r.first, r.second, r.third];
    let end = put_numbers(out, next, &numbers);
    end_line(out, end)
}

// The check's verdict.
fn put_verdict(out: &mut [u8], checked: Result<(), Refusal>) -> Head
    requires { most_line ≤ length out.old }
    ensures text { Stored out.old out.new 0 result.length (verdict_text checked) }
    ensures room { result.length ≤ most_line }
    ensures lines { result.reads ≡ is_accepted checked }
{
    match checked {
        Ok(()) => Head {
            length: put_text(out, 0, b"plan accepted\n"),
            reads: true,
        },
        Err(r) => Head {
            length: put_refusal(out, r),
            reads: false,
        },
    }
}

// A file is too large.
fn put_too_large(out: &mut [u8]) -> Head
    requires { most_line ≤ length out.old }
    ensures text { Stored out.old out.new 0 result.length (ascii "too large\n") }
    ensures room { result.length ≤ most_line }
    ensures lines { result.reads ≡ false }
{
    Head {
        length: put_text(out, 0, b"too large\n"),
        reads: false,
    }
}

// The first line.
pub fn put_head(network: &[u8], plan: &[u8], out: &mut [u8]) -> Head
    requires { most_line ≤ length out.old }
    ensures text { Stored out.old out.new 0 result.length
        (head_text network.now plan.now) }
    ensures room { result.length ≤ most_line }
    ensures lines { result.reads ≡ reads network.now plan.now }
{
    if MOST < network.len() {
        return put_too_large(out);
    }
    if MOST < plan.len() {
        return put_too_large(out);
    }
    let report = check_plan(network, plan);
    let checked = report.verdict;
    put_verdict(out, checked)
}
