// The text of a line of the input, stored in lent bytes: the trip that it asks for and the answer, or
// `refused 32`. It takes at most a line's bytes, since a trip has few roads.
ghost use Rattle.std.specs.Prelude.{[], ◌∷◌, ◌++◌, ◌+◌, ◌≤◌, length, take};
ghost use Rattle.text_numbers.specs.Text.{Stored, line_feed, ascii};
ghost use Rattle.sheet_text.specs.Numbers.{spaced};
ghost use Rattle.sheet_text.specs.Printed.{most_line};
ghost use Rattle.sheet_line.specs.Line as lines;
ghost use Rattle.sheet_text.specs.TripText.{asking_text, answer_text, trip_text, line_text};
ghost use Rattle.search_path.specs.Says.{trip_count};
ghost use Rattle.network.specs.Limits.{most_roads};

use crate::numbers::{put_numbers, put_roads};
use file_refusals::Refusal;
use network::limits::{MOST_NODES, MOST_ROADS, NEVER};
use search_path::answer::Arrival;
use sheet_line::line::{Asking, ended};
use text_numbers::text::{end_line, put_decimal, put_text};
use text_spaced::spaced::Scan;
use trip::flagged::flagged_trip;

// The most bytes of a line; specs/Printed.antt says why.
pub const MOST_LINE: usize = 8 * MOST_NODES;

// From, to, leave.
fn put_asking(out: &mut [u8], a: Asking) -> usize
    requires { most_line ≤ length out.old }
    ensures text { Stored out.old out.new 0 result (asking_text a) }
    ensures room { result ≤ 32 }
{
    let at = put_decimal(out, 0, a.from);
    let numbers = [a.to, a.leave];
    put_numbers(out, at, &numbers)
}

// Arrive, road count and roads.
fn put_arrival(out: &mut [u8], at: usize, a: Arrival, roads: &[u16]) -> usize
    requires { (most_line ≤ length out.old) × (at ≤ 32) × (a.count ≤ most_roads)
        × (a.count ≤ length roads.now) }
    ensures text { Stored out.old out.new at result
        (spaced (a.tick ∷ a.count ∷ take a.count roads.now) ++ line_feed) }
    ensures room { result ≤ most_line }
{
    let count = a.count;
    let numbers = [a.tick, count as u32];
    let next = put_numbers(out, at, &numbers);
    let end = put_roads(out, next, roads, count);
    end_line(out, end)
}

// `refused` and its number.
fn put_refused(out: &mut [u8], at: usize, number: u32) -> usize
    requires { (most_line ≤ length out.old) × (at ≤ 32) }
    ensures text { Stored out.old out.new at result
        (ascii " refused" ++ spaced (number ∷ []) ++ line_feed) }
    ensures room { result ≤ most_line }
{
    let next = put_text(out, at, b" refused");
    let numbers = [number];
    let end = put_numbers(out, next, &numbers);
    end_line(out, end)
}

// What a trip answers.
fn put_answer(
    out: &mut [u8],
    at: usize,
    answer: Result<Arrival, Refusal>,
    roads: &[u16; MOST_ROADS],
) -> usize
    requires { (most_line ≤ length out.old) × (at ≤ 32) × (trip_count answer ≤ most_roads) }
    ensures text { Stored out.old out.new at result
        (answer_text answer (take (trip_count answer) roads.now)) }
    ensures room { result ≤ most_line }
{
    match answer {
        Ok(a) => put_arrival(out, at, a, roads),
        Err(r) => put_refused(out, at, r.number),
    }
}

// The flagged trip that a line asks for.
fn put_trip(network: &[u8], plan: &[u8], a: Asking, out: &mut [u8]) -> usize
    requires { most_line ≤ length out.old }
    ensures text { Stored out.old out.new 0 result
        (trip_text network.now plan.now a) }
    ensures room { result ≤ most_line }
{
    let mut arrivals = [NEVER; MOST_NODES];
    let mut roads = [0u16; MOST_ROADS];
    let visit = flagged_trip(
        network,
        plan,
        a.from,
        a.to,
        a.leave,
        &mut arrivals,
        &mut roads,
    );
    let answer = visit.trip;
    let at = put_asking(out, a);
    put_answer(out, at, answer, &roads)
}

// A line that has ended.
pub fn put_line(network: &[u8], plan: &[u8], scan: Option<Scan>, out: &mut [u8]) -> usize
    requires { most_line ≤ length out.old }
    ensures text { Stored out.old out.new 0 result
        (line_text network.now plan.now (lines.ended scan)) }
    ensures room { result ≤ most_line }
{
    match ended(scan) {
        Some(a) => put_trip(network, plan, a, out),
        None => put_text(out, 0, b"refused 32\n"),
    }
}
