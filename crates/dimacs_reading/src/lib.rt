// dimacs_reading: what the lines of a DIMACS road file come to, and what is said of the text once all are
// read: refusals 35 and 36, or its sizes.
//   reading  what the lines so far come to
//   verdict  what is said of them
// It may call `dimacs_line` for the shape of a line; it cites the limits of `network`. Which texts are
// accepted is said in specs/Accepted.antt, and that it is exactly these (`accepted_exactly`).
#![tactic(auto)]

pub mod reading;
pub mod verdict;
