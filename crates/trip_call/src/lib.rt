// trip_call: the call of a trip over permitted arcs. It owns what a call must meet before its search
// (refusals 25 to 27), and what a call answers and leaves in its two lent lists (`TripCall`).
//   begin    the refusals 25 to 27
//   drive    the search of a call that is not refused
//   visit    the same, and when the target is open
// It may call `search_path` to search, with the query of `search_labels`, `network_hours` for the target's
// hours, `network` for the header and `file_refusals` for the numbers; it cites `search_chains`.
#![tactic(auto)]

pub mod begin;
pub mod drive;
pub mod visit;
