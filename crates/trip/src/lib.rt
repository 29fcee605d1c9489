// trip: the flagged trip, over the arcs with the flag of the target's cell, and what the answers of both
// trips mean: the earliest arrival over all ways, and under an accepted plan over flagged arcs alone
// (specs/PlainPromise, specs/FlaggedPromise).
// It may call `network_validate`, `plan_rules` and `plan_validate` to validate files, `network` and `plan` to
// read them, and `trip_call` to search, with the query of `search_labels`; it cites `trip_plain` for the
// plain trip, and `theory_breaks` for a flag as a number. It refuses, and requires nothing.
#![tactic(auto)]

pub mod flagged;
