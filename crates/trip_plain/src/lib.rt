// trip_plain: the plain trip, over all arcs. What its answer means is said in `trip`.
// It may call `network_validate` to validate the file and `trip_call` to search, with the query of
// `search_labels`; it names what `search_path` answers, and cites `network` and `theory_paths`. It refuses,
// and requires nothing.
#![tactic(auto)]

pub mod plain;
