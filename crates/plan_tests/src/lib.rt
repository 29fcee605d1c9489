// plan_tests: the tests of the check, as document 01 words them: 20 at an arc, 21 to 24 at a border number, a
// node and a tick; how many finds they may take; and what they say where they fail nowhere.
//   tests   test 20, and what the others are told of
// It may call `network` and `plan` to read both files, and cites `plan_values` for profiles, `search_chains`
// for the arcs out of a node, `theory_loops` and `theory_paths`.
#![tactic(auto)]

pub mod tests;
