// search_frontier: the nodes of a search that have a label and are not settled, and the nearest of them.
// It owns what settling the nearest node first comes to (specs/Settle.antt). It may call `search_arcs` to
// compare keys, and cites `theory_paths` and `network`.
#![tactic(auto)]

pub mod frontier;
