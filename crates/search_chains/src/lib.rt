// search_chains: the arcs of a sound network file at each node, in rising order, read in place.
//   chain   the chains by which the arcs out of a node, or into it, are walked
//   tables  each arc's head and first point, and the chain out of each node, in one pass
// It owns what readers of a sound file rest on (specs/Town.antt). It may call `network` and `file_blocks` for
// the entries of the file, and cites `theory_loops` and `theory_paths`.
#![tactic(auto)]

pub mod chain;
pub mod tables;
