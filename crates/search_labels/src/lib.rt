// search_labels: the earliest arrival at each node over permitted arcs, up to the target's, by settling the
// nearest node first.
//   query      what a trip asks
//   notes      by how many arcs a label came about, and by which last
//   reach      relaxing, settling, and the labels when the target is settled
// It may call `search_chains` for the arcs out of a node, `search_arcs` for their ends, `search_frontier` for
// the nodes to be settled, and `network` for the entries of the file; it cites `theory_paths`.
#![tactic(auto)]

pub mod notes;
pub mod query;
pub mod reach;
