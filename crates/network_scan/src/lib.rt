// network_scan: the first point of a network file that breaks rule 9, and the first that breaks rule 10.
//   scan      one pass over the points, arc by arc
// It may call `network` for the entries of the file, and cites `theory_loops` and `theory_travel`.
#![tactic(auto)]

pub mod scan;
