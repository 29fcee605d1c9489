// network_steady: whether all points of a network file keep the rules 9 and 10, yes or no.
//   joins     the points at which the order goes on, counted
//   closes    the closes of the arcs' days
//   steady    the answer
// It may call `network` for the entries of the file and `file_blocks` and `file_fields` for bytes, and cites
// `theory_loops`, `theory_breaks` and `theory_travel`.
#![tactic(auto)]

mod closes;
mod joins;
pub mod steady;
