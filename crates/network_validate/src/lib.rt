// network_validate: whether a file is a network's.
//   validate  refusals 1 to 10 and 37
// It may call `file_fields`, `file_blocks`, `file_forms`, `network` and `network_rules`, and cites
// `theory_loops`. The file is read in place, and nothing is copied.
#![tactic(auto)]

pub mod validate;
