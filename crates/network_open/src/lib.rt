// network_open: Open: the tables of a network's file, written into lent tables.
//   open  refusal 30 after those of validation, or the eight tables written
// It may call `network_validate` to validate the file, and `file_blocks` and `network` to read it, and cites
// `theory_loops`. Nothing is written where something is refused.
#![tactic(auto)]

pub mod open;
