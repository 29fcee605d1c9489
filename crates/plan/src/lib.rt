// plan: plan files. It owns borders, flags and profiles, where they stand in a file, and what its rules are
// (refusals 11 to 19).
//   limits    the limits of a plan file
//   header    the header's numbers, and where the tables stand
//   flag      a flag of an arc
//   read      the entries of a plan file, in place
//   borders   the borders of a network, listed
// It may call `file_fields`, `file_blocks`, `file_refusals` and `network`, and cites `file_forms`,
// `theory_loops`, `theory_paths` and `theory_travel`. Both files are read in place.
#![tactic(auto)]

pub mod borders;
pub mod flag;
pub mod header;
pub mod limits;
pub mod read;
