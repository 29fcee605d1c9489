// network: network files. It owns the header and its limits, where the tables stand in a file, what its rules
// are (refusals 1 to 10 and 37), and the meaning of a file: `Network`, `decode`, and the lawful graph of
// every file that opens.
//   limits    the limits of a network's numbers
//   header    the header's numbers with their limits, and where the tables stand
//   tables    the tables of a network, as a caller lends them
//   node      the kind of a node's entries
//   arcs      an arc by its block, and its place there
//   points    the points that stand side by side, by bytes
//   read      the entries of a network file, in place
// It may call `file_blocks` and `file_fields` for bytes, and cites `file_forms`, `theory_loops`,
// `theory_paths` and `theory_travel`. Files are read in place.
#![tactic(auto)]

pub mod arcs;
pub mod header;
pub mod limits;
pub mod node;
pub mod points;
pub mod read;
pub mod tables;
