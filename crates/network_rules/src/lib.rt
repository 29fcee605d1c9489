// network_rules: the rules 7 to 10 of a network file, and the first place at which one is broken.
//   rules     the rules 7, 37 and 8, and the ladder of all of them
// It may call `network_steady` and `network_scan` for the rules 9 and 10, `network` for the entries of the
// file and `file_blocks` for the blocks of a run, and cites `theory_loops`.
#![tactic(auto)]

pub mod rules;
