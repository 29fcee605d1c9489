// file_frames: a file written in place, in any order of its entries, whatever they mean.
//   frames  the blocks of a run with their heads and zeros, first
//   checks  every block's check, at last
// It may call `file_blocks`, `file_write` and `file_fields`, and cites `theory_loops`.
#![tactic(auto)]

pub mod checks;
pub mod frames;
