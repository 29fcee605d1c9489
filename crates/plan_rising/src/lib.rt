// plan_rising: whether a plan keeps the rules 18 and 19 in sound blocks of points, yes or no, in one walk.
//   breaks    where the ticks of points in a block do not rise
//   words     the same by words, where the block is full
//   progress  the blocks of the points, each looked at once
//   rising    the profiles, and the answer
// It may call `file_fields`, `file_blocks`, `file_forms` and `plan`, and cites `theory_loops`,
// `theory_breaks`, `theory_travel` and `file_refusals`. The file is read in place.
#![tactic(auto)]

mod breaks;
mod progress;
pub mod rising;
mod words;
