// plan_encode: the bytes of a plan's file (`encode_plan`), and the writing of it in the order of a planner.
//   frames   every block's head and zeros, and the header's entry
//   entries  a profile's count, a point, the flag words, each at its place as it comes
// The checks are those of `file_frames`. It may call `file_frames`, `file_blocks` and `file_fields` to write,
// and `plan` for the header and its layout; it cites `file_forms` and `file_write`.
#![tactic(auto)]

pub mod entries;
pub mod frames;
