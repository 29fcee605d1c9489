// file_blocks: files of 512-byte blocks, whatever their entries mean: where the entries stand.
//   kind    the table of kinds, and what entries of a kind take
//   place   runs of entries in a file: where they stand, and a table filled from them
//   pairs   two tables filled at once, from entries of two fields
//   walk    a walk over entries in their order
// It may call `file_fields` for fields, and cites `theory_loops`.
#![tactic(auto)]

pub mod kind;
pub mod pairs;
pub mod place;
pub mod walk;
