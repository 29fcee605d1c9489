// file_forms: whether blocks are as they are to be, whatever their entries mean.
//   form    a block's head and fill
//   reader  the walk over a file's blocks, with the check of each
//   sound   check and form of a block together
// It may call `file_blocks` for where entries stand and `file_fields` for fields and for a block's check, and
// cites `theory_loops`.
#![tactic(auto)]

pub mod form;
pub mod reader;
pub mod sound;
