// file_write: a block's head, fill and check written.
// It owns the bytes of a file whose blocks hold given entries (specs/Run.antt), and that such a file is read
// back (specs/RunLaws.antt). It may call `file_fields`, and cites `file_blocks`, `file_forms` and
// `theory_loops`.
#![tactic(auto)]

pub mod write;
