// network_encode: the bytes of a network's file. It owns `encode`, the file as document 01 words it, and the
// writing of it from eight tables.
//   encode  the file of eight tables, block by block
// It may call `file_blocks`, `file_write` and `file_fields` to write, and `network` for the header and its
// layout.
#![tactic(auto)]

pub mod encode;
