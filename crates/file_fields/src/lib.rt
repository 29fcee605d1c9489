// file_fields: bytes as numbers, low byte first. It calls nothing but its own, and cites `theory_loops`.
//   fields  fields of two, four and eight bytes, read and written
//   sum     the check of a block, over its 16-bit words
#![tactic(auto)]

pub mod fields;
pub mod sum;

// A block: its size, the bytes before its entries, those that entries may take, and those that its check is
// over: specs/Block.antt.
pub const BLOCK: usize = 512;

pub const HEAD: usize = 8;

pub const ENTRIES: usize = 500;

pub const SUMMED: usize = HEAD + ENTRIES;
