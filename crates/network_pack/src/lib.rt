// network_pack: Pack, and both round trips. It owns the theorems that what is packed opens to the same tables
// and that the tables of an opened file pack to the same bytes (specs/RoundTrip.antt, proofs/Packed.antt).
//   pack    refusals 4, 30, 7 to 10, 37 and 31, or the file written
// It may call `network_tables` to judge the tables, `network_encode` to write the file, and `network` and
// `network_open` for the header and the room that tables need.
#![tactic(auto)]

pub mod pack;
