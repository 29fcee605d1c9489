// dimacs_import: Import: the network of a DIMACS road file, written into lent bytes. The text is read once:
// its arcs are noted in tables while it is judged, and the file is written from these where nothing is
// refused.
//   import   refusals 35, 36 and 31, or the file written
// It may call `dimacs_text` to judge a text and to note its arcs, `network` for the header, and
// `network_encode` to write the file.
#![tactic(auto)]

pub mod import;
