// text_numbers: numbers in decimal, as bytes: read at a place of a text, and stored.
//   text     a text and a number, stored
//   digits   digits at a place of a text, read
// It owns what digits are, their value and what is printed of a number (specs/Number.antt), what numbers one
// space apart are (specs/Spaced.antt), and what code leaves that stores a text in lent bytes
// (specs/Text.antt). It cites `text_lines` for where a line ends, and calls nothing but its own.
#![tactic(auto)]

pub mod digits;
pub mod text;
