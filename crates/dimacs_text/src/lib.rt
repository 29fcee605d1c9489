// dimacs_text: the text of a DIMACS road file, judged in one reading, with its arcs noted in tables.
//   roads    tables of arcs
//   noting   its arcs, in tables
//   judge    the whole text
// It may call `dimacs_line` for the next line and its shape and `dimacs_reading` for what the lines come to;
// it cites `text_lines`, and the limits of `network`.
#![tactic(auto)]

pub mod judge;
pub mod noting;
pub mod roads;
