// dimacs_line: a line of a DIMACS road file, by its shape.
//   line    a line, read
//   next    the line that starts at a place of a text
// It may call `text_numbers`, which reads the numbers of a line. What lines have which shape is said in
// specs/Shape.antt, and that the code takes exactly these for it (`remark_exactly`, `sizes_exactly`,
// `arc_exactly`).
#![tactic(auto)]

pub mod line;
pub mod next;
