// sheet_line: a line of the run sheet's input, and what it asks for.
//   line    a line that has been read
// It may call `text_numbers`, which reads the numbers of a line. A line asks for a trip exactly where it is
// three numbers of 32 bits, one space apart (specs/Line.antt, `line_exactly`).
#![tactic(auto)]

pub mod line;
