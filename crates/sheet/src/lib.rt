// sheet: the run sheet, as bytes. It owns what the program prints for two files and an input.
//   reading  the three steps: the start, a byte of the input, the end
// It may call `text_numbers` to read a line and `sheet_text` to store its text. What the steps store, one
// after the other, is the sheet, for every input (specs/Sheet.antt, `sheet_bytes`).
#![tactic(auto)]

pub mod reading;
