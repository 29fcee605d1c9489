// sheet_text: the lines of the run sheet, stored in lent bytes.
//   numbers  numbers, a space before each
//   head     the first line: the check, or `too large`
//   answer   the text of a line that has ended
// It may call `plan_check` for the check, `trip` for the flagged trip, `sheet_line` for what a line asks and
// `text_numbers` to store texts and numbers, and names what `network` and `search_path` answer.
#![tactic(auto)]

pub mod answer;
pub mod head;
pub mod numbers;
