// toward_list: the rows of a lent list of travels, one for each node with a number for each tick.
//   rows     one row: its place, copied, lowered, filled, and looked through
//   leasts   the least travel of each arc
//   work     the lent list as a whole
// Three tables stand beside the rows: `near`, 0 where a node is clean and else never less a number that no
// entry of its row is below; `room`, 0 where it has no number yet and else never less its greatest; and
// `low`, what `near` last had of a clean node (specs/Heights.antt).
// It may call `toward_row` for an arc lowered into a row, `network` for the entries of the file and
// `search_arcs` for comparisons; it cites `theory_loops`, `theory_paths` and `theory_travel`.
#![tactic(auto)]

pub mod leasts;
pub mod rows;
pub mod work;
