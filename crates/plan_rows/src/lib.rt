// plan_rows: the points of a plan's profiles, from rows of least travels: how many there are, and the points
// and their counts put into the plan's file, row by row.
//   count    how many points the rows have
//   points   the points of one row, put into the file
//   rows     the points and counts of all rows of a border
// It may call `toward_points` for where a row has points, `toward_list` for where a row stands, and
// `plan_encode` to put entries; it cites `theory_loops`, `theory_travel` and `plan`.
#![tactic(auto)]

pub mod count;
pub mod points;
pub mod rows;
