// day_sheet: the sheet for the whole day: for one pair of places the arrival for every leaving tick, worked
// out backwards from the target in a lent work list, and left in a lent list. What that call refuses, leaves
// and promises is said in `day_arrivals`.
//   begin    the refusals before the work: 1 to 10 with 37, 25, 34 and 31
//   sheet    refusal 28, or the day's arrivals listed; the work list ends as zero
// It may call `network_validate` to validate the file, `search_chains` and `search_arcs` for tables of arcs,
// `toward_list` and `toward_node` for least travels; it cites `trip_call` for what is asked.
#![tactic(auto)]

pub mod begin;
pub mod sheet;
