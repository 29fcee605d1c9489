// plan_make: Make plan: the plan that is made of a network alone, written into lent bytes. Least travels to
// each border are worked out in a lent list, twice: a first round counts the points, so that nothing is
// written where something is refused, and a second one writes. Refusals 34, 33 and 31, or the plan; the lent
// list ends as zero.
// It may call `network_validate` to validate the file, `search_chains`, `search_arcs` and `plan` for tables
// of arcs and borders, `plan_rounds` for the rounds over the borders, and `plan_encode` to write, and takes
// the roads of `toward_node`; it cites `plan_made` for what the plan is.
#![tactic(auto)]

pub mod make;
