// plan_rounds: the two rounds over the borders of a network whose plan is made: one counts the points of all
// profiles, the other puts points and flags. Both work out the least travels to each border in a lent list.
// It may call `toward_node` for least travels and `plan_rows` and `plan_flags` for points and flags; it cites
// `plan_made` for what the plan is.
//   borders  the borders of a network, with the roads that lead to them (`Borders`)
//   rounds   the two rounds
#![tactic(auto)]

pub mod borders;
pub mod rounds;
