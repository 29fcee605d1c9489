// plan_check: the check of a plan against its network, 20 to 24. It owns the theorem that the check accepts
// exactly the plans whose profiles are the true least travels and whose flags are enough
// (specs/CheckPlan.antt, `accepts_exactly`).
//   check   test 20 at all arcs, and the check of two files
//   answer  what the check answers
// It may call `network_validate`, `plan_rules` and `plan_validate` to validate files, `plan_tests` for test
// 20, `plan_judge` for the tests 21 to 24, `search_chains` and `search_arcs` for the arcs out of a node, and
// `network` and `plan` to read both files in place.
#![tactic(auto)]

pub mod answer;
pub mod check;
