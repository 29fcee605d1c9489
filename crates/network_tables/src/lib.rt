// network_tables: the rules 7 to 10 and 37 of a network whose tables are lent, and the first place at which
// one is broken.
//   rules     the rules, table by table
//   steady    do the points of all arcs keep the rules 9 and 10, yes or no?
// It may call `network_rules` and `network_scan` for what the rules ask of one entry, and `network` for the
// header's numbers, and cites `network_steady` and `theory_breaks`.
#![tactic(auto)]

pub mod rules;
mod steady;
