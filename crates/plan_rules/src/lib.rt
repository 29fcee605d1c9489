// plan_rules: what is asked of a plan's file, rule by rule.
//   header  the first block's form and numbers
//   rules   the rules 17 to 19
// It may call `file_fields`, `file_blocks`, `file_forms`, `network` and `plan`, and cites `theory_loops` and
// `theory_travel`. Both files are read in place.
#![tactic(auto)]

pub mod header;
pub mod rules;
