// plan_validate: whether a file is a well-formed plan for a network that opens.
//   well_formed  is the file well-formed, yes or no?
//   validate     refusals 11 to 19
// It may call `plan_rules` and `plan_rising` for the rules, `file_fields`, `file_blocks`, `file_forms`,
// `network` and `plan`, and cites `theory_loops`. Both files are read in place.
#![tactic(auto)]

pub mod validate;
mod well_formed;
