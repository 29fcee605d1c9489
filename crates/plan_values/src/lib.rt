// plan_values: the profiles of a plan file: what their readers rest on, and values compared, which is theory
// alone, and where the profiles of a border start.
//   starts   the table of where the profiles of a border start
// It may call `plan` for the entries of the file, and cites `theory_loops`, `theory_paths` and
// `theory_travel`.
#![tactic(auto)]

pub mod starts;
