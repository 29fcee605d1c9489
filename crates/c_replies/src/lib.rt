// c_replies: how the desk's answers stand in the numbers that C lends.
// It names what `network`, `plan_check`, `search_path`, `trip_call` and operations that write files or fill
// lists (`file_refusals`) answer, and cites `c_trip`.
#![tactic(auto)]

pub mod numbers;
