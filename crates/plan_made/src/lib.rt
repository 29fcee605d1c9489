// plan_made: the plan that is made of a network alone, as a definition that computes (specs/Made.antt), its
// file (specs/File.antt), that the check accepts it (specs/Accepts.antt), and what it is in wish 1's words
// (specs/Exactly.antt). It has no code, and cites `plan` for what a plan is, `plan_encode` for its bytes and
// `plan_check` for the check.
#![tactic(auto)]
