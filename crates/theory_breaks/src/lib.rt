// theory_breaks: points of many runs that stand one run behind the other, and where their order breaks off.
// Theory alone, no code, and it calls nothing; it cites `theory_loops`.
//   specs/Tally.antt   counting by adding up, in parts
//   specs/Breaks.antt  where there are no more breaks than runs, no run has one inside
#![tactic(auto)]
