// day_slopes: the runs of equal value of a line between two points, put after those that are there. Rounding
// stands in `rising` and `falling` alone, and in `climb` and `sink` for lines with a new value at each tick.
// It owns what runs of a day are (specs/Runs.antt). It may call `travel_runs` for steps, and cites
// `theory_travel` for the line.
#![tactic(auto)]

pub mod slopes;
