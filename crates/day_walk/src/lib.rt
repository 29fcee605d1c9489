// day_walk: the runs of a day walked along, without a jump where none is needed: the run that holds a tick,
// and the span over which no run changes.
// It calls nothing but its own; it cites `day_slopes` for runs.
#![tactic(auto)]

pub mod walk;
