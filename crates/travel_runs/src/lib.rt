// travel_runs: a day is runs. A line takes whole values, so over a piece its value is the same over runs of
// ticks, and one division tells where all of them begin: a run begins after so many steps, each of the same
// number of parts, of which 4,294,967,296 make a whole tick. That the rounding comes out exact is proved in
// specs/Fixed.antt; which way it goes stands in specs/Runs.antt.
// It calls no other crate, and cites `theory_travel` for the line.
#![tactic(auto)]

ghost use Rattle.std.specs.Prelude.{◌≡◌, ◌≤◌, ◌<◌};
ghost use Rattle.travel_runs.specs.Fixed.{step_up, step_down};

// A step of rise / width, in parts, rounded up.
pub fn step_up(rise: u32, width: usize) -> u64
    requires { (0 < width) × (width ≤ 65536) }
    ensures { result ≡ step_up rise width }
{
    (u64::from(rise) * 4294967296 + (width - 1) as u64) / width as u64
}

// The same, rounded down.
pub fn step_down(rise: u32, width: usize) -> u64
    requires { (0 < width) × (width ≤ 65536) }
    ensures { result ≡ step_down rise width }
{
    u64::from(rise) * 4294967296 / width as u64
}
