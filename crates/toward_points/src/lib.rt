// toward_points: the points of a row of travels as a profile: tick 0, and each later tick at which the step
// to the next tick differs from the step before it, the day's end counting as the next day's tick 0. It calls
// no other crate, and cites `theory_travel` for what a point is and `theory_loops` for counting.
#![tactic(auto)]

ghost use Rattle.std.specs.Prelude.{◌≡◌, ◌+◌, ◌≤◌, ◌<◌, ◌^◌, length};
ghost use Rattle.theory_travel.specs.Turns.{turn_count};
ghost use Rattle.toward_points.specs.Row.{entry_of, Low, differ, points_before};

// 1 where the step after a tick is not the step before it.
pub fn turn(before: u32, at: u32, after: u32) -> u32
    requires { (before < 2 ^ 31) × (at < 2 ^ 31) × (after < 2 ^ 31) }
    ensures { result ≡ differ (before + after) (at + at) }
{
    u32::from(before + after != at + at)
}

// How many points a row has from tick a up to tick b, neither of them the first or after the last. The loop
// has no test that leaves it and becomes vector code.
pub fn points_between(row: &[u32], a: usize, b: usize) -> u32
    requires low { Low row.now }
    requires le_a { (1 ≤ a) × (a ≤ b) × (b < length row.now) }
    ensures { points_before row.now a + result ≡ points_before row.now b }
{
    let mut seen = 0;
    for near in row[a - 1..b + 1].windows(3) {
        seen += turn(near[0], near[1], near[2]);
    }
    seen
}

// How many points a row has.
pub fn point_count(row: &[u32]) -> u32
    requires { Low row.now }
    ensures { result ≡ turn_count (entry_of row.now) (length row.now) }
{
    let last = row.len() - 1;
    if last == 0 {
        return 1;
    }
    let middle = points_between(row, 1, last);
    1 + middle + turn(row[last - 1], row[last], row[0])
}
