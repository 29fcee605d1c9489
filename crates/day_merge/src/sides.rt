// What is held against one another: a node's own profile, and an arc out of it with the profile of its head.
ghost use Rattle.std.specs.Prelude.{◌≡◌, ◌≤◌, ◌<◌};
ghost use Rattle.day_slopes.specs.Runs.{Short};

use day_walk::walk::DayRuns;

// The runs of the node's profile, of the arc's travel and of its head's profile, over one day, and the bits
// of a tick at which the arc gives just what the node's profile says.
#[derive(Drop)]
pub struct Sides<'n, 't, 'h> {
    pub own: DayRuns<'n, u32>,
    pub arc: DayRuns<'t, u16>,
    pub head: DayRuns<'h, u32>,
    pub same: u8,
    pub ghost one_day: { (arc.period ≡ own.period) × (head.period ≡ own.period) },
    pub ghost some: { (0 < own.period) × (own.period ≤ 65535) },
    pub ghost short: { Short arc.values.now arc.count own.period },
}
