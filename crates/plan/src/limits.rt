// The limits of a plan file; specs/PlanLimits.antt has the same by name. The blocks and bytes follow from the
// limits of a network, since a plan has a flag word for each arc and a profile for each border and node.
use file_blocks::kind;
use file_fields::BLOCK;
use network::limits;

// The points of all profiles.
pub const MOST_POINTS: u32 = 1048576;

pub const MOST_PROFILES: usize = limits::MOST_NODES * limits::MOST_NODES;

pub const MOST_BLOCKS: usize = 1
    + (limits::MOST_ARCS + kind::FLAG.per - 1) / kind::FLAG.per
    + (MOST_PROFILES + kind::COUNT.per - 1) / kind::COUNT.per
    + (MOST_POINTS as usize + kind::PROFILE_POINT.per - 1) / kind::PROFILE_POINT.per;

pub const MOST_BYTES: usize = BLOCK * MOST_BLOCKS;
