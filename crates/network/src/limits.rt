// The limits of a network's numbers, and the size of its file that follows. The lengths of all tables that
// stand on a stack are these; specs/Limits.antt and specs/Layout.antt have the same by name.
use file_blocks::kind;
use file_fields::BLOCK;

// A tick is half a minute, so a period is a day at most.
pub const MOST_PERIOD: usize = 2880;

pub const MOST_NODES: usize = 512;

pub const MOST_ARCS: usize = 2048;

pub const MOST_CELLS: usize = 64;

pub const MOST_POINTS: usize = 65535;

// Whether hours are held: 1, or 0 where they are not.
pub const MOST_HOURS: usize = 1;

// A header, and the blocks of so many nodes with their hours, arcs and points.
pub const MOST_BLOCKS: usize = 1
    + (MOST_NODES + kind::HOURS.per - 1) / kind::HOURS.per
    + (MOST_ARCS + kind::ARC.per - 1) / kind::ARC.per
    + (MOST_POINTS + kind::POINT.per - 1) / kind::POINT.per;

pub const MOST_BYTES: usize = BLOCK * MOST_BLOCKS;

// The most arcs of a path that comes to no node twice.
pub const MOST_ROADS: usize = MOST_NODES - 1;

// The arrival of a node that is not reached. No arrival comes to it.
pub const NEVER: u32 = 4294967295;
