// The points of a network file that stand side by side, from one of them on to the end of its block
// (specs/Points.antt). They are read by bytes: only the first of a walk over points costs a division.
ghost use Rattle.std.specs.Prelude.{◌≡◌, ◌+◌, ◌-◌, ◌≤◌, ◌<◌, min};
ghost use Rattle.network.specs.Network;
ghost use Rattle.network.specs.Decode.{decode, Laid};
ghost use Rattle.network.specs.Points.{Placed};

use crate::header::Layout;
use file_blocks::kind::POINT;
use file_fields::BLOCK;
use file_fields::fields::le16;

// A point, the byte at which it starts, and how many points its block can hold from it on.
#[derive(Clone, Copy)]
pub struct Stretch {
    pub first: usize,
    pub at: usize,
    pub room: usize,
}

// The bytes between the points of a block and those of the next.
const BETWEEN: usize = BLOCK - POINT.size * POINT.per;

impl Stretch {
    // From point q on.
    pub fn new(file: &[u8], l: Layout, q: usize) -> Stretch
        requires laid { Laid file.now l }
        requires q_lt_points { q < l.points }
        ensures { (result.first ≡ q) × Placed l result }
    {
        Stretch {
            first: q,
            at: POINT.offset(l.pointblock, q),
            room: POINT.per - q % POINT.per,
        }
    }

    // From the next block's first point on.
    pub fn next(self, file: &[u8], l: Layout) -> Stretch
        requires laid { Laid file.now l }
        requires placed { Placed l self × (self.first + self.room < l.points) }
        ensures { (result.first ≡ self.first + self.room) × Placed l result }
    {
        Stretch {
            first: self.first + self.room,
            at: self.at + POINT.size * self.room + BETWEEN,
            room: POINT.per,
        }
    }

    // From the point after the i-th on, which may be the next block's first.
    pub fn after(self, file: &[u8], l: Layout, i: usize) -> Stretch
        requires laid { Laid file.now l }
        requires placed { Placed l self × (i < self.room) × (self.first + (i + 1) < l.points) }
        ensures { (result.first ≡ self.first + (i + 1)) × Placed l result }
    {
        let passed = i + 1;
        if passed < self.room {
            return Stretch {
                first: self.first + passed,
                at: self.at + POINT.size * passed,
                room: self.room - passed,
            };
        }
        self.next(file, l)
    }

    // How many of its points stand before point `end`.
    pub fn count_before(self, end: usize) -> usize
        requires { self.first ≤ end }
        ensures { result ≡ min self.room (end - self.first) }
    {
        let left = end - self.first;
        if left < self.room { left } else { self.room }
    }

    // The tick of its i-th point, from 0.
    pub fn tick(self, file: &[u8], l: Layout, i: usize) -> usize
        requires laid { Laid file.now l }
        requires placed { Placed l self × (i < self.room) × (self.first + i < l.points) }
        ensures { (result ≡ Network.tick (decode file.now) (self.first + i)) × (result < 65536) }
    {
        le16(file, self.at + POINT.size * i) as usize
    }

    // The travel of its i-th point, from 0.
    pub fn travel(self, file: &[u8], l: Layout, i: usize) -> usize
        requires laid { Laid file.now l }
        requires placed { Placed l self × (i < self.room) × (self.first + i < l.points) }
        ensures { (result ≡ Network.travel (decode file.now) (self.first + i)) × (result < 65536) }
    {
        le16(file, self.at + POINT.size * i + 2) as usize
    }
}
