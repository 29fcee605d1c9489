// The entries of a network file, read in place: one function for each of the eight tables.
// Each contract equates the answer with the entry of the network that the file decodes to; callers see no
// bytes.
ghost use Rattle.std.specs.Prelude.{◌≡◌, ◌<◌};
ghost use Rattle.network.specs.Network;
ghost use Rattle.network.specs.Decode.{decode, Laid};

use crate::header::Layout;

// The cell of node v. The places of both kinds are told apart before they are counted, so that each is
// counted with numbers that are constant.
pub fn cell(file: &[u8], l: Layout, v: usize) -> usize
    requires laid { Laid file.now l }
    requires v_lt_nodes { v < l.nodes }
    ensures { (result ≡ Network.cell (decode file.now) v) × (result < 65536) }
{
    if l.hours == 0 {
        return l.cells_run().field16(file, 0, v);
    }
    l.hours_run().field16(file, 0, v)
}

// The tick at which node v opens.
pub fn opens_at(file: &[u8], l: Layout, v: usize) -> usize
    requires laid { Laid file.now l }
    requires v_lt_nodes { v < l.nodes }
    ensures { (result ≡ Network.opens_at (decode file.now) v) × (result < 65536) }
{
    if l.hours == 0 {
        return 0;
    }
    l.hours_run().field16(file, 2, v)
}

// The tick at which node v closes.
pub fn closes_at(file: &[u8], l: Layout, v: usize) -> usize
    requires laid { Laid file.now l }
    requires v_lt_nodes { v < l.nodes }
    ensures { (result ≡ Network.closes_at (decode file.now) v) × (result < 65536) }
{
    if l.hours == 0 {
        return l.period;
    }
    l.hours_run().field16(file, 4, v)
}

// The tail of arc a.
pub fn tail(file: &[u8], l: Layout, a: usize) -> usize
    requires laid { Laid file.now l }
    requires a_lt_arcs { a < l.arcs }
    ensures { (result ≡ Network.tail (decode file.now) a) × (result < 65536) }
{
    l.arcs_run().field16(file, 0, a)
}

// The head of arc a.
pub fn head(file: &[u8], l: Layout, a: usize) -> usize
    requires laid { Laid file.now l }
    requires a_lt_arcs { a < l.arcs }
    ensures { (result ≡ Network.head (decode file.now) a) × (result < 65536) }
{
    l.arcs_run().field16(file, 2, a)
}

// How many points arc a has.
pub fn count(file: &[u8], l: Layout, a: usize) -> usize
    requires laid { Laid file.now l }
    requires a_lt_arcs { a < l.arcs }
    ensures { (result ≡ Network.count (decode file.now) a) × (result < 65536) }
{
    l.arcs_run().field16(file, 4, a)
}

// The tick of point q.
pub fn tick(file: &[u8], l: Layout, q: usize) -> usize
    requires laid { Laid file.now l }
    requires q_lt_points { q < l.points }
    ensures { (result ≡ Network.tick (decode file.now) q) × (result < 65536) }
{
    l.points_run().field16(file, 0, q)
}

// The travel of point q.
pub fn travel(file: &[u8], l: Layout, q: usize) -> usize
    requires laid { Laid file.now l }
    requires q_lt_points { q < l.points }
    ensures { (result ≡ Network.travel (decode file.now) q) × (result < 65536) }
{
    l.points_run().field16(file, 2, q)
}
