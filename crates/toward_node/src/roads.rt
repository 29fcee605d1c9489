// The roads of a network for work backwards from a node: its file and layout, with the tables of its arcs
// beside them. Who has one has a valid town, and tables that say what its file says.
ghost use Rattle.toward_list.specs.Leasts.{Leasts};
ghost use Rattle.toward_node.specs.Turn.{Ready};

use network::header::Layout;
use network::limits::{MOST_ARCS, MOST_NODES};

// `starts` has where each arc's points start, `into` the first arc into each node, `next` the arc after each
// into the same node, and `least` each arc's least travel.
#[derive(Clone, Copy)]
pub struct Roads<'a> {
    pub file: &'a [u8],
    pub layout: Layout,
    pub starts: &'a [u16; MOST_ARCS],
    pub into: &'a [u16; MOST_NODES],
    pub next: &'a [u16; MOST_ARCS],
    pub least: &'a [u16; MOST_ARCS],
    pub ghost ready: { Ready file.now layout starts.now into.now next.now },
    pub ghost leasts: { Leasts file.now layout layout.arcs least.now },
}
