// A node's note: by how many arcs its label came about, and by which arc last, in one number, so that of two
// notes the lesser is to be kept (specs/Notes.antt).
ghost use Rattle.std.specs.Prelude.{◌≡◌, ◌<◌};
ghost use Rattle.network.specs.Limits.{most_nodes, most_arcs};
ghost use Rattle.search_labels.specs.Notes.{hops_of, arc_of, longer};

use network::limits::MOST_ARCS;

const ARCS: u32 = MOST_ARCS as u32;

// The number of arcs.
pub fn hops(note: u32) -> usize
    ensures { result ≡ hops_of note }
{
    (note / ARCS) as usize
}

// The last arc.
pub fn arc(note: u32) -> usize
    ensures { (result ≡ arc_of note) × (result < most_arcs) }
{
    (note % ARCS) as usize
}

// The least note with one arc more: an arc out of the node brings it and its own number.
pub fn longer(note: u32) -> u32
    requires { hops_of note < most_nodes }
    ensures { result ≡ longer note }
{
    (note / ARCS + 1) * ARCS
}
