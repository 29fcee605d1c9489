// The entries of nodes, by whether a network holds hours: cells alone (kind 2), or cells with the ticks at
// which a node opens and closes (kind 9).
ghost use Rattle.std.specs.Prelude.{◌≡◌, ◌≤◌, ◌<◌};
ghost use Rattle.file_blocks.specs.Kind.{cell_per, hours_size};
ghost use Rattle.network.specs.Node.{node_kind, node_size, node_per};

use file_blocks::kind::{self, Kind};

// The kind of their blocks.
pub fn node_kind(hours: usize) -> Kind
    ensures number { result.number ≡ node_kind hours }
    ensures size { result.size ≡ node_size hours }
    ensures per { result.per ≡ node_per hours }
    ensures within { (2 ≤ result.size) × (result.size ≤ hours_size) × (0 < result.per)
        × (result.per ≤ cell_per) }
{
    if hours == 0 { kind::CELL } else { kind::HOURS }
}
