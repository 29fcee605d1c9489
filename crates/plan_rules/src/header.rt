// The first block of a plan file: its form, its numbers, and whether they are those of a network file that
// has been validated.
ghost use Rattle.std.specs.Prelude.{◌≡◌, ◌≤◌, length};
ghost use Rattle.file_fields.specs.Block.{block_size};
ghost use Rattle.network.specs.Layout.{layout_of};
ghost use Rattle.network.specs.Decode.{decode};
ghost use Rattle.network.specs.Town.{partition_of};
ghost use Rattle.network.specs.Valid.{ValidFile};
ghost use Rattle.plan.specs.Border.{border_count};
ghost use Rattle.plan.specs.PlanHeader.{plan_header_at};
ghost use Rattle.plan.specs.PlanValidate.{first_formed, matching};

use file_blocks::kind;
use file_fields::fields::{le16, le32};
use file_forms::form::is_block_of;
use network::header::{Header, Layout};
use plan::header::PlanHeader;
use plan::{borders, limits};

// The numbers of the first block.
pub fn header_at(plan: &[u8]) -> PlanHeader
    requires { block_size ≤ length plan.now }
    ensures { result ≡ plan_header_at plan.now }
{
    PlanHeader {
        number: le32(plan, 8),
        period: le16(plan, 12),
        nodes: le16(plan, 14),
        arcs: le16(plan, 16),
        cells: le16(plan, 18),
        borders: le16(plan, 20),
        points: le32(plan, 24),
    }
}

// Refusal 13 does not apply: the first block's form, the 16 zero bits among its fill.
pub fn is_first_formed(plan: &[u8]) -> bool
    requires { block_size ≤ length plan.now }
    ensures { result ≡ first_formed plan.now }
{
    is_block_of(plan, 0, kind::PLAN, 1) && le16(plan, 22) == 0
}

// Refusal 14 does not apply: the numbers are the network's.
pub fn is_matching(h: Header, borders: usize, k: PlanHeader) -> bool
    ensures { result ≡ matching h borders k }
{
    if k.number != h.number {
        return false;
    }
    if k.period != h.period {
        return false;
    }
    if k.nodes != h.nodes {
        return false;
    }
    if k.arcs != h.arcs {
        return false;
    }
    if k.cells != h.cells {
        return false;
    }
    let count = k.borders as usize;
    if count != borders {
        return false;
    }
    k.points <= limits::MOST_POINTS
}

// How many borders the network has.
pub fn count_borders(network: &[u8], h: Header, l: Layout) -> usize
    requires valid_file { ValidFile network.now h }
    requires l_value { l ≡ layout_of h }
    ensures { result ≡ border_count (partition_of (decode network.now)) }
{
    borders::count_borders(network, l)
}
