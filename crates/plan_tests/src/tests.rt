// The check's test 20 at an arc, and what its tests at a border, a node and a tick are told of: where the
// tables of both files stand, and the border.
ghost use Rattle.std.specs.Prelude.{◌≡◌, ◌<◌};
ghost use Rattle.network.specs.Decode.{decode};
ghost use Rattle.network.specs.Town.{partition_of};
ghost use Rattle.plan.specs.PlanDecode.{decode_plan};
ghost use Rattle.plan_tests.specs.Tests;
ghost use Rattle.plan_tests.specs.Checkable.{Checkable};

use network::header::Layout;
use plan::flag::is_set;
use plan::header::PlanLayout;

// Where the tables of a network file and of its plan stand.
#[derive(Clone, Copy)]
pub struct Layouts {
    pub network: Layout,
    pub plan: PlanLayout,
}

// A border, towards which profiles lead: its number, its node and its cell.
#[derive(Clone, Copy)]
pub struct Target {
    pub number: usize,
    pub node: usize,
    pub cell: usize,
}

// 20: do both ends of an arc lie in a cell whose flag it lacks?
pub fn is_unflagged_inside(network: &[u8], plan: &[u8], l: Layouts, arc: usize) -> bool
    requires checkable { Checkable network.now plan.now l }
    requires arc_lt_arcs { arc < l.network.arcs }
    ensures { result ≡ Tests.fails20 (partition_of (decode network.now))
        (decode_plan plan.now) arc }
{
    let tail = network::read::tail(network, l.network, arc);
    let head = network::read::head(network, l.network, arc);
    let cell = network::read::cell(network, l.network, head);
    if network::read::cell(network, l.network, tail) != cell {
        return false;
    }
    !is_set(plan::read::flag_word(plan, l.plan, arc), cell)
}
