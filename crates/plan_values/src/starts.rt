// Where the profiles of a border start among the points of a plan file.
ghost use Rattle.std.specs.Prelude.{◌≡◌, ◌+◌, ◌*◌, ◌≤◌, ◌<◌, length};
ghost use Rattle.theory_loops.specs.Fill.{Filled};
ghost use Rattle.plan.specs.Plan.{point_start};
ghost use Rattle.plan.specs.PlanDecode.{decode_plan};
ghost use Rattle.plan_values.specs.Formed.{Formed};
ghost use Rattle.plan_values.specs.Starts.{start_of};

use network::limits::MOST_NODES;
use plan::header::PlanLayout;
use plan::read;

// The table of where the profiles of border number i start, from where those of the border before it ended.
// Answers where its own end.
pub fn profile_starts(
    plan: &[u8],
    l: PlanLayout,
    i: usize,
    from: usize,
    starts: &mut [u32; MOST_NODES],
) -> usize
    requires formed { Formed plan.now l }
    requires i_lt_borders { (i < l.borders) × (l.nodes ≤ length starts.old) }
    requires from_value { from ≡ point_start (decode_plan plan.now) (i * l.nodes) }
    ensures { (result ≡ point_start (decode_plan plan.now) ((i + 1) * l.nodes))
        × Filled 0 l.nodes (start_of (decode_plan plan.now) l.nodes i)
        starts.old starts.new }
{
    let nodes = l.nodes;
    let mut sum = from;
    for u in 0..nodes {
        starts[u] = sum as u32;
        sum += read::point_count(plan, l, i * nodes + u);
    }
    sum
}
