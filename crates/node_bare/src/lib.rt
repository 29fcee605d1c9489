// node_bare: a node towards one border that is judged without the runs of its arcs. The border itself gets a
// byte for each tick by the runs of its own profile, and a node without points is told by whether an arc out
// of it leads to one that has some.
// It may call `profile_runs` for runs, `network` and `plan` to read both files; it cites
// `plan_tests`, `plan_values`, `day_runs`, `day_slopes`, `search_chains`, `theory_loops` and `theory_paths`.
#![tactic(auto)]

ghost use Rattle.std.specs.Prelude.{◌≡◌, ◌+◌, ◌*◌, ◌^◌, ◌≤◌, ◌<◌, length};
ghost use Rattle.theory_loops.specs.Fill.{Filled};
ghost use Rattle.theory_loops.specs.First;
ghost use Rattle.network.specs.Decode.{decode};
ghost use Rattle.network.specs.Network.{arcs, tail};
ghost use Rattle.network.specs.Town.{partition_of};
ghost use Rattle.search_chains.specs.Chain.{Chained};
ghost use Rattle.plan.specs.Plan.{point_count, profile_value};
ghost use Rattle.plan.specs.PlanDecode.{decode_plan};
ghost use Rattle.plan_values.specs.Formed.{Formed};
ghost use Rattle.plan_values.specs.Starts.{Started};
ghost use Rattle.day_runs.specs.Filling.{Space};
ghost use Rattle.day_slopes.specs.Runs.{Grid};
ghost use Rattle.plan_tests.specs.Checkable.{Checkable};
ghost use Rattle.node_bare.specs.Home.{home_byte, Painted, AtHome};
ghost use Rattle.node_bare.specs.Ahead.{ahead};

use network::limits::{MOST_ARCS, MOST_NODES};
use plan::header::PlanLayout;
use plan_tests::tests::Layouts;

// The byte of a tick at which no test fails, and of one at which the border's own profile is not 0.
pub const PASSED: u8 = 6;

const RAISED: u8 = 14;

// Gives the ticks from a up to b one byte.
pub fn fill(marks: &mut [u8], a: usize, b: usize, byte: u8)
    requires { (a ≤ b) × (b ≤ length marks.old) }
    ensures { Filled a b (λ _. byte) marks.old marks.new }
{
    for x in a..b {
        marks[x] = byte;
    }
}

// The byte of the ticks at which the border's own profile has this value.
fn home_byte(value: u32) -> u8
    ensures { result ≡ home_byte value }
{
    if value == 0 {
        return PASSED;
    }
    RAISED
}

// Gives each tick of a day its byte, by the runs of the border's own profile.
fn mark_runs(starts: &[u16], values: &[u32], n: usize, period: usize, marks: &mut [u8])
    requires grid { Grid starts.now n period }
    requires n_in_bounds { (n < length starts.now) × (n ≤ length values.now) × (period ≤ length marks.old) }
    ensures { Painted starts.now values.now n marks.new }
{
    for k in 0..n {
        fill(
            marks,
            usize::from(starts[k]),
            usize::from(starts[k + 1]),
            home_byte(values[k]),
        );
    }
}

// Gives each tick its byte at the border itself, border number i and node u, by its own profile.
pub fn mark_home(
    plan: &[u8],
    l: PlanLayout,
    firsts: &[u32; MOST_NODES],
    i: usize,
    u: usize,
    so: &mut [u16],
    vo: &mut [u32],
    marks: &mut [u8],
    finds: &mut u64,
)
    requires formed { Formed plan.now l }
    requires started { Started plan.now l i firsts.now }
    requires i_lt_borders { (i < l.borders) × (u < l.nodes) }
    requires space { Space so.old vo.old l.period × (l.period ≤ length marks.old) }
    requires u_bound { finds.old + point_count (decode_plan plan.now) (i * l.nodes + u) < 2 ^ 64 }
    ensures { AtHome (profile_value l.period (decode_plan plan.now) (i * l.nodes + u))
        l.period marks.new
        × (finds.new ≡ finds.old
        + point_count (decode_plan plan.now) (i * l.nodes + u)) }
{
    if plan::read::point_count(plan, l, i * l.nodes + u) == 0 {
        fill(marks, 0, l.period, RAISED);
        return;
    }
    let n = profile_runs::fill_profile(plan, l, firsts, i, u, so, vo, finds);
    mark_runs(so, vo, n, l.period, marks);
}

// Does an arc out of a node lead to one that has points towards border number i?
pub fn is_ahead(
    network: &[u8],
    plan: &[u8],
    l: Layouts,
    first: &[u16; MOST_NODES],
    next: &[u16; MOST_ARCS],
    i: usize,
    node: usize,
) -> bool
    requires checkable { Checkable network.now plan.now l }
    requires chained { Chained (tail (decode network.now)) l.network.nodes l.network.arcs 0
        first.now next.now }
    requires i_lt_borders { (i < l.plan.borders) × (node < l.network.nodes) }
    ensures { result ≡ First.any (arcs (decode network.now))
        (ahead (partition_of (decode network.now)) (decode_plan plan.now) i node) }
{
    let arcs = l.network.arcs;
    let mut a = usize::from(first[node]);
    while a < arcs {
        let head = network::read::head(network, l.network, a);
        if plan::read::point_count(plan, l.plan, i * l.plan.nodes + head) != 0 {
            return true;
        }
        a = usize::from(next[a]);
    }
    false
}
