// node_runs: the tests 22 to 24 at all ticks of a node, towards one border. Each arc out of the node is met
// once: its runs and those of its head's profile are filled and merged with the node's own, or it is
// passed, where its head has no points or where it is too far all day. A byte for each tick then tells
// which tests fail there.
// It may call `arc_runs` and `profile_runs` for runs, `day_merge` to merge them, and `network` and `plan` to
// read both files; it cites `plan_tests` for the tests, `plan_values` for profiles, `search_chains`,
// `day_runs`, `theory_loops` and `theory_paths`.
#![tactic(auto)]

ghost use Rattle.std.specs.Prelude.{◌≡◌, ◌+◌, ◌*◌, ◌^◌, ◌≤◌, ◌<◌, length, ltb};
ghost use Rattle.network.specs.Limits.{most_cells};
ghost use Rattle.network.specs.Network;
ghost use Rattle.network.specs.Decode.{decode};
ghost use Rattle.network.specs.Town.{partition_of};
ghost use Rattle.plan.specs.Plan.{flag, point_count};
ghost use Rattle.plan.specs.PlanDecode.{PlanLaid, decode_plan};
ghost use Rattle.plan_values.specs.Formed.{Formed};
ghost use Rattle.plan_values.specs.Starts.{Started};
ghost use Rattle.plan_tests.specs.Finds.{Counted, node_finds};
ghost use Rattle.plan_tests.specs.Giving.{Prepared};
ghost use Rattle.plan_tests.specs.Failing.{AtBorder};
ghost use Rattle.day_runs.specs.Filling.{Space};
ghost use Rattle.arc_runs.specs.Brief.{Briefs};
ghost use Rattle.plan_tests.specs.Checkable.{Checkable};
ghost use Rattle.node_runs.specs.Bytes.{same_bits};
ghost use Rattle.node_runs.specs.Adds.{Met};
ghost use Rattle.node_runs.specs.Seen.{Seen};
ghost use Rattle.node_runs.specs.Judged.{Judged};
ghost use Rattle.node_runs.specs.Finding.{arc_finds};
ghost use Rattle.node_runs.specs.Ready.{Topped, Opened, Own, Rooms, Low, Lows, Blank};

use arc_runs::brief;
use day_merge::sides::Sides;
use day_walk::walk::DayRuns;
use network::limits::{MOST_ARCS, MOST_NODES};
use plan::flag::is_set;
use plan::header::PlanLayout;
use plan_tests::tests::{Layouts, Target};
use profile_runs::fill_profile;

// Half of a number where a byte holds it, and else the greatest that it holds.
fn half(x: u32) -> u8
    ensures { 2 * result ≤ x }
{
    let part = x / 2;
    if part < 256 { part as u8 } else { 255 }
}

// A byte that a profile is never below twice: by the least of its points, and 0 where it has none.
fn low_value(plan: &[u8], l: PlanLayout, firsts: &[u32; MOST_NODES], i: usize, u: usize) -> u8
    requires formed { Formed plan.now l }
    requires started { Started plan.now l i firsts.now }
    requires i_lt_borders { (i < l.borders) × (u < l.nodes) }
    ensures { Low plan.now l (i * l.nodes + u) result }
{
    if plan::read::point_count(plan, l, i * l.nodes + u) == 0 {
        return 0;
    }
    half(profile_runs::least_value(plan, l, firsts, i, u))
}

// The table of such bytes of all nodes, towards border number i.
pub fn fill_lows(
    plan: &[u8],
    l: PlanLayout,
    firsts: &[u32; MOST_NODES],
    i: usize,
    lows: &mut [u8; MOST_NODES],
)
    requires formed { Formed plan.now l }
    requires started { Started plan.now l i firsts.now }
    requires i_lt_borders { (i < l.borders) × (l.nodes ≤ length lows.old) }
    ensures { Lows plan.now l i l.nodes lows.new
        × (length lows.new ≡ length lows.old) }
{
    let nodes = l.nodes;
    for u in 0..nodes {
        lows[u] = low_value(plan, l, firsts, i, u);
    }
}

// The bits of a tick at which an arc gives the same, and has the flag.
const GIVEN: u8 = 2;

const GIVEN_FLAGGED: u8 = 6;

// The bits of a tick at which an arc gives the same.
fn same_bits(plan: &[u8], l: PlanLayout, arc: usize, cell: usize) -> u8
    requires plan_laid { PlanLaid plan.now l }
    requires arc_lt_arcs { (arc < l.arcs) × (cell < most_cells) }
    ensures { result ≡ same_bits (flag (decode_plan plan.now) arc cell) }
{
    if is_set(plan::read::flag_word(plan, l, arc), cell) {
        return GIVEN_FLAGGED;
    }
    GIVEN
}

// Is even the least travel to the least value more than the greatest?
fn is_far(top: u32, low: u8, least: u32) -> bool
    ensures { result ≡ ltb top (2 * low + least) }
{
    u64::from(top) < 2 * u64::from(low) + u64::from(least)
}

// Takes all marks off.
fn clear(marks: &mut [u8], period: usize)
    requires { period ≤ length marks.old }
    ensures { Blank period marks.new }
{
    for x in 0..period {
        marks[x] = 0;
    }
}

// The runs of a profile, how many they are, and a number that it is never above.
#[derive(Clone, Copy)]
struct Profile {
    runs: usize,
    top: u32,
}

// Fills the runs of a profile that has points, that of border number i and node u, and takes all marks off.
fn open_node(
    plan: &[u8],
    l: PlanLayout,
    firsts: &[u32; MOST_NODES],
    i: usize,
    u: usize,
    so: &mut [u16],
    vo: &mut [u32],
    marks: &mut [u8],
    finds: &mut u64,
) -> Profile
    requires formed { Formed plan.now l }
    requires started { Started plan.now l i firsts.now }
    requires i_lt_borders { (i < l.borders) × (u < l.nodes)
        × (0 < point_count (decode_plan plan.now) (i * l.nodes + u)) }
    requires space { Space so.old vo.old l.period × (l.period ≤ length marks.old) }
    requires u_bound { finds.old + point_count (decode_plan plan.now) (i * l.nodes + u) < 2 ^ 64 }
    ensures { Opened plan.now l (i * l.nodes + u) so.new vo.new result
        × Blank l.period marks.new
        × (finds.new ≡ finds.old
        + point_count (decode_plan plan.now) (i * l.nodes + u)) }
{
    clear(marks, l.period);
    Profile {
        runs: fill_profile(plan, l, firsts, i, u, so, vo, finds),
        top: profile_runs::greatest_value(plan, l, firsts, i, u),
    }
}

// What an arc is met with: the node that it leads to, its travel in brief, and the bits of a tick at which it
// gives the same.
#[derive(Clone, Copy)]
struct Meeting {
    head: usize,
    brief: u8,
    same: u8,
}

// Looks at an arc; where it can add nothing there is no meeting. `briefs` has the arcs' briefs, `lows` a
// number for each node that its profile is never below, and `top` is one that the profile of the arc's tail
// is never above.
fn look(
    network: &[u8],
    plan: &[u8],
    l: Layouts,
    briefs: &[u8; MOST_ARCS],
    lows: &[u8; MOST_NODES],
    target: Target,
    arc: usize,
    top: u32,
) -> Option<Meeting>
    requires checkable { Checkable network.now plan.now l }
    requires briefs { Briefs (decode network.now) l.network.period l.network.arcs briefs.now
        × Lows plan.now l.plan target.number l.plan.nodes lows.now }
    requires arc_lt_arcs { (arc < l.network.arcs) × (target.number < l.plan.borders)
        × (target.cell < most_cells) }
    requires topped { Topped plan.now l target (Network.tail (decode network.now) arc) top }
    ensures { Seen network.now plan.now l target arc result }
{
    let head = network::read::head(network, l.network, arc);
    if plan::read::point_count(plan, l.plan, target.number * l.plan.nodes + head) == 0 {
        return None;
    }
    let brief = briefs[arc];
    if is_far(top, lows[head], brief::least(brief)) {
        return None;
    }
    Some(Meeting {
        head,
        brief,
        same: same_bits(plan, l.plan, arc, target.cell),
    })
}

// Meets an arc, or passes it and finds nothing. Its runs and its head's are merged with those of the node it
// leads out of, which are `so` and `vo`. The lists have one lifetime, since the runs of a day lend two of
// them at one.
fn judge_arc<'r>(
    network: &[u8],
    plan: &[u8],
    l: Layouts,
    points: &[u16; MOST_ARCS],
    briefs: &[u8; MOST_ARCS],
    firsts: &[u32; MOST_NODES],
    lows: &[u8; MOST_NODES],
    target: Target,
    arc: usize,
    so: &'r [u16],
    vo: &'r [u32],
    own: Profile,
    sa: &'r mut [u16],
    va: &'r mut [u16],
    sh: &'r mut [u16],
    vh: &'r mut [u32],
    marks: &mut [u8],
    finds: &mut u64,
)
    requires prepared { Prepared network.now plan.now l points.now firsts.now target }
    requires briefs { Briefs (decode network.now) l.network.period l.network.arcs briefs.now
        × Lows plan.now l.plan target.number l.plan.nodes lows.now }
    requires arc_lt_arcs { (arc < l.network.arcs)
        × Own plan.now l target (Network.tail (decode network.now) arc) so.now vo.now own }
    requires rooms { Rooms l.network.period sa.old va.old sh.old vh.old marks.old }
    requires arc_bound { finds.old + arc_finds (decode network.now) (decode_plan plan.now) target.number arc
        < 2 ^ 64 }
    ensures { Met (partition_of (decode network.now)) (decode_plan plan.now)
        target.cell target.number arc l.network.period marks.old marks.new
        × Counted 0 (arc_finds (decode network.now) (decode_plan plan.now)
        target.number arc) finds.old finds.new }
{
    let Some(to) = look(network, plan, l, briefs, lows, target, arc, own.top) else {
        return;
    };
    let na = brief::fill_runs(network, l.network, points, arc, to.brief, sa, vh, va, finds);
    let nh = fill_profile(plan, l.plan, firsts, target.number, to.head, sh, vh, finds);
    let period = l.network.period;
    let node = DayRuns {
        starts: so,
        values: vo,
        count: own.runs,
        period,
    };
    let arc = DayRuns {
        starts: sa,
        values: va,
        count: na,
        period,
    };
    let head = DayRuns {
        starts: sh,
        values: vh,
        count: nh,
        period,
    };
    let sides = Sides {
        own: node,
        arc,
        head,
        same: to.same,
    };
    day_merge::merge(&sides, marks);
}

// Judges a node whose profile towards the target has points, at all ticks, and counts the finds. The arcs out
// of it are walked by their chain.
pub fn judge_node(
    network: &[u8],
    plan: &[u8],
    l: Layouts,
    points: &[u16; MOST_ARCS],
    briefs: &[u8; MOST_ARCS],
    first: &[u16; MOST_NODES],
    next: &[u16; MOST_ARCS],
    firsts: &[u32; MOST_NODES],
    lows: &[u8; MOST_NODES],
    target: Target,
    node: usize,
    so: &mut [u16],
    vo: &mut [u32],
    sa: &mut [u16],
    va: &mut [u16],
    sh: &mut [u16],
    vh: &mut [u32],
    marks: &mut [u8],
    finds: &mut u64,
)
    requires at_border { AtBorder network.now plan.now l points.now first.now next.now firsts.now
        target }
    requires briefs { Briefs (decode network.now) l.network.period l.network.arcs briefs.now
        × Lows plan.now l.plan target.number l.plan.nodes lows.now }
    requires node_lt_nodes { (node < l.network.nodes)
        × (0 < point_count (decode_plan plan.now) (target.number * l.plan.nodes + node)) }
    requires period_in_bounds { (l.network.period < length so.old) × (l.network.period ≤ length vo.old) }
    requires rooms { Rooms l.network.period sa.old va.old sh.old vh.old marks.old }
    requires node_bound { finds.old + node_finds (decode network.now) (decode_plan plan.now) target.number node
        < 2 ^ 64 }
    ensures { Judged (partition_of (decode network.now)) (decode_plan plan.now)
        target.number node l.network.period marks.new
        × Counted (point_count (decode_plan plan.now) (target.number * l.plan.nodes + node))
        (node_finds (decode network.now) (decode_plan plan.now) target.number node)
        finds.old finds.new }
{
    let own = open_node(
        plan,
        l.plan,
        firsts,
        target.number,
        node,
        so,
        vo,
        marks,
        finds,
    );
    let arcs = l.network.arcs;
    let mut a = usize::from(first[node]);
    while a < arcs {
        judge_arc(
            network, plan, l, points, briefs, firsts, lows, target, a, so, vo, own, sa, va, sh, vh,
            marks, finds,
        );
        a = usize::from(next[a]);
    }
}
