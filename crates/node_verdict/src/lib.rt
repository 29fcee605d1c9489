// node_verdict: the lowest of the tests 21 to 24 that fails at a node towards one border, by a byte for each
// tick that also tells at which ticks it does: of the border itself and of a node without points as
// `node_bare` tells of them, and of any other as `node_runs` leaves it.
// It may call `node_bare` and `node_runs` to judge a node, and `plan` to read the file; it cites `plan_tests`
// for the tests, `network`, `plan_values`, `profile_runs`, `search_chains`, `arc_runs`, `theory_loops` and
// `theory_paths`.
#![tactic(auto)]

ghost use Rattle.std.specs.Prelude.{◌≡◌, ◌≢◌, ◌+◌, ◌*◌, ◌^◌, ◌≤◌, ◌<◌, length};
ghost use Rattle.network.specs.Decode.{decode};
ghost use Rattle.network.specs.Network.{tail};
ghost use Rattle.search_chains.specs.Chain.{Chained};
ghost use Rattle.network.specs.Town.{partition_of};
ghost use Rattle.plan.specs.Border.{border_at};
ghost use Rattle.plan.specs.Plan.{point_count};
ghost use Rattle.plan.specs.PlanDecode.{decode_plan};
ghost use Rattle.arc_runs.specs.Brief.{Briefs};
ghost use Rattle.plan_tests.specs.Checkable.{Checkable};
ghost use Rattle.plan_tests.specs.Failing.{AtBorder};
ghost use Rattle.plan_tests.specs.Finds.{node_finds};
ghost use Rattle.node_runs.specs.Ready.{Rooms, Lows};
ghost use Rattle.node_verdict.specs.Lowest.{bit_of, tells, Lowest, Tallied};
ghost use Rattle.node_verdict.specs.Marks.{offs, Marked};

use file_refusals::reason::Reason;
use network::limits::{MOST_ARCS, MOST_NODES};
use node_bare::{PASSED, fill, is_ahead, mark_home};
use plan_tests::tests::{Layouts, Target};

// The tests by their numbers, and what comes after the last of them: none fails.
pub const BORDER: u32 = Reason::CheckBorder as u32;

const LESS: u32 = Reason::CheckLess as u32;

const NO_ROAD: u32 = Reason::CheckNoRoad as u32;

const NO_FLAG: u32 = Reason::CheckNoFlag as u32;

pub const NONE: u32 = NO_FLAG + 1;

// The byte of a tick at which 22 fails.
const UNDERCUT: u8 = 7;

// The bit of a test, which differs from that of 6 where the test fails.
fn bit_of(number: u32) -> u8
    ensures { result ≡ bit_of number }
{
    if number == BORDER {
        return 8;
    }
    if number == LESS {
        return 1;
    }
    if number == NO_ROAD {
        return 2;
    }
    4
}

// Does the test with this number fail at a tick, by the tick's byte?
pub fn fails_at(marks: &[u8], number: u32, tick: usize) -> bool
    requires { tick < length marks.now }
    ensures { result ≡ tells marks.now number tick }
{
    (marks[tick] ^ PASSED) & bit_of(number) != 0
}

// The bits in which any of the first bytes is not as 6.
fn off_bits(marks: &[u8], period: usize) -> u8
    requires { period ≤ length marks.now }
    ensures { result ≡ offs marks.now period }
{
    let mut off = 0u8;
    for x in 0..period {
        off = off | (marks[x] ^ PASSED);
    }
    off
}

// The lowest test that fails at any tick, by the ticks' bytes.
fn judge_marks(marks: &[u8], period: usize) -> u32
    requires { period ≤ length marks.now }
    ensures { Marked marks.now period result }
{
    let off = off_bits(marks, period);
    if off & 8 != 0 {
        return BORDER;
    }
    if off & 1 != 0 {
        return LESS;
    }
    if off & 2 != 0 {
        return NO_ROAD;
    }
    if off & 4 != 0 {
        return NO_FLAG;
    }
    NONE
}

// Judges a node without points, which is not the border.
fn judge_blank(
    network: &[u8],
    plan: &[u8],
    l: Layouts,
    first: &[u16; MOST_NODES],
    next: &[u16; MOST_ARCS],
    i: usize,
    node: usize,
    marks: &mut [u8],
) -> u32
    requires checkable { Checkable network.now plan.now l }
    requires chained { Chained (tail (decode network.now)) l.network.nodes l.network.arcs 0
        first.now next.now }
    requires i_lt_borders { (i < l.plan.borders) × (node < l.network.nodes)
        × (point_count (decode_plan plan.now) (i * l.plan.nodes + node) ≡ 0)
        × (node ≢ border_at (partition_of (decode network.now)) i) }
    requires period_in_bounds { l.network.period ≤ length marks.old }
    ensures { Lowest (partition_of (decode network.now)) (decode_plan plan.now)
        i node l.network.period 25 result marks.new }
{
    let ahead = is_ahead(network, plan, l, first, next, i, node);
    if ahead {
        fill(marks, 0, l.network.period, UNDERCUT);
        return LESS;
    }
    NONE
}

// The lowest test below the limit that fails at a node; its ticks are told by `marks`.
pub fn judge(
    limit: u32,
    network: &[u8],
    plan: &[u8],
    l: Layouts,
    points: &[u16; MOST_ARCS],
    briefs: &[u8; MOST_ARCS],
    first: &[u16; MOST_NODES],
    next: &[u16; MOST_ARCS],
    firsts: &[u32; MOST_NODES],
    lows: &[u8; MOST_NODES],
    target: Target,
    node: usize,
    so: &mut [u16],
    vo: &mut [u32],
    sa: &mut [u16],
    va: &mut [u16],
    sh: &mut [u16],
    vh: &mut [u32],
    marks: &mut [u8],
    finds: &mut u64,
) -> u32
    requires at_border { AtBorder network.now plan.now l points.now first.now next.now firsts.now
        target }
    requires briefs { Briefs (decode network.now) l.network.period l.network.arcs briefs.now
        × Lows plan.now l.plan target.number l.plan.nodes lows.now }
    requires limit_bound { (limit ≤ 25) × (node < l.network.nodes) }
    requires period_in_bounds { (l.network.period < length so.old) × (l.network.period ≤ length vo.old) }
    requires rooms { Rooms l.network.period sa.old va.old sh.old vh.old marks.old }
    requires node_bound { finds.old + node_finds (decode network.now) (decode_plan plan.now) target.number node
        < 2 ^ 64 }
    ensures { Lowest (partition_of (decode network.now)) (decode_plan plan.now)
        target.number node l.network.period limit result marks.new
        × Tallied limit
        (point_count (decode_plan plan.now) (target.number * l.plan.nodes + node))
        (node_finds (decode network.now) (decode_plan plan.now) target.number node)
        finds.old finds.new }
{
    if node == target.node {
        mark_home(
            plan,
            l.plan,
            firsts,
            target.number,
            node,
            so,
            vo,
            marks,
            finds,
        );
        return judge_marks(marks, l.network.period);
    }
    if limit <= LESS {
        return NONE;
    }
    if plan::read::point_count(plan, l.plan, target.number * l.plan.nodes + node) == 0 {
        return judge_blank(network, plan, l, first, next, target.number, node, marks);
    }
    node_runs::judge_node(
        network, plan, l, points, briefs, first, next, firsts, lows, target, node, so, vo, sa, va,
        sh, vh, marks, finds,
    );
    judge_marks(marks, l.network.period)
}
