// plan_judge: the tests 21 to 24 at all borders, nodes and ticks, in one pass: the lowest that fails
// anywhere, and the first place at which it does. Once a test fails, only those with lower numbers are looked
// for.
// It may call `node_verdict` and `node_runs` for the tests at a node, `arc_runs` for arcs in brief,
// `plan_values` for where profiles start, and `network` to read the file; it cites `plan`, `plan_tests`,
// `search_chains`, `theory_loops` and `theory_paths`.
#![tactic(auto)]

ghost use Rattle.std.specs.Prelude.{◌≡◌, ◌<◌};
ghost use Rattle.network.specs.Decode.{decode};
ghost use Rattle.network.specs.Limits.{most_nodes};
ghost use Rattle.network.specs.Town.{partition_of};
ghost use Rattle.search_chains.specs.Town.{Town};
ghost use Rattle.plan.specs.Border.{border_count, Listed};
ghost use Rattle.plan.specs.PlanDecode.{decode_plan};
ghost use Rattle.arc_runs.specs.Brief.{Briefs};
ghost use Rattle.plan_tests.specs.Giving.{Aimed};
ghost use Rattle.plan_judge.specs.Finding.{Equipped, Lent};
ghost use Rattle.plan_judge.specs.Standing.{Stands};
ghost use Rattle.plan_judge.specs.Tally.{Tally};

use arc_runs::brief;
use network::header::Layout;
use network::limits::{MOST_ARCS, MOST_NODES, MOST_PERIOD};
use node_verdict::{BORDER, NONE};
use plan_tests::tests::{Layouts, Target};
use plan_values::starts;

// The runs of a day, and the tick after the last of them.
const RUN_ENDS: usize = MOST_PERIOD + 1;

// The lowest test that fails so far, and the first place at which it does; 25 while none fails.
#[derive(Clone, Copy)]
pub struct Found {
    pub number: u32,
    pub border: usize,
    pub node: usize,
    pub tick: usize,
}

// Border number i, by the list of borders.
fn target_at(network: &[u8], l: Layout, borders: &[u16; MOST_NODES], i: usize) -> Target
    requires town { Town network.now l }
    requires listed { Listed (partition_of (decode network.now)) borders.now }
    requires i_bound { (i < border_count (partition_of (decode network.now))) × (i < most_nodes) }
    ensures { (result.number ≡ i) × Aimed network.now result }
{
    let node = usize::from(borders[i]);
    Target {
        number: i,
        node,
        cell: network::read::cell(network, l, node),
    }
}

// Goes over the borders, places and ticks. A number lower than any before is noted with the first tick at
// which it fails there; behind a border at which the lowest fails nothing is looked for.
fn first_failing(
    network: &[u8],
    plan: &[u8],
    l: Layouts,
    points: &[u16; MOST_ARCS],
    briefs: &[u8; MOST_ARCS],
    first: &[u16; MOST_NODES],
    next: &[u16; MOST_ARCS],
    borders: &[u16; MOST_NODES],
    firsts: &mut [u32; MOST_NODES],
    lows: &mut [u8; MOST_NODES],
    so: &mut [u16],
    vo: &mut [u32],
    sa: &mut [u16],
    va: &mut [u16],
    sh: &mut [u16],
    vh: &mut [u32],
    marks: &mut [u8],
    finds: &mut u64,
) -> Found
    requires equipped { Equipped network.now plan.now l points.now first.now next.now borders.now }
    requires briefs { Briefs (decode network.now) l.network.period l.network.arcs briefs.now }
    requires lent { Lent firsts.old lows.old so.old vo.old sa.old va.old sh.old vh.old
        marks.old }
    requires finds_value { finds.old ≡ 0 }
    ensures { Stands (partition_of (decode network.now)) (decode_plan plan.now)
        l.plan.borders 0 result
        × Tally (decode network.now) (decode_plan plan.now) l.plan.borders
        result.number finds.new }
{
    let count = l.plan.borders;
    let places = l.network.nodes;
    let period = l.network.period;
    let mut from = 0;
    let mut best = Found {
        number: NONE,
        border: 0,
        node: 0,
        tick: 0,
    };
    'borders: for i in 0..count {
        from = starts::profile_starts(plan, l.plan, i, from, firsts);
        node_runs::fill_lows(plan, l.plan, firsts, i, lows);
        let target = target_at(network, l.network, borders, i);
        'places: for node in 0..places {
            let number = node_verdict::judge(
                best.number,
                network,
                plan,
                l,
                points,
                briefs,
                first,
                next,
                firsts,
                lows,
                target,
                node,
                so,
                vo,
                sa,
                va,
                sh,
                vh,
                marks,
                finds,
            );
            if best.number <= number {
                continue 'places;
            }
            'ticks: for tick in 0..period {
                if node_verdict::fails_at(marks, number, tick) {
                    best = Found {
                        number,
                        border: i,
                        node,
                        tick,
                    };
                    continue 'places;
                }
            }
        }
        if best.number <= BORDER {
            break 'borders;
        }
    }
    best
}

// Judges all borders, over tables that are filled once and room that is used again.
pub fn judge_borders(
    network: &[u8],
    plan: &[u8],
    l: Layouts,
    points: &[u16; MOST_ARCS],
    first: &[u16; MOST_NODES],
    next: &[u16; MOST_ARCS],
    borders: &[u16; MOST_NODES],
    finds: &mut u64,
) -> Found
    requires equipped { Equipped network.now plan.now l points.now first.now next.now borders.now }
    requires finds_value { finds.old ≡ 0 }
    ensures { Stands (partition_of (decode network.now)) (decode_plan plan.now)
        l.plan.borders 0 result
        × Tally (decode network.now) (decode_plan plan.now) l.plan.borders
        result.number finds.new }
{
    let mut briefs = [0u8; MOST_ARCS];
    brief::fill_briefs(network, l.network, points, &mut briefs);
    let mut firsts = [0u32; MOST_NODES];
    let mut lows = [0u8; MOST_NODES];
    let mut so = [0u16; RUN_ENDS];
    let mut vo = [0u32; MOST_PERIOD];
    let mut sa = [0u16; RUN_ENDS];
    let mut va = [0u16; MOST_PERIOD];
    let mut sh = [0u16; RUN_ENDS];
    let mut vh = [0u32; MOST_PERIOD];
    let mut marks = [0u8; MOST_PERIOD];
    first_failing(
        network,
        plan,
        l,
        points,
        &briefs,
        first,
        next,
        borders,
        &mut firsts,
        &mut lows,
        &mut so,
        &mut vo,
        &mut sa,
        &mut va,
        &mut sh,
        &mut vh,
        &mut marks,
        finds,
    )
}
