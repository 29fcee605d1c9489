// profile_runs: the numbers of a profile over the day, from its points as the plan file has them: as runs of
// equal value, their least and their greatest. Each point is read once, so its runs take as many finds as
// it has points. A profile without points has no numbers, and is not asked for.
//   points  a reader of the points
// It may call `plan` for the entries of the file, `file_blocks` for the walk over points and `day_runs` for
// runs; it cites `plan_values` and `theory_paths` for profiles and `theory_travel` for the line.
#![tactic(auto)]

mod points;

ghost use Rattle.std.specs.Prelude.{◌≡◌, ◌+◌, ◌*◌, ◌^◌, ◌<◌};
ghost use Rattle.plan.specs.Plan.{point_count, point_start};
ghost use Rattle.plan.specs.PlanDecode.{decode_plan};
ghost use Rattle.plan_values.specs.Formed.{Formed};
ghost use Rattle.plan_values.specs.Starts.{Started};
ghost use Rattle.day_slopes.specs.Runs.{Runs};
ghost use Rattle.day_runs.specs.Filling.{Space};
ghost use Rattle.day_runs.specs.Bounds.{Floor, Ceiling};
ghost use Rattle.profile_runs.specs.Numbers.{number_at};

use crate::points::ProfilePoints;
use day_runs::points::{fill_day, greatest_point, least_point};
use network::limits::MOST_NODES;
use plan::header::PlanLayout;
use plan::read;

// The first point of the profile of border number i and node u, which has points: `firsts` is the table of
// where that border's profiles start.
fn first_point<'a>(
    plan: &'a [u8],
    l: &'a PlanLayout,
    firsts: &[u32; MOST_NODES],
    i: usize,
    u: usize,
) -> ProfilePoints<'a>
    requires formed { Formed plan.now l.now }
    requires started { Started plan.now l.now i firsts.now }
    requires i_lt_borders { (i < l.now.borders) × (u < l.now.nodes)
        × (0 < point_count (decode_plan plan.now) (i * l.now.nodes + u)) }
    ensures { (result.plan.now ≡ plan.now) × (result.layout.now ≡ l.now)
        × (result.point ≡ point_start (decode_plan plan.now) (i * l.now.nodes + u)) }
{
    ProfilePoints::new(plan, l, firsts[u] as usize)
}

// The runs of that profile. Answers their number.
pub fn fill_profile(
    plan: &[u8],
    l: PlanLayout,
    firsts: &[u32; MOST_NODES],
    i: usize,
    u: usize,
    starts: &mut [u16],
    values: &mut [u32],
    finds: &mut u64,
) -> usize
    requires formed { Formed plan.now l }
    requires started { Started plan.now l i firsts.now }
    requires i_lt_borders { (i < l.borders) × (u < l.nodes)
        × (0 < point_count (decode_plan plan.now) (i * l.nodes + u)) }
    requires space { Space starts.old values.old l.period }
    requires u_bound { finds.old + point_count (decode_plan plan.now) (i * l.nodes + u) < 2 ^ 64 }
    ensures { Runs starts.new values.new result l.period
        (number_at l.period (decode_plan plan.now) (i * l.nodes + u))
        × (finds.new ≡ finds.old
        + point_count (decode_plan plan.now) (i * l.nodes + u)) }
{
    let first = first_point(plan, &l, firsts, i, u);
    let count = read::point_count(plan, l, i * l.nodes + u);
    fill_day(first, count, l.period, starts, values, finds)
}

// A number that a profile with points is never below: the least of its points.
pub fn least_value(
    plan: &[u8],
    l: PlanLayout,
    firsts: &[u32; MOST_NODES],
    i: usize,
    u: usize,
) -> u32
    requires formed { Formed plan.now l }
    requires started { Started plan.now l i firsts.now }
    requires i_lt_borders { (i < l.borders) × (u < l.nodes)
        × (0 < point_count (decode_plan plan.now) (i * l.nodes + u)) }
    ensures { Floor (number_at l.period (decode_plan plan.now) (i * l.nodes + u))
        l.period result }
{
    let first = first_point(plan, &l, firsts, i, u);
    let count = read::point_count(plan, l, i * l.nodes + u);
    least_point(first, count)
}

// A number that it is never above: the greatest of its points.
pub fn greatest_value(
    plan: &[u8],
    l: PlanLayout,
    firsts: &[u32; MOST_NODES],
    i: usize,
    u: usize,
) -> u32
    requires formed { Formed plan.now l }
    requires started { Started plan.now l i firsts.now }
    requires i_lt_borders { (i < l.borders) × (u < l.nodes)
        × (0 < point_count (decode_plan plan.now) (i * l.nodes + u)) }
    ensures { Ceiling (number_at l.period (decode_plan plan.now) (i * l.nodes + u))
        l.period result }
{
    let first = first_point(plan, &l, firsts, i, u);
    let count = read::point_count(plan, l, i * l.nodes + u);
    greatest_point(first, count)
}
