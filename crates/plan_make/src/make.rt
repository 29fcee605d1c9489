// Make plan: refusals 1 to 10 with 37, then 34, 33 and 31, or the plan of the network written.
ghost use Rattle.std.specs.Prelude.{◌≡◌, ◌*◌, ◌^◌, ◌≤◌, ◌<◌, length};
ghost use Rattle.theory_loops.specs.Fill.{overwritten};
ghost use Rattle.file_refusals.specs.Writing.{Writes};
ghost use Rattle.network.specs.Decode.{decode};
ghost use Rattle.network.specs.Layout.{layout_of};
ghost use Rattle.network.specs.Town.{partition_of};
ghost use Rattle.network.specs.Valid.{ValidFile};
ghost use Rattle.plan.specs.PlanLimits.{most_profile_points};
ghost use Rattle.plan_encode.specs.Places.{PlanWritable};
ghost use Rattle.plan_made.specs.File.{made_file, made_header};
ghost use Rattle.plan_rounds.specs.Rounds.{Counted};
ghost use Rattle.plan_make.specs.Make.{MakeCall, MakesOpened, made_into};

use file_fields::BLOCK;
use file_frames::checks::write_checks;
use file_refusals::reason::Reason;
use file_refusals::{Refusal, refused};
use network::header::{Header, Layout};
use network::limits::{MOST_ARCS, MOST_NODES};
use network_validate::validate::validate;
use plan::borders::list_borders;
use plan::header::{PlanHeader, PlanLayout};
use plan::limits::MOST_POINTS;
use plan_encode::entries::put_flags;
use plan_encode::frames::write_frames;
use plan_flags::inside_words;
use plan_rounds::borders::Borders;
use plan_rounds::rounds::{count_points, put_borders};
use search_arcs::times;
use search_chains::chain;
use search_chains::chain::End;
use toward_list::leasts::least_of_arcs;
use toward_list::work::zero;
use toward_node::roads::Roads;

// Writes the plan's file: frames, the entries of all borders, the flag words, and the checks.
fn write_plan(
    borders: &Borders<'_, '_>,
    h: PlanHeader,
    k: PlanLayout,
    work: &mut [u32],
    out: &mut [u8],
)
    requires { PlanWritable h k (length out.old) × (h ≡ made_header (decode borders.now.roads.file.now))
        × (length work.old ≡ borders.now.roads.layout.nodes * borders.now.roads.layout.period) }
    ensures { out.new ≡ overwritten (made_file (decode borders.now.roads.file.now)) out.old }
{
    write_frames(out, h, k);
    let mut words = [0u64; MOST_ARCS];
    inside_words(borders.roads.file, borders.roads.layout, &mut words);
    put_borders(borders, k, work, &mut words, out);
    put_flags(out, k, &words);
    write_checks(out, k.blocks);
}

// Refusal 31, or the plan of so many points written.
fn make_counted(
    h: Header,
    borders: &Borders<'_, '_>,
    points: u32,
    work: &mut [u32],
    out: &mut [u8],
) -> Result<u32, Refusal>
    requires valid_file { ValidFile borders.now.roads.file.now h × (h.number < 2 ^ 32) }
    requires counted { Counted (partition_of (decode borders.now.roads.file.now)) points
        × (points ≤ most_profile_points)
        × (length work.old ≡ borders.now.roads.layout.nodes * borders.now.roads.layout.period) }
    ensures { Writes (made_into (decode borders.now.roads.file.now) (length out.old))
        (made_file (decode borders.now.roads.file.now)) out.old out.new result }
{
    let head = PlanHeader {
        number: h.number,
        period: h.period,
        nodes: h.nodes,
        arcs: h.arcs,
        cells: h.cells,
        borders: borders.nodes.len() as u16,
        points,
    };
    let k = head.layout();
    let long = BLOCK * k.blocks;
    if out.len() < long {
        return refused(Reason::AnswerShort, 0);
    }
    write_plan(borders, head, k, work, out);
    Ok(long as u32)
}

// Refusals 33 and 31, or the plan written, in a work list of exactly the entries that are needed.
fn make_listed(
    file: &[u8],
    h: Header,
    l: Layout,
    work: &mut [u32],
    out: &mut [u8],
) -> Result<u32, Refusal>
    requires valid_file { ValidFile file.now h × (h.number < 2 ^ 32) × (l ≡ layout_of h) }
    requires work_len { length work.old ≡ l.nodes * l.period }
    ensures { Writes (made_into (decode file.now) (length out.old))
        (made_file (decode file.now)) out.old out.new result }
{
    let mut starts = [0u16; MOST_ARCS];
    times::first_points(file, l, &mut starts);
    let mut into = [chain::NONE; MOST_NODES];
    let mut next = [chain::NONE; MOST_ARCS];
    chain::chain(file, l, End::Head, &mut into, &mut next);
    let mut least = [0u16; MOST_ARCS];
    least_of_arcs(file, l, &starts, &mut least);
    let roads = Roads {
        file,
        layout: l,
        starts: &starts,
        into: &into,
        next: &next,
        least: &least,
    };
    let mut list = [0u16; MOST_NODES];
    let count = list_borders(file, l, &mut list);
    let nodes = &list[..count];
    let borders = Borders { roads, nodes };
    let points = count_points(&borders, work);
    if MOST_POINTS < points {
        return refused(Reason::PlanPoints, 0);
    }
    make_counted(h, &borders, points, work, out)
}

// Refusals 34, 33 and 31, or the plan written; past 34 the work list ends as zero.
fn make_opened(file: &[u8], h: Header, work: &mut [u32], out: &mut [u8]) -> Result<u32, Refusal>
    requires { ValidFile file.now h × (h.number < 2 ^ 32) }
    ensures { MakesOpened (decode file.now) work.old work.new
        out.old out.new result }
{
    let l = h.layout();
    let size = l.nodes * l.period;
    if work.len() < size {
        return refused(Reason::WorkShort, 0);
    }
    let answer = make_listed(file, h, l, &mut work[..size], out);
    zero(work, size);
    answer
}

// The length of the plan's file, with the first lent bytes that file; or a refusal, with every lent byte as
// it was. Past 34 the first entries of the work list are zero.
pub fn make_plan(network: &[u8], work: &mut [u32], out: &mut [u8]) -> Result<u32, Refusal>
    ensures { MakeCall network.now work.old work.new out.old
        out.new result }
{
    let h = validate(network)?;
    make_opened(network, h, work, out)
}
