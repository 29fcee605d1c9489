// The arrivals of a whole day, from one place to another.
ghost use Rattle.std.specs.Prelude.{◌≡◌, ◌+◌, ◌*◌, ◌≤◌, ◌<◌, length, Ok};
ghost use Rattle.theory_loops.specs.Fill.{Filled};
ghost use Rattle.network.specs.Decode.{decode};
ghost use Rattle.network.specs.Town.{graph_of};
ghost use Rattle.network.specs.Valid.{ValidFile};
ghost use Rattle.search_chains.specs.Town.{Town};
ghost use Rattle.toward_list.specs.Rows.{WorkedRow};
ghost use Rattle.day_arrivals.specs.Sheet.{SheetCall, DaySheet};
ghost use Rattle.day_arrivals.specs.Sheeting.{Asked, EarlyRow, Lists, arrival_in};

use crate::begin::begin_sheet;
use file_refusals::reason::Reason;
use file_refusals::{Refusal, refused};
use network::header::{Header, Layout};
use network::limits::{MOST_ARCS, MOST_NODES, MOST_PERIOD, NEVER};
use search_arcs::times;
use search_chains::chain;
use search_chains::chain::End;
use toward_list::leasts::least_of_arcs;
use toward_list::rows::row_place;
use toward_list::work::zero;
use toward_node::least_travels_from;
use toward_node::roads::Roads;

// The least travels from a node to another, at every tick, in the row of the first.
fn travels_to(file: &[u8], l: Layout, from: usize, to: usize, work: &mut [u32])
    requires town { Town file.now l }
    requires from_lt_nodes { (from < l.nodes) × (to < l.nodes) × (length work.old ≡ l.nodes * l.period) }
    ensures { WorkedRow (graph_of (decode file.now)) to from work.new }
{
    let mut starts = [0u16; MOST_ARCS];
    times::first_points(file, l, &mut starts);
    let mut into = [chain::NONE; MOST_NODES];
    let mut next = [chain::NONE; MOST_ARCS];
    chain::chain(file, l, End::Head, &mut into, &mut next);
    let mut least = [0u16; MOST_ARCS];
    least_of_arcs(file, l, &starts, &mut least);
    let mut row = [0u32; MOST_PERIOD];
    let roads = Roads {
        file,
        layout: l,
        starts: &starts,
        into: &into,
        next: &next,
        least: &least,
    };
    least_travels_from(&roads, to, from, work, &mut row);
}

// The arrivals at the ticks of a day, by a row of travels that starts at place p.
fn put_arrivals(period: usize, p: usize, work: &[u32], list: &mut [u32])
    requires { EarlyRow period p work.now × (period ≤ length list.old) }
    ensures { Filled 0 period (arrival_in work.now p) list.old
        list.new }
{
    for t in 0..period {
        list[t] = t as u32 + work[p + t];
    }
}

// Refusal 28, or the list filled, in a work list of exactly the entries that are needed. A node with no way
// at tick 0 has none at any tick.
fn list_day(
    file: &[u8],
    l: Layout,
    from: usize,
    to: usize,
    work: &mut [u32],
    list: &mut [u32],
) -> Result<u32, Refusal>
    requires town { Town file.now l }
    requires from_lt_nodes { (from < l.nodes) × (to < l.nodes) × (length work.old ≡ l.nodes * l.period)
        × (l.period ≤ length list.old) }
    ensures { Lists (decode file.now) from to list.old list.new result }
{
    travels_to(file, l, from, to, work);
    let p = row_place(l, from);
    let never = work[p] == NEVER;
    if never {
        return refused(Reason::NoWay, 0);
    }
    put_arrivals(l.period, p, work, list);
    Ok(l.period as u32)
}

// The sheet, once nothing before its work is refused; the work list ends as zero.
fn fill_sheet(
    network: &[u8],
    h: Header,
    from: usize,
    to: usize,
    work: &mut [u32],
    list: &mut [u32],
) -> Result<u32, Refusal>
    requires valid_file { ValidFile network.now h }
    requires asked { Asked h from to (length work.old) (length list.old) }
    ensures { SheetCall (Ok h) (decode network.now) from to work.old
        work.new list.old list.new result }
{
    let l = h.layout();
    let size = l.nodes * l.period;
    let answer = list_day(network, l, from, to, &mut work[..size], list);
    zero(work, size);
    answer
}

// From one node to another: the earliest tick of arrival for every leaving tick of the day, in the first
// entries of a list; or a refusal, with the list as it was.
pub fn day_sheet(
    network: &[u8],
    from: u32,
    to: u32,
    work: &mut [u32],
    list: &mut [u32],
) -> Result<u32, Refusal>
    ensures { DaySheet network.now from to work.old work.new
        list.old list.new result }
{
    let h = begin_sheet(network, from, to, work.len(), list.len())?;
    fill_sheet(network, h, from as usize, to as usize, work, list)
}
