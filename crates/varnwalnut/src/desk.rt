// The entries for desk programs: an answer is a refusal or 0, with lent numbers: the three places of the
// refusal, then the answer's own values. A list of numbers that is shorter than named gives 31 before all
// else, and nothing is written.
ghost use Rattle.network.specs.Tables.{tables};
ghost use Rattle.network_pack.specs.Pack.{numbers};
ghost use Rattle.varnwalnut.specs.Replies.{CheckReply, OpenReply, PackReply, ImportReply, MakeReply};
ghost use Rattle.varnwalnut.specs.Replies.{SheetReply, PlainDesk, FlaggedDesk};

use crate::ANSWER_SHORT;
use c_replies::numbers::{write_checking, write_lists, write_number, write_opening};
use day_sheet::sheet::day_sheet;
use dimacs_import::import::import_dimacs;
use network::header::HeaderNumbers;
use network::tables::{LentTables, LentTablesMut};
use network_open::open::open_network;
use network_pack::pack::pack_network;
use plan_check::check::check_plan;
use plan_make::make::make_plan;
use trip::flagged::flagged_trip;
use trip_plain::plain::plain_trip;

// Is the plan one that the flagged trips of the network may trust? And how many finds that took.
#[unsafe(no_mangle)]
pub extern "C" fn varnwalnut_check_plan(network: &[u8], plan: &[u8], answer: &mut [u32]) -> u32
    ensures { CheckReply network.now plan.now
        answer.old answer.new result }
{
    if answer.len() < 5 {
        return ANSWER_SHORT;
    }
    write_checking(check_plan(network, plan), answer)
}

// The tables of a network file, and its header's numbers.
#[unsafe(no_mangle)]
pub extern "C" fn varnwalnut_open_network(
    network: &[u8],
    cells: &mut [u16],
    opens: &mut [u16],
    closes: &mut [u16],
    from: &mut [u16],
    to: &mut [u16],
    points: &mut [u16],
    ticks: &mut [u16],
    travels: &mut [u16],
    answer: &mut [u32],
) -> u32
    ensures { OpenReply network.now
        (tables cells.old opens.old closes.old from.old
        to.old points.old ticks.old travels.old)
        (tables cells.new opens.new closes.new from.new
        to.new points.new ticks.new travels.new)
        answer.old answer.new result }
{
    if answer.len() < 10 {
        return ANSWER_SHORT;
    }
    let mut tables = LentTablesMut {
        cells,
        opens,
        closes,
        tails: from,
        heads: to,
        counts: points,
        ticks,
        travels,
    };
    write_opening(open_network(network, &mut tables), answer)
}

// The file of a network's tables, and its length.
#[unsafe(no_mangle)]
pub extern "C" fn varnwalnut_pack_network(
    number: u32,
    period: u32,
    nodes: u32,
    arcs: u32,
    cells: u32,
    points: u32,
    hours: u32,
    cellof: &[u16],
    opens: &[u16],
    closes: &[u16],
    tails: &[u16],
    heads: &[u16],
    counts: &[u16],
    ticks: &[u16],
    travels: &[u16],
    out: &mut [u8],
    answer: &mut [u32],
) -> u32
    ensures { PackReply (numbers number period nodes arcs cells points hours)
        (tables cellof.now opens.now closes.now tails.now
        heads.now counts.now ticks.now travels.now)
        out.old out.new answer.old answer.new result }
{
    if answer.len() < 4 {
        return ANSWER_SHORT;
    }
    let numbers = HeaderNumbers {
        number,
        period,
        nodes,
        arcs,
        cells,
        points,
        hours,
    };
    let tables = LentTables {
        cells: cellof,
        opens,
        closes,
        tails,
        heads,
        counts,
        ticks,
        travels,
    };
    write_number(pack_network(numbers, &tables, out), answer)
}

// The file of the network that a DIMACS road file gives, and its length.
#[unsafe(no_mangle)]
pub extern "C" fn varnwalnut_import_dimacs(
    text: &[u8],
    number: u32,
    out: &mut [u8],
    answer: &mut [u32],
) -> u32
    ensures { ImportReply text.now number out.old out.new
        answer.old answer.new result }
{
    if answer.len() < 4 {
        return ANSWER_SHORT;
    }
    write_number(import_dimacs(text, number, out), answer)
}

// The file of the plan that is made of a network, and its length.
#[unsafe(no_mangle)]
pub extern "C" fn varnwalnut_make_plan(
    network: &[u8],
    work: &mut [u32],
    out: &mut [u8],
    answer: &mut [u32],
) -> u32
    ensures { MakeReply network.now work.old work.new
        out.old out.new answer.old answer.new result }
{
    if answer.len() < 4 {
        return ANSWER_SHORT;
    }
    write_number(make_plan(network, work, out), answer)
}

// The arrivals of a whole day from one node to another, and how many there are.
#[unsafe(no_mangle)]
pub extern "C" fn varnwalnut_day_sheet(
    network: &[u8],
    from: u32,
    to: u32,
    work: &mut [u32],
    list: &mut [u32],
    answer: &mut [u32],
) -> u32
    ensures { SheetReply network.now from to work.old work.new
        list.old list.new answer.old answer.new result }
{
    if answer.len() < 4 {
        return ANSWER_SHORT;
    }
    write_number(day_sheet(network, from, to, work, list), answer)
}

// The plain trip with lent lists.
#[unsafe(no_mangle)]
pub extern "C" fn varnwalnut_plain_trip_lists(
    network: &[u8],
    from: u32,
    to: u32,
    departure: u32,
    arrivals: &mut [u32],
    roads: &mut [u16],
    answer: &mut [u32],
) -> u32
    ensures { PlainDesk network.now from to departure
        arrivals.old arrivals.new roads.old roads.new
        answer.old answer.new result }
{
    if answer.len() < 6 {
        return ANSWER_SHORT;
    }
    write_lists(
        plain_trip(network, from, to, departure, arrivals, roads),
        answer,
    )
}

// The flagged trip with lent lists.
#[unsafe(no_mangle)]
pub extern "C" fn varnwalnut_flagged_trip_lists(
    network: &[u8],
    plan: &[u8],
    from: u32,
    to: u32,
    departure: u32,
    arrivals: &mut [u32],
    roads: &mut [u16],
    answer: &mut [u32],
) -> u32
    ensures { FlaggedDesk network.now plan.now from to departure
        arrivals.old arrivals.new roads.old roads.new
        answer.old answer.new result }
{
    if answer.len() < 6 {
        return ANSWER_SHORT;
    }
    write_lists(
        flagged_trip(network, plan, from, to, departure, arrivals, roads),
        answer,
    )
}
