// example_program: the worked example, run and printed, a line for each row.
//   town   the town's files: the network packed from its tables, plans read from files
//   print  how answers are displayed
// The same rows are proved from the files' bytes in one theorem (`example_theorem`). The program calls every
// operation, and the standard library for its input and output.
#![tactic(auto)]

mod print;
mod town;

ghost use Rattle.std.specs.Prelude.{◌≡◌};
ghost use Rattle.example_program.specs.Road.{road_travel};

use network::limits::{MOST_NODES, MOST_ROADS, NEVER};
use network::tables::LentTablesMut;
use network_open::open::open_network;
use print::{Checked, Opened, Packed, Trip};
use std::fmt::Display;
use std::rt::Files;
use town::LONG;
use trip::flagged::flagged_trip;
use trip_plain::plain::plain_trip;

const PERIOD: u32 = 10;

// The travel of road 1, the only one out of place 1, at a tick: of the trip from there to place 2 that leaves
// then.
fn travel_at(file: &[u8; LONG], tick: u32) -> u32
    ensures { result ≡ road_travel file.now tick }
{
    let mut arrivals = [NEVER; MOST_NODES];
    let mut roads = [0u16; MOST_ROADS];
    let visit = plain_trip(file, 1, 2, tick, &mut arrivals, &mut roads);
    match visit.trip {
        Ok(a) => a.tick.saturating_sub(tick),
        Err(_) => 0,
    }
}

// Prints a text. Where the system takes no more of it, the program goes on without.
fn say(rt: &impl Print, text: impl Display + Drop) {
    let _ = rt.print(text);
}

// Prints a row.
fn say_row(rt: &impl Print, row: impl Display + Drop) {
    let _ = rt.println(row);
}

// Road 1 over its period, on one line.
fn print_road(rt: &impl Print, file: &[u8; LONG]) {
    say(rt, "road 1:");
    for tick in 0..PERIOD {
        say(rt, format_args!(" {}", travel_at(file, tick)));
    }
    say_row(rt, "");
}

// A file's opening, with tables that are long enough.
fn open(file: &[u8; LONG]) -> Opened {
    let mut tables = LentTablesMut {
        cells: &mut [0; 4],
        opens: &mut [0; 4],
        closes: &mut [0; 4],
        tails: &mut [0; 4],
        heads: &mut [0; 4],
        counts: &mut [0; 4],
        ticks: &mut [0; 5],
        travels: &mut [0; 5],
    };
    Opened(open_network(file, &mut tables))
}

// The network with another travel at road 1's second point.
fn print_second_point(rt: &impl Print, travel: u16) {
    let mut file = [0u8; LONG];
    let packed = Packed(town::pack(travel, &mut file));
    say_row(rt, format_args!("road 1 with (5,{travel}): {packed}"));
}

// The opening of the network in a file.
fn print_file(rt: &(impl Files + Print), name: &str) {
    let mut file = [0u8; LONG];
    town::read(rt, name, &mut file);
    say_row(rt, format_args!("{name}: {}", open(&file)));
}

// A plain trip.
fn print_plain(rt: &impl Print, file: &[u8; LONG], from: u32, to: u32, leave: u32) {
    let mut arrivals = [NEVER; MOST_NODES];
    let mut roads = [0u16; MOST_ROADS];
    let visit = plain_trip(file, from, to, leave, &mut arrivals, &mut roads);
    let trip = Trip {
        from,
        to,
        leave,
        answer: visit.trip,
        roads: &roads,
    };
    say_row(rt, format_args!("plain {trip}"));
}

// A flagged trip.
fn print_flagged(
    rt: &impl Print,
    file: &[u8; LONG],
    plan: &[u8; LONG],
    from: u32,
    to: u32,
    leave: u32,
) {
    let mut arrivals = [NEVER; MOST_NODES];
    let mut roads = [0u16; MOST_ROADS];
    let visit = flagged_trip(file, plan, from, to, leave, &mut arrivals, &mut roads);
    let trip = Trip {
        from,
        to,
        leave,
        answer: visit.trip,
        roads: &roads,
    };
    say_row(rt, format_args!("flagged {trip}"));
}

// The check of the plan in a file.
fn print_check(rt: &(impl Files + Print), file: &[u8; LONG], name: &str) {
    let mut plan = [0u8; LONG];
    town::read(rt, name, &mut plan);
    let checked = Checked(plan_check::check::check_plan(file, &plan).verdict);
    say_row(rt, format_args!("{name}: {checked}"));
}

fn print_trips(rt: &(impl Files + Print), file: &[u8; LONG]) {
    for (from, to, leave) in [
        (0, 2, 0),
        (0, 2, 6),
        (0, 2, 9),
        (0, 3, 0),
        (0, 3, 1),
        (0, 3, 6),
        (0, 3, 7),
        (0, 3, 8),
        (3, 0, 0),
        (3, 3, 4),
    ] {
        print_plain(rt, file, from, to, leave);
    }
    let mut plan = [0u8; LONG];
    town::read(rt, "plan.blk", &mut plan);
    for (from, to, leave) in [(0, 3, 7), (0, 3, 8), (3, 0, 7)] {
        print_flagged(rt, file, &plan, from, to, leave);
    }
}

fn main(rt: HostRuntime) {
    let mut file = [0u8; LONG];
    let packed = Packed(town::pack(7, &mut file));
    print_road(&rt, &file);
    say_row(&rt, format_args!("network: {packed}"));
    say_row(&rt, format_args!("the packed network: {}", open(&file)));
    print_second_point(&rt, 8);
    print_second_point(&rt, 9);
    print_file(&rt, "travel_9.blk");
    print_trips(&rt, &file);
    for name in [
        "plan.blk",
        "rounded_down.blk",
        "flags_1222.blk",
        "flags_3202.blk",
        "travel_5.blk",
        "travel_7.blk",
    ] {
        print_check(&rt, &file, name);
    }
}
