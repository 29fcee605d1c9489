// The tablet's answer to a trip in lent bytes. It returns the refusal, or 0.
ghost use Rattle.std.specs.Prelude.{◌≡◌, ◌≤◌, ◌++◌, length, take, Ok};
ghost use Rattle.std.proofs.lemmas.List.Edits.{sets};
ghost use Rattle.search_path.specs.Says.{trip_says, trip_count};
ghost use Rattle.network.specs.Limits.{most_roads};
ghost use Rattle.c_trip.specs.Reply.{trip_size, bytes, road_bytes, trip_bytes};

use file_fields::fields::{put16, put32};
use file_refusals::Refusal;
use search_path::answer::Arrival;

// The first road numbers of a list.
fn write_roads(roads: &[u16], count: usize, answer: &mut [u8])
    requires { (count ≤ most_roads) × (count ≤ length roads.now) × (trip_size ≤ length answer.old) }
    ensures { answer.new
        ≡ sets answer.old 10 (road_bytes (take count roads.now)) }
{
    for i in 0..count {
        put16(answer, 10 + 2 * i, roads[i]);
    }
}

// A refusal: its number, no arrival and no road.
fn write_refused(number: u32, answer: &mut [u8])
    requires { trip_size ≤ length answer.old }
    ensures { answer.new
        ≡ sets answer.old 0 (bytes 4 number ++ bytes 4 0 ++ bytes 2 0) }
{
    put32(answer, 0, number);
    put32(answer, 4, 0);
    put16(answer, 8, 0);
}

// An arrival: its tick, and its roads.
fn write_arrived(a: Arrival, roads: &[u16], answer: &mut [u8])
    requires { (a.count ≤ most_roads) × (a.count ≤ length roads.now)
        × (trip_size ≤ length answer.old) }
    ensures { answer.new
        ≡ sets answer.old 0 (trip_bytes (Ok a) roads.now) }
{
    put32(answer, 0, 0);
    put32(answer, 4, a.tick);
    put16(answer, 8, a.count as u16);
    write_roads(roads, a.count, answer);
}

// The answer to a trip whose roads stand in a list, and its refusal or 0.
pub fn write_trip(trip: Result<Arrival, Refusal>, roads: &[u16], answer: &mut [u8]) -> u32
    requires { (trip_count trip ≤ most_roads) × (most_roads ≤ length roads.now)
        × (trip_size ≤ length answer.old) }
    ensures code { result ≡ (trip_says trip).number }
    ensures bytes { answer.new
        ≡ sets answer.old 0 (trip_bytes trip roads.now) }
{
    match trip {
        Ok(a) => {
            write_arrived(a, roads, answer);
            0
        }
        Err(r) => {
            write_refused(r.number, answer);
            r.number
        }
    }
}
