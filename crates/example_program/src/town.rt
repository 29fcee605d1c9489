// The town's files: the network, packed from its tables, and plans, read from files.
use file_refusals::Refusal;
use network::header::HeaderNumbers;
use network::tables::LentTables;
use network_pack::pack::pack_network;
use std::fs;
use std::io::Read;
use std::rt::Files;

// Both files have four blocks.
pub const LONG: usize = 2048;

// Writes the network, with this travel at road 1's second point.
pub fn pack(travel: u16, out: &mut [u8; LONG]) -> Result<u32, Refusal> {
    let numbers = HeaderNumbers {
        number: 9,
        period: 10,
        nodes: 4,
        arcs: 4,
        cells: 2,
        points: 5,
        hours: 0,
    };
    let tables = LentTables {
        cells: &[0, 0, 1, 1],
        opens: &[0; 4],
        closes: &[10; 4],
        tails: &[0, 1, 0, 2],
        heads: &[1, 2, 2, 3],
        counts: &[1, 2, 1, 1],
        ticks: &[0, 0, 5, 0, 0],
        travels: &[2, 3, travel, 6, 1],
    };
    pack_network(numbers, &tables, out)
}

// Reads a file of the folder, as far as it goes and there is room; a missing one counts as empty.
pub fn read(rt: &impl Files, name: &str, out: &mut [u8; LONG]) {
    match fs::open(rt, name) {
        Ok(mut file) => read_full(&mut file, out),
        Err(_) => (),
    }
}

// Reads until there is no more room or nothing more comes. A read that fails counts as the end of the file.
fn read_full(from: &mut impl Read, out: &mut [u8]) {
    let mut done = 0;
    while done < out.len() {
        let count = from.read(&mut out[done..]).unwrap_or(0);
        if count == 0 {
            return;
        }
        done += count;
    }
}
