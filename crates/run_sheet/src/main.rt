// run_sheet: the program over `sheet`. It reads the two files of its folder, prints the first line, and then
// takes standard input a byte at a time, with an answer at the end of each line, up to the 64th.
//   files  a file of the folder, read as far as there is room
//   input  standard input, in pieces, and what each byte prints
// It may call `sheet` for the steps and `sheet_text` for the most bytes of a file and of a line, and the
// standard library for its input and output.
#![tactic(auto)]

mod files;
mod input;

use files::{ROOM, read};
use input::answer;
use sheet_text::answer::MOST_LINE;

fn main(rt: HostRuntime) {
    let mut network = [0u8; ROOM];
    let mut plan = [0u8; ROOM];
    let long = read(&rt, "network.blk", &mut network);
    let planned = read(&rt, "plan.blk", &mut plan);
    let mut out = [0u8; MOST_LINE];
    answer(&rt, &network[..long], &plan[..planned], &mut out);
}
