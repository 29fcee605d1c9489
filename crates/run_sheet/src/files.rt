// The files of the program's folder, each read into room for one byte more than the sheet takes.
ghost use Rattle.std.specs.Prelude.{◌≡◌, ◌≤◌, length, take};

use sheet_text::head::MOST;
use std::fs;
use std::io::Read;
use std::rt::Files;

// One byte more than the sheet takes, so that a file with more is seen to have more.
pub const ROOM: usize = MOST + 1;

// Reads once, and answers how many bytes came, at the start of the lent ones. A read that fails counts as the
// end of what is read.
pub fn read_some(from: &mut impl Read, bytes: &mut [u8]) -> usize
    ensures in_bounds { result ≤ length bytes.new }
    ensures prefix_len { result ≡ length (take result bytes.new) }
{
    match from.read(bytes) {
        Ok(count) => count,
        Err(_) => 0,
    }
}

// Reads a file as far as there is room, and answers how many bytes came; a missing one counts as empty.
pub fn read(rt: &impl Files, name: &str, out: &mut [u8]) -> usize
    ensures in_bounds { result ≤ length out.new }
    ensures prefix_len { result ≡ length (take result out.new) }
{
    match fs::open(rt, name) {
        Ok(mut file) => read_full(&mut file, out),
        Err(_) => 0,
    }
}

// Reads until there is no more room or nothing more comes.
fn read_full(from: &mut impl Read, out: &mut [u8]) -> usize
    ensures in_bounds { result ≤ length out.new }
    ensures prefix_len { result ≡ length (take result out.new) }
{
    let mut done = 0;
    while done < out.len() {
        let count = read_some(from, &mut out[done..]);
        if count == 0 {
            return done;
        }
        done += count;
    }
    done
}
