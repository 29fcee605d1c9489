// The frames of a run of blocks: each block with its head and zeros, before any entry is in.
ghost use Rattle.std.specs.Prelude.{◌≡◌, ◌+◌, ◌*◌, ◌^◌, ◌≤◌, ◌<◌, length};
ghost use Rattle.theory_loops.specs.Fill.{Filled};
ghost use Rattle.file_fields.specs.Block.{block_size, summed_size};
ghost use Rattle.file_blocks.specs.Place;
ghost use Rattle.file_frames.specs.Framed.{frame_byte, block_byte, FrameRoom, Framed};

use file_blocks::place::Run;
use file_fields::{BLOCK, HEAD, SUMMED};
use file_write::write::{write_head, write_zeros};

// Block b: its head, and zeros up to its check.
fn write_frame(out: &mut [u8], b: usize, kind: u8, entries: usize)
    requires { (block_size * b + block_size ≤ length out.old) × (b < 2 ^ 32) × (entries < 65536) }
    ensures { Filled (block_size * b) (block_size * b + summed_size)
        (block_byte (frame_byte kind entries) b) out.old out.new }
{
    write_head(out, b, kind, entries);
    let at = BLOCK * b;
    write_zeros(out, at + HEAD, at + SUMMED);
}

// The blocks of a run.
pub fn frame_run(out: &mut [u8], run: Run)
    requires { FrameRoom run.from run.kind.per run.count (length out.old) }
    ensures { Framed run.kind.number run.kind.per run.count run.from
        (Place.blocks run.kind.per run.count) out.old out.new }
{
    for j in 0..run.blocks() {
        let entries = run.entries_in(j);
        write_frame(out, run.from + j, run.kind.number, entries);
    }
}
