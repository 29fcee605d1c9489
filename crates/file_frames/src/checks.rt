// The checks of a file whose other bytes stand.
ghost use Rattle.std.specs.Prelude.{◌≡◌, ◌*◌, ◌≤◌, length};
ghost use Rattle.file_fields.specs.Block.{block_size};
ghost use Rattle.file_frames.specs.Sealed.{sealed_to};

use file_write::write::write_check;

// The check of every block, in their order.
pub fn write_checks(out: &mut [u8], blocks: usize)
    requires { block_size * blocks ≤ length out.old }
    ensures { out.new ≡ sealed_to blocks out.old }
{
    for b in 0..blocks {
        write_check(out, b);
    }
}
