// Checks and forms together, for a file that is asked for yes or no: one block of a run while it is at hand,
// and the checks of a file's first blocks. specs/SoundBlock.antt.
ghost use Rattle.std.specs.Prelude.{◌≡◌, ◌*◌, ◌≤◌, ◌<◌, length};
ghost use Rattle.theory_loops.specs.First.{first};
ghost use Rattle.file_fields.specs.Block.{block_size};
ghost use Rattle.file_blocks.specs.Place;
ghost use Rattle.file_blocks.specs.Place.{RunInFile};
ghost use Rattle.file_forms.specs.Read.{bad};
ghost use Rattle.file_forms.specs.SoundBlock.{sound_block};

use crate::form::is_unformed;
use file_blocks::place::Run;
use file_fields::sum::is_good;

// Has block j of a run a right check and its form?
pub fn is_sound_block(file: &[u8], run: Run, j: usize) -> bool
    requires run_in_file { RunInFile run.from run.kind.per run.kind.size run.count file.now }
    requires j_bound { j < Place.blocks run.kind.per run.count }
    ensures { result
        ≡ sound_block file.now run.from run.kind.number run.kind.per run.kind.size run.count j }
{
    is_good(file, run.from + j) && !is_unformed(file, run, j)
}

// The first of the file's first n blocks whose check is wrong, or n.
pub fn first_bad_before(file: &[u8], n: usize) -> usize
    requires { block_size * n ≤ length file.now }
    ensures { result ≡ first n (bad file.now) }
{
    for b in 0..n {
        if !is_good(file, b) {
            return b;
        }
    }
    n
}
