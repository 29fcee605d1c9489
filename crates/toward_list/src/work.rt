// The lent work list as a whole, once its numbers are no longer needed.
ghost use Rattle.std.specs.Prelude.{◌≤◌, length};
ghost use Rattle.theory_loops.specs.Fill.{Filled};

// The first entries of the list become zero.
pub fn zero(work: &mut [u32], size: usize)
    requires { size ≤ length work.old }
    ensures { Filled 0 size (λ _. 0) work.old work.new }
{
    work[..size].fill(0);
}
