// Where the ticks of points side by side in a block do not rise, counted without a jump.
ghost use Rattle.std.specs.Prelude.{◌≡◌, ◌+◌, ◌*◌, ◌<◌, ◌≤◌, length};
ghost use Rattle.theory_loops.specs.Count.{count};
ghost use Rattle.theory_breaks.specs.Tally.{flag};
ghost use Rattle.file_blocks.specs.Kind.{profile_point_size, profile_point_per};
ghost use Rattle.plan_rising.specs.Falls.{falls};
ghost use Rattle.plan_rising.specs.Breaks.{falls_at, break_at};

use file_blocks::kind;
use file_fields::fields::le16;

// Half of the numbers of 16 bits, above every tick of a good plan. Numbers that are moved by it are compared
// as those with a sign are, which a processor does in one step for some at once.
const HALF: u16 = 32768;

// 1 where a tick does not rise above the one before it, 0 where it does: specs/Falls.antt.
pub fn is_break(t: u16, before: u16) -> u16
    ensures { (result ≡ flag (falls t before)) × (result < 2) }
{
    u16::from(t.wrapping_add(HALF) <= before.wrapping_add(HALF))
}

// The same of the word at byte o, and that of the next point.
pub fn break_at(plan: &[u8], o: usize) -> u16
    requires { o + profile_point_size + 2 ≤ length plan.now }
    ensures { (result ≡ flag (falls_at plan.now o)) × (result < 2) }
{
    is_break(le16(plan, o + kind::PROFILE_POINT.size), le16(plan, o))
}

// The breaks of m points behind a point at byte `base`, side by side with it.
pub fn breaks_some(plan: &[u8], base: usize, m: usize) -> usize
    requires { (base + profile_point_size * (m + 1) ≤ length plan.now) × (m < profile_point_per) }
    ensures { result ≡ count m (break_at plan.now base) }
{
    let mut breaks = 0;
    for e in 0..m {
        breaks += usize::from(break_at(plan, base + kind::PROFILE_POINT.size * e));
    }
    breaks
}
