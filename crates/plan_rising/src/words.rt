// The breaks of a full block's points by their words of 16 bits, of which every third is a tick, so that a
// processor judges some at once: specs/Words.antt. Five parts of the block are gone through side by side, so
// that one test says for all of them which words are ticks.
ghost use Rattle.std.specs.Prelude.{◌≡◌, ◌+◌, ◌*◌, ◌<◌, ◌≤◌, length};
ghost use Rattle.theory_loops.specs.Count.{count};
ghost use Rattle.file_blocks.specs.Kind.{profile_point_size, profile_point_per};
ghost use Rattle.plan_rising.specs.Breaks.{break_at};
ghost use Rattle.plan_rising.specs.Words.{part_size, word_points, tick_mark, falls_apart};

use crate::breaks::{break_at, breaks_some};
use file_blocks::kind;

// Points in a part: their words fill whole vectors of a processor.
const PART: usize = 16;

const WORDS: usize = 3 * PART;

const PART_SIZE: usize = kind::PROFILE_POINT.size * PART;

// Points in five parts, and those of a full block after them.
const POINTS: usize = 5 * PART;

const REST: usize = kind::PROFILE_POINT.per - 1 - POINTS;

// 1 where word i of a part is a tick, 0 where it is a piece of a travel.
fn is_tick(i: usize) -> u16
    ensures { result ≡ tick_mark i }
{
    u16::from(i % 3 == 0)
}

// How many words fall from one point to the next, of five as far from each other as the parts, the first at
// byte o.
fn falls_apart(plan: &[u8], o: usize) -> u16
    requires { o + 4 * part_size + profile_point_size + 2 ≤ length plan.now }
    ensures { result ≡ falls_apart plan.now o }
{
    let a = break_at(plan, o);
    let b = break_at(plan, o + PART_SIZE);
    let c = break_at(plan, o + 2 * PART_SIZE);
    let d = break_at(plan, o + 3 * PART_SIZE);
    let e = break_at(plan, o + 4 * PART_SIZE);
    a + b + c + d + e
}

// The breaks of five parts of points behind a point at byte `base`, side by side with it.
fn breaks_by_words(plan: &[u8], base: usize) -> u16
    requires { base + profile_point_size * (word_points + 1) ≤ length plan.now }
    ensures { result ≡ count word_points (break_at plan.now base) }
{
    let mut breaks = 0;
    for i in 0..WORDS {
        breaks += is_tick(i) * falls_apart(plan, base + 2 * i);
    }
    breaks
}

// The breaks of m points behind a point at byte `base`, side by side with it: by words, as far as they go,
// where the block is full.
pub fn breaks_beside(plan: &[u8], base: usize, m: usize) -> usize
    requires { (base + profile_point_size * (m + 1) ≤ length plan.now) × (m < profile_point_per) }
    ensures { result ≡ count m (break_at plan.now base) }
{
    if m == POINTS + REST {
        let rest = base + kind::PROFILE_POINT.size * POINTS;
        return usize::from(breaks_by_words(plan, base)) + breaks_some(plan, rest, REST);
    }
    breaks_some(plan, base, m)
}
