// What is said of a text once all its lines are read: its sizes, or refusal 35 where its form or order is
// wrong, 36 where a size, an end or a weight is.
ghost use Rattle.std.specs.Prelude.{◌≡◌};
ghost use Rattle.dimacs_reading.specs.Reading as readings;
ghost use Rattle.dimacs_reading.specs.Reading.{tellable};

use crate::reading::Reading;
use dimacs_line::line::Sizes;
use file_refusals::reason::Reason;
use file_refusals::{Refusal, refuse};

// The number of a line, as it is told: at most the greatest of 32 bits.
fn told(line: usize) -> u32
    ensures { result ≡ tellable line }
{
    u32::try_from(line).unwrap_or(u32::MAX)
}

// The judgement of the lines that have been read: 35 where the last was refused, or the sizes or arcs are
// missing, and 36 where a line is wrong.
#[tactic(auto, unfolding(crate::specs::Reading::judged, crate::specs::Reading::unfinished))]
pub fn judged(r: Reading) -> Result<Sizes, Refusal>
    ensures { result ≡ readings.judged r }
{
    let unfinished = refuse(Reason::TextForm, told(r.lines));
    let sizes = r.sizes.ok_or(unfinished)?;
    if r.stopped || r.seen < sizes.arcs {
        return Err(unfinished);
    }
    match r.wrong {
        Some(line) => Err(refuse(Reason::TextValue, told(line))),
        None => Ok(sizes),
    }
}
