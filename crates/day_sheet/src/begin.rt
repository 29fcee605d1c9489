// The refusals of a day sheet before its work.
ghost use Rattle.std.specs.Prelude.{◌≡◌};
ghost use Rattle.day_arrivals.specs.Sheet.{sheet_asked, sheet_begin};

use file_refusals::reason::Reason;
use file_refusals::{Refusal, refused};
use network::header::Header;
use network_validate::validate::validate;

// The header again, where the two places, the work list and the list will do.
fn ask_sheet(h: Header, from: u32, to: u32, work: usize, list: usize) -> Result<Header, Refusal>
    ensures { result ≡ sheet_asked h from to work list }
{
    if h.nodes as u32 <= from {
        return refused(Reason::Place, from);
    }
    if h.nodes as u32 <= to {
        return refused(Reason::Place, to);
    }
    if work < h.nodes as usize * h.period as usize {
        return refused(Reason::WorkShort, 0);
    }
    if list < h.period as usize {
        return refused(Reason::AnswerShort, 0);
    }
    Ok(h)
}

// 1 to 10 with 37, then 25, 34 and 31.
pub fn begin_sheet(
    network: &[u8],
    from: u32,
    to: u32,
    work: usize,
    list: usize,
) -> Result<Header, Refusal>
    ensures { result ≡ sheet_begin network.now from to work list }
{
    let h = validate(network)?;
    ask_sheet(h, from, to, work, list)
}
