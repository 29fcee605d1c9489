// file_refusals: what every operation refuses with: a number of document 01 and three places. It calls
// nothing. An operation answers a `Result` whose error is a `Refusal`; what writes a file or fills a lent list
// answers the file's length or how many entries it filled (specs/Writing.antt, specs/Listing.antt).
//   reason    the causes of refusals, with their numbers
#![tactic(auto)]

pub mod reason;

ghost use Rattle.std.specs.Prelude.{◌≡◌};
ghost use Rattle.file_refusals.specs.Number.{number_of};
ghost use Rattle.file_refusals.specs.Refusal as refusals;

use crate::reason::Reason;

// A refusal. Places that document 01 names none for are 0.
#[derive(Clone, Copy, PartialEq, Eq)]
pub struct Refusal {
    pub number: u32,
    pub first: u32,
    pub second: u32,
    pub third: u32,
}

// The refusal for a cause, at one place.
pub fn refuse(reason: Reason, place: u32) -> Refusal
    ensures { result ≡ refusals.refusal (number_of reason) place }
{
    Refusal {
        number: reason.number(),
        first: place,
        second: 0,
        third: 0,
    }
}

// An answer that is so refused.
pub fn refused<T>(reason: Reason, place: u32) -> Result<T, Refusal>
    ensures { result ≡ refusals.refused (number_of reason) place }
{
    Err(refuse(reason, place))
}
