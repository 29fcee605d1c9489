// day_arrivals: what the sheet for the whole day is, with no code: the call's refusals and what it leaves in
// its two lists (specs/Sheet.antt), which numbers it can give (specs/Numbers.antt), and what its entries are
// in wish 7's words (specs/Promise.antt). `day_sheet` works them out.
#![tactic(auto)]
