// text_spaced: numbers one space apart, read a byte at a time into a small state.
// What such numbers are is said in `text_numbers` (specs/Spaced.antt), and that it is exactly these that are
// read here (specs/SpacedExact.antt). It calls nothing but its own.
#![tactic(auto)]

pub mod spaced;
