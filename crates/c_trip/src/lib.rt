// c_trip: how the tablet's answer to a trip stands in the bytes that C lends (specs/Reply.antt).
// It may call `file_fields` for fields, and names what `search_path` answers.
#![tactic(auto)]

pub mod trip;
