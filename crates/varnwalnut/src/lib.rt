// varnwalnut: the C library. It owns its entries, and nothing else: each tests the room for its answer, calls
// one operation and writes what that answered. include/varnwalnut.h declares the entries for C.
//   tablet   the tablet's two trips: an answer in bytes
//   desk     check, open, pack, import, make plan, the day sheet and the trips with lent lists: an answer
//            in numbers
// It may call every operation, and `c_replies` to write what it answered. No entry requires anything.
#![tactic(auto)]

pub mod desk;
pub mod tablet;

use file_refusals::reason::Reason;

// What an entry answers where its own answer has too little room.
const ANSWER_SHORT: u32 = Reason::AnswerShort as u32;
