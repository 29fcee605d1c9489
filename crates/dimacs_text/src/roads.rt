// The tables of a text's arcs: for arc i its ends and its travel, in the entries i.
use network::limits::MOST_ARCS;

#[derive(Drop)]
pub struct Roads {
    pub tails: [u16; MOST_ARCS],
    pub heads: [u16; MOST_ARCS],
    pub travels: [u16; MOST_ARCS],
}
