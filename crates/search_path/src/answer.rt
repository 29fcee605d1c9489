// Where a trip arrives: the tick of arrival, and the count of roads. A search answers this, or a refusal with its
// number and three places.
#[derive(Clone, Copy, PartialEq, Eq)]
pub struct Arrival {
    pub tick: u32,
    pub count: usize,
}
