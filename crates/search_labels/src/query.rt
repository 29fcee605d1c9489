// What a trip asks: from which node to which, leaving at which tick.
#[derive(Clone, Copy)]
pub struct Query {
    pub source: u32,
    pub target: u32,
    pub departure: u32,
}
