// The eight tables of a network as a caller lends them, to be read (`LentTables`) or to be written
// (`LentTablesMut`): each may be longer than its count. specs/Tables.antt has their lists.
ghost use Rattle.std.specs.Prelude.{◌≡◌};
ghost use Rattle.network.specs.Tables.{tables_of, tables_in};

#[derive(Clone, Copy)]
pub struct LentTables<'a> {
    // For each node its cell, and the ticks at which it opens and closes.
    pub cells: &'a [u16],
    pub opens: &'a [u16],
    pub closes: &'a [u16],
    // For each arc its tail, its head and the count of its points.
    pub tails: &'a [u16],
    pub heads: &'a [u16],
    pub counts: &'a [u16],
    // For each point its tick and its travel.
    pub ticks: &'a [u16],
    pub travels: &'a [u16],
}

// The same tables, in the same order.
#[derive(Drop)]
pub struct LentTablesMut<'a> {
    pub cells: &'a mut [u16],
    pub opens: &'a mut [u16],
    pub closes: &'a mut [u16],
    pub tails: &'a mut [u16],
    pub heads: &'a mut [u16],
    pub counts: &'a mut [u16],
    pub ticks: &'a mut [u16],
    pub travels: &'a mut [u16],
}

impl LentTablesMut<'_> {
    // The tables as they stand, to be read.
    pub fn lent(&self) -> LentTables<'_>
        ensures { tables_of result ≡ tables_in self.now }
    {
        LentTables {
            cells: self.cells,
            opens: self.opens,
            closes: self.closes,
            tails: self.tails,
            heads: self.heads,
            counts: self.counts,
            ticks: self.ticks,
            travels: self.travels,
        }
    }
}
