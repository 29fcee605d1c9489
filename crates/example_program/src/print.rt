// Answers as texts: how each is displayed.
use file_refusals::Refusal;
use network::header::Header;
use search_path::answer::Arrival;
use std::fmt;

// A refusal and its three places.
#[derive(Drop)]
struct Refused(Refusal);

impl fmt::Display for Refused {
    fn fmt<W: fmt::Write>(&self, f: &mut fmt::Formatter<W>) -> fmt::Result {
        let r = self.0;
        write!(
            f,
            "refused {} at {}, {}, {}",
            r.number, r.first, r.second, r.third
        )
    }
}

// What packing a network answers.
#[derive(Drop)]
pub struct Packed(pub Result<u32, Refusal>);

impl fmt::Display for Packed {
    fn fmt<W: fmt::Write>(&self, f: &mut fmt::Formatter<W>) -> fmt::Result {
        match self.0 {
            Ok(long) => write!(f, "packed, {long} bytes"),
            Err(r) => write!(f, "{}", Refused(r)),
        }
    }
}

// What opening a network answers.
#[derive(Drop)]
pub struct Opened(pub Result<Header, Refusal>);

impl fmt::Display for Opened {
    fn fmt<W: fmt::Write>(&self, f: &mut fmt::Formatter<W>) -> fmt::Result {
        match self.0 {
            Ok(h) => write!(f, "opened, number {}", h.number),
            Err(r) => write!(f, "{}", Refused(r)),
        }
    }
}

// What the check of a plan answers.
#[derive(Drop)]
pub struct Checked(pub Result<(), Refusal>);

impl fmt::Display for Checked {
    fn fmt<W: fmt::Write>(&self, f: &mut fmt::Formatter<W>) -> fmt::Result {
        match self.0 {
            Ok(()) => write!(f, "accepted"),
            Err(r) => write!(f, "{}", Refused(r)),
        }
    }
}

// A trip: from, to, leave; arrive and the roads of the list that it counts, or the refusal.
#[derive(Drop)]
pub struct Trip<'a> {
    pub from: u32,
    pub to: u32,
    pub leave: u32,
    pub answer: Result<Arrival, Refusal>,
    pub roads: &'a [u16],
}

impl fmt::Display for Trip<'_> {
    fn fmt<W: fmt::Write>(&self, f: &mut fmt::Formatter<W>) -> fmt::Result {
        write!(f, "{} {} {}: ", self.from, self.to, self.leave)?;
        match self.answer {
            Ok(a) => {
                write!(f, "{} by", a.tick)?;
                for road in self.roads.iter().take(a.count) {
                    write!(f, " {road}")?;
                }
                Ok(())
            }
            Err(r) => write!(f, "{}", Refused(r)),
        }
    }
}
