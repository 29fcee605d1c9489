// The header of a network with its limits, and where the tables of such a network stand in its file.
ghost use Rattle.std.specs.Prelude.{◌≡◌};
ghost use Rattle.network.specs.Limits.{made, WithinLimits};
ghost use Rattle.network.specs.Layout.{layout_of, nodes_run, cells_run, hours_run, arcs_run, points_run};

use crate::limits;
use crate::node::node_kind;
use file_blocks::kind;
use file_blocks::place::Run;

#[derive(Clone, Copy)]
pub struct Header {
    pub number: u32,
    pub period: u16,
    pub nodes: u16,
    pub arcs: u16,
    pub cells: u16,
    pub points: u32,
    pub hours: u16,
}

// The numbers of a header, within the limits or not.
#[derive(Clone, Copy)]
pub struct HeaderNumbers {
    pub number: u32,
    pub period: u32,
    pub nodes: u32,
    pub arcs: u32,
    pub cells: u32,
    pub points: u32,
    pub hours: u32,
}

// The counts of a network as sizes, whether it holds hours (1) or not (0), and the first block of its arcs,
// of its points, and after its last.
#[derive(Clone, Copy)]
pub struct Layout {
    pub period: usize,
    pub nodes: usize,
    pub arcs: usize,
    pub cells: usize,
    pub points: usize,
    pub hours: usize,
    pub arcblock: usize,
    pub pointblock: usize,
    pub blocks: usize,
}

impl Header {
    pub const MOST_TICKS: u32 = limits::MOST_PERIOD as u32;

    pub const MOST_NODES: u32 = limits::MOST_NODES as u32;

    pub const MOST_ARCS: u32 = limits::MOST_ARCS as u32;

    pub const MOST_CELLS: u32 = limits::MOST_CELLS as u32;

    pub const MOST_POINTS: u32 = limits::MOST_POINTS as u32;

    pub const MOST_HOURS: u32 = limits::MOST_HOURS as u32;

    // The header of numbers within the limits, or none.
    #[tactic(auto, unfolding(crate::specs::Limits::made))]
    pub fn new(numbers: HeaderNumbers) -> Option<Header>
        ensures { result ≡ made numbers.number numbers.period numbers.nodes numbers.arcs
            numbers.cells numbers.points numbers.hours }
    {
        let HeaderNumbers {
            number,
            period,
            nodes,
            arcs,
            cells,
            points,
            hours,
        } = numbers;
        if period < 1
            || Header::MOST_TICKS < period
            || nodes < 1
            || Header::MOST_NODES < nodes
            || Header::MOST_ARCS < arcs
            || cells < 1
            || Header::MOST_CELLS < cells
            || Header::MOST_POINTS < points
            || Header::MOST_HOURS < hours
        {
            return None;
        }
        Some(Header {
            number,
            period: period as u16,
            nodes: nodes as u16,
            arcs: arcs as u16,
            cells: cells as u16,
            points,
            hours: hours as u16,
        })
    }

    // Where the tables stand.
    pub fn layout(self) -> Layout
        requires { WithinLimits self }
        ensures { result ≡ layout_of self }
    {
        let nodes = self.nodes as usize;
        let arcs = self.arcs as usize;
        let points = self.points as usize;
        let hours = self.hours as usize;
        let arcblock = 1 + node_kind(hours).blocks(nodes);
        let pointblock = arcblock + kind::ARC.blocks(arcs);
        Layout {
            period: self.period as usize,
            nodes,
            arcs,
            cells: self.cells as usize,
            points,
            hours,
            arcblock,
            pointblock,
            blocks: pointblock + kind::POINT.blocks(points),
        }
    }
}

impl Layout {
    // The entries of the nodes, of the kind that the network has.
    pub fn nodes_run(self) -> Run
        ensures { result ≡ nodes_run self }
    {
        Run {
            from: 1,
            kind: node_kind(self.hours),
            count: self.nodes,
        }
    }

    // The same where no hours are held.
    pub fn cells_run(self) -> Run
        ensures { result ≡ cells_run self }
    {
        Run {
            from: 1,
            kind: kind::CELL,
            count: self.nodes,
        }
    }

    // The same where hours are held.
    pub fn hours_run(self) -> Run
        ensures { result ≡ hours_run self }
    {
        Run {
            from: 1,
            kind: kind::HOURS,
            count: self.nodes,
        }
    }

    // The entries of the arcs.
    pub fn arcs_run(self) -> Run
        ensures { result ≡ arcs_run self }
    {
        Run {
            from: self.arcblock,
            kind: kind::ARC,
            count: self.arcs,
        }
    }

    // The entries of the points.
    pub fn points_run(self) -> Run
        ensures { result ≡ points_run self }
    {
        Run {
            from: self.pointblock,
            kind: kind::POINT,
            count: self.points,
        }
    }
}
