// The header of a plan file, and where the tables of such a plan stand in its file.
ghost use Rattle.std.specs.Prelude.{◌≡◌};
ghost use Rattle.plan.specs.PlanHeader.{PlanWithin};
ghost use Rattle.plan.specs.PlanLayout.{plan_layout_of, flags_run, counts_run, points_run};

use file_blocks::kind;
use file_blocks::place::Run;

// The number of the network that the plan is for, that network's counts, the count of its borders, and the
// points of all profiles.
#[derive(Clone, Copy)]
pub struct PlanHeader {
    pub number: u32,
    pub period: u16,
    pub nodes: u16,
    pub arcs: u16,
    pub cells: u16,
    pub borders: u16,
    pub points: u32,
}

// The counts as sizes, and the first block of the profiles' counts, of their points, and after the last.
#[derive(Clone, Copy)]
pub struct PlanLayout {
    pub period: usize,
    pub nodes: usize,
    pub arcs: usize,
    pub cells: usize,
    pub borders: usize,
    pub profiles: usize,
    pub points: usize,
    pub countblock: usize,
    pub pointblock: usize,
    pub blocks: usize,
}

impl PlanHeader {
    // Where the tables stand.
    pub fn layout(self) -> PlanLayout
        requires { PlanWithin self }
        ensures { result ≡ plan_layout_of self }
    {
        let nodes = self.nodes as usize;
        let arcs = self.arcs as usize;
        let borders = self.borders as usize;
        let points = self.points as usize;
        let profiles = borders * nodes;
        let countblock = 1 + kind::FLAG.blocks(arcs);
        let pointblock = countblock + kind::COUNT.blocks(profiles);
        PlanLayout {
            period: self.period as usize,
            nodes,
            arcs,
            cells: self.cells as usize,
            borders,
            profiles,
            points,
            countblock,
            pointblock,
            blocks: pointblock + kind::PROFILE_POINT.blocks(points),
        }
    }
}

impl PlanLayout {
    // The flag words of the arcs.
    pub fn flags_run(self) -> Run
        ensures { result ≡ flags_run self }
    {
        Run {
            from: 1,
            kind: kind::FLAG,
            count: self.arcs,
        }
    }

    // The counts of points of the profiles.
    pub fn counts_run(self) -> Run
        ensures { result ≡ counts_run self }
    {
        Run {
            from: self.countblock,
            kind: kind::COUNT,
            count: self.profiles,
        }
    }

    // The points of all profiles.
    pub fn points_run(self) -> Run
        ensures { result ≡ points_run self }
    {
        Run {
            from: self.pointblock,
            kind: kind::PROFILE_POINT,
            count: self.points,
        }
    }
}
