// Why an operation refuses: a cause for each number of document 01, by the names that include/varnwalnut.h
// gives them. Specs cite the numbers themselves, as the paper does: specs/Number.antt has them by cause.
ghost use Rattle.std.specs.Prelude.{◌≡◌};
ghost use Rattle.file_refusals.specs.Number as numbers;

#[derive(Clone, Copy, PartialEq, Eq)]
pub enum Reason {
    // The network file.
    NetworkLength = 1,
    NetworkSum = 2,
    NetworkFirst = 3,
    NetworkLimits = 4,
    NetworkSize = 5,
    NetworkForm = 6,
    NetworkCell = 7,
    NetworkRoad = 8,
    NetworkPoint = 9,
    NetworkFifo = 10,
    NetworkHours = 37,
    // The plan file.
    PlanLength = 11,
    PlanSum = 12,
    PlanFirst = 13,
    PlanOther = 14,
    PlanSize = 15,
    PlanForm = 16,
    PlanFlag = 17,
    PlanCount = 18,
    PlanTick = 19,
    // The check of a plan.
    CheckInside = 20,
    CheckBorder = 21,
    CheckLess = 22,
    CheckNoRoad = 23,
    CheckNoFlag = 24,
    // The call.
    Place = 25,
    Departure = 26,
    ArrivalsShort = 27,
    NoWay = 28,
    RoadsShort = 29,
    TableShort = 30,
    AnswerShort = 31,
    // A plan that is made.
    PlanPoints = 33,
    WorkShort = 34,
    // A text that is imported.
    TextForm = 35,
    TextValue = 36,
}

impl Reason {
    pub fn number(self) -> u32
        ensures { result ≡ numbers.number_of self }
    {
        self as u32
    }
}
