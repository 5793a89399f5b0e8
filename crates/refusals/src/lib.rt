// The refusals, and the numbers by which the screen shows them.
#![tactic(auto)]

ghost use Rattle.std.specs.Prelude.{◌≡◌};
ghost use Rattle.refusals.specs.Numbers.{number_of};

// Why something is refused, and the number that the screen shows. The rack software gives each of these at its place in the order of what it checks.
#[derive(Clone, Copy, Debug, PartialEq, Eq)]
pub enum Refusal {
    FileLength = 1,
    Edition = 2,
    Ranges = 3,
    Layout = 4,
    Directory = 5,
    Columns = 6,
    Cards = 7,
    SaveBuffer = 8,
    NotInTable = 11,
    Waits = 12,
    Closed = 13,
    NobodyWaits = 14,
    NotHolder = 15,
    FullLoser = 16,
    NotWellFormed = 17,
    Malformed = 18,
    LineCount = 21,
    TooManyNumbers = 22,
    NumberTooGreat = 23,
    StageBuffer = 24,
    StartTooGreat = 25,
    TallyFull = 31,
    NotRobin = 32,
    TallyBad = 41,
}

impl Refusal {
    // The number that the screen shows.
    pub fn number(self) -> u8
        ensures { result ≡ number_of self }
    {
        self as u8
    }
}
