// What a test of a rule is, and how an operation refuses: by the number of the first check whose condition holds.
#![tactic(auto)]

ghost use Rattle.std.specs.Prelude.{◌≡◌};
ghost use Rattle.checks.specs.Outcomes.{number};

// Why an operation refuses. The paper knows each ground by a number, from 1.
#[derive(Clone, Copy, Debug, PartialEq, Eq)]
pub enum Refusal {
    // n is not 1 to 6.
    Variables = 1,
    // The table's length is no multiple of n.
    Length = 2,
    // A table has more than 4,096 rows.
    Rows = 3,
    // An entry is above 50.
    Entry = 4,
    // The query's length is not n, the degree is above 300, or the bundle has no such table.
    Argument = 5,
    // The rows do not ascend strictly.
    Order = 6,
    // The table is not complete.
    Incomplete = 7,
    // The lent buffer is too short.
    Room = 8,
    // The bundle is too short or too long, or has no table or too many.
    Frame = 9,
    // A table of the bundle begins at another place.
    Place = 10,
    // A table of the bundle passes its end, or bytes remain.
    End = 11,
    // Two rows of a table are equal.
    EqualRows = 12,
}

impl Refusal {
    // The paper's number.
    pub fn number(self) -> u8
        ensures { result ≡ number self }
    {
        self as u8
    }
}
