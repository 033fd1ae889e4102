// Why a node table is no draft.
ghost use Rattle.std.specs.Prelude.{◌≡◌};
ghost use Rattle.draft.specs.Opening.{malformed_number};

// Each with the number that users see.
#[derive(Clone, Copy, PartialEq, Debug)]
pub enum Malformed {
    // the count is not 1 to 1,024, or more than the table's entries
    Count = 11,
    // an entry has an unknown kind, operator or type, or a name, value or place out of its range
    Entry = 12,
    // a part does not stand earlier, or is of the wrong sort
    Part = 13,
    // declarations are not first, the only program is not last, or another entry is not a part just once
    Arrangement = 14,
}

impl Malformed {
    // The number that users see.
    pub fn number(self) -> u8
        ensures { result ≡ malformed_number self }
    {
        self as u8
    }
}
