// Why a code table cannot be mounted.
ghost use Rattle.std.specs.Prelude.{◌≡◌};
ghost use Rattle.code.specs.Mounting.{unmountable_number};

#[derive(Clone, Copy, PartialEq, Debug)]
pub enum Unmountable {
    // the count is above 2,048, or more than the table's entries
    Count = 41,
    // an entry has an unknown kind or operator
    Entry = 42,
    // a target is past the count, or a cell past 95
    Address = 43,
}

impl Unmountable {
    // The number that users see.
    pub fn number(self) -> u8
        ensures { result ≡ unmountable_number self }
    {
        self as u8
    }
}
