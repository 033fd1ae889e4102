// Why a code table does not take a routine's code.
ghost use Rattle.std.specs.Prelude.{◌≡◌};
ghost use Rattle.translator.specs.Refusing.{unfit_number};

#[derive(Clone, Copy, PartialEq, Debug)]
pub enum Unfit {
    // the code has more instructions than the table has entries
    TooShort = 31,
}

impl Unfit {
    // The number that users see.
    pub fn number(self) -> u8
        ensures { result ≡ unfit_number self }
    {
        self as u8
    }
}
