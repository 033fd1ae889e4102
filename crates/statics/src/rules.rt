// The static rules, in the order in which they are asked, and how a routine breaks one.
ghost use Rattle.std.specs.Prelude.{◌≡◌};
ghost use Rattle.statics.specs.Checking.{rule_number};

#[derive(Clone, Copy, PartialEq, Debug)]
pub enum Rule {
    // each name is declared once
    DeclaredOnce = 21,
    // each name used is declared
    Declared = 22,
    // types are right
    Typed = 23,
    // a variable is read only where it is set
    Set = 24,
    // an expression needs at most 32 temporaries
    Temporaries = 25,
}

impl Rule {
    // The number that users see.
    pub fn number(self) -> u8
        ensures { result ≡ rule_number self }
    {
        self as u8
    }
}

// The first rule that is broken, and the lowest node at fault for it.
#[derive(Clone, Copy, PartialEq, Debug)]
pub struct Violation {
    pub rule: Rule,
    pub node: u16,
}
