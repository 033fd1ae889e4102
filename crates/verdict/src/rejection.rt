// Why a text is no routine that may be translated.
ghost use Rattle.std.specs.Prelude.{◌≡◌};
ghost use Rattle.verdict.specs.declared.rejection.Rejection.TheVariants.{Unread};
ghost use Rattle.verdict.specs.Verdicts.{rejected_number, rejected_place};

use lexer::token::Refusal;
use statics::rules::Violation;
use tosca::table::Entry;

#[derive(Clone, Copy)]
pub enum Rejection {
    // reading refuses it
    Unread(Refusal),
    // it breaks a static rule; with the entry of the node at fault
    Unsound(Violation, Entry),
}

impl From<Refusal> for Rejection {
    ghost from_gives = { λ refusal rejection. rejection ≡ Unread refusal };

    fn from(refusal: Refusal) -> Rejection {
        Rejection::Unread(refusal)
    }
}

impl Rejection {
    // The number that users see.
    pub fn number(self) -> u8
        ensures { result ≡ rejected_number self }
    {
        match self {
            Rejection::Unread(refusal) => refusal.question.number(),
            Rejection::Unsound(violation, _) => violation.rule.number(),
        }
    }

    // The place in the text.
    pub fn place(self) -> usize
        ensures { result ≡ rejected_place self }
    {
        match self {
            Rejection::Unread(refusal) => refusal.place,
            Rejection::Unsound(_, entry) => usize::from(entry.place),
        }
    }
}
