// The verdict as two plain numbers, for editors. The crate verdict_c exports it for C.
ghost use Rattle.std.specs.Prelude.{◌≡◌};
ghost use Rattle.verdict.specs.Verdicts.{verdict_of, rejected_number, rejected_place};

use crate::judging::judge;
use crate::rejection::Rejection;

// The number of the first question with a no, and its place in the text. C has no Option: zeros stand for none.
#[repr(C)]
#[derive(Clone, Copy)]
pub struct Verdict {
    pub number: u32,
    pub place: usize,
}

impl Verdict {
    const PASSED: Verdict = Verdict {
        number: 0,
        place: 0,
    };
}

impl From<Rejection> for Verdict {
    ghost from_gives = { λ r v. (v.number ≡ rejected_number r) × (v.place ≡ rejected_place r) };

    fn from(rejection: Rejection) -> Verdict {
        Verdict {
            number: u32::from(rejection.number()),
            place: rejection.place(),
        }
    }
}

pub fn wisnoeur_verdict(text: &[u8]) -> Verdict
    ensures number { result.number ≡ (verdict_of text.now).number }
    ensures place { result.place ≡ (verdict_of text.now).place }
{
    match judge(text) {
        Ok(_) => Verdict::PASSED,
        Err(rejection) => Verdict::from(rejection),
    }
}
