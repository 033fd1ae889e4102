// How many temporaries an expression needs.
ghost use Rattle.std.specs.Prelude.{◌≡◌};
ghost use Rattle.draft.specs.Opening.{entries_of};
ghost use Rattle.statics.specs.Temporaries.{need};
ghost use Rattle.walk.specs.Walking.{filled_by};
ghost use Rattle.walk.specs.Readings.{needing};

use crate::reading::Reading;
use crate::walking::walk;
use draft::draft::Draft;
use tosca::operators::{Binary, Unary, Value};

// Counts to 65,535 at most, which no expression of a draft comes to.
struct Needing;

impl Reading for Needing {
    type Answer = u16;

    ghost algebra = { λ _. needing };

    fn constant(&self, _value: Value) -> u16 {
        0
    }

    fn variable(&self, _name: u16) -> u16 {
        0
    }

    fn unary(&self, _op: Unary, operand: u16) -> u16 {
        operand
    }

    // The right operand is worked out first, and kept while the left is.
    fn binary(&self, _op: Binary, left: u16, right: u16) -> u16 {
        right.max(left.saturating_add(1))
    }
}

// Writes how many temporaries each expression node needs, as far as there is room.
pub fn temporaries(draft: &Draft, answers: &mut [u16])
    ensures { answers.new ≡ filled_by need (entries_of draft.now) 0 answers.old }
{
    walk(&Needing, draft, answers);
}
