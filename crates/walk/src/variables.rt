// The variables that an expression reads.
ghost use Rattle.std.specs.Prelude.{◌≡◌};
ghost use Rattle.draft.specs.Opening.{entries_of};
ghost use Rattle.walk.specs.Walking.{filled};
ghost use Rattle.walk.specs.Readings.{variables, EachReads};

use crate::names::Names;
use crate::reading::Reading;
use crate::walking::walk;
use draft::draft::Draft;
use tosca::operators::{Binary, Unary, Value};

struct Variables;

impl Reading for Variables {
    type Answer = Names;

    ghost algebra = { λ _. variables };

    fn constant(&self, _value: Value) -> Names {
        Names::none()
    }

    fn variable(&self, name: u16) -> Names {
        Names::one(name)
    }

    fn unary(&self, _op: Unary, operand: Names) -> Names {
        operand
    }

    fn binary(&self, _op: Binary, left: Names, right: Names) -> Names {
        left | right
    }
}

// Writes the set of the variables that each expression node reads, as far as there is room.
pub fn variables_read(draft: &Draft, answers: &mut [Names])
    ensures filled { answers.new ≡ filled variables (entries_of draft.now) 0 answers.old }
    ensures meaning { EachReads (entries_of draft.now) answers.new }
{
    walk(&Variables, draft, answers);
}
