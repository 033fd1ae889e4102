// The types of expressions.
ghost use Rattle.std.specs.Prelude.{◌≡◌};
ghost use Rattle.draft.specs.Opening.{entries_of};
ghost use Rattle.statics.specs.Typing.{unary_type as unary_type_of, binary_takes as binary_takes_of, binary_gives as binary_gives_of, value_type as value_type_of, typing};
ghost use Rattle.walk.specs.Walking.{filled};
ghost use Rattle.walk.specs.Readings.{types_of};

use crate::reading::Reading;
use crate::walking::walk;
use draft::draft::Draft;
use statics::verdict::{TypeError, Verdict};
use tosca::operators::{Binary, SimpleType, Unary, Value};

// The types of the names by their numbers, in fixed memory; a name that is not declared has none.
#[derive(Drop)]
pub struct Typing {
    pub(crate) types: [Option<SimpleType>; 64],
}

fn value_type(value: Value) -> SimpleType
    ensures { result ≡ value_type_of value }
{
    match value {
        Value::Number(_) => SimpleType::Integer,
        Value::Truth(_) => SimpleType::Boolean,
    }
}

// What an operator of one operand takes and gives.
fn unary_type(op: Unary) -> SimpleType
    ensures { result ≡ unary_type_of op }
{
    match op {
        Unary::Negate => SimpleType::Integer,
        Unary::Not => SimpleType::Boolean,
    }
}

// What an operator takes on both sides.
fn binary_takes(op: Binary) -> SimpleType
    ensures { result ≡ binary_takes_of op }
{
    match op {
        Binary::And | Binary::Or => SimpleType::Boolean,
        _ => SimpleType::Integer,
    }
}

fn binary_gives(op: Binary) -> SimpleType
    ensures { result ≡ binary_gives_of op }
{
    match op {
        Binary::Add | Binary::Subtract | Binary::Multiply | Binary::Divide | Binary::Round => {
            SimpleType::Integer
        }
        _ => SimpleType::Boolean,
    }
}

impl Reading for Typing {
    type Answer = Verdict;

    ghost algebra = { λ s. typing (types_of s) };

    fn constant(&self, value: Value) -> Verdict {
        Ok(value_type(value))
    }

    fn variable(&self, name: u16) -> Verdict {
        self.types[usize::from(name)].ok_or(TypeError::Wrong)
    }

    fn unary(&self, op: Unary, operand: Verdict) -> Verdict {
        let typ = operand.map_err(|_| TypeError::Wrong)?;
        if typ == unary_type(op) {
            Ok(typ)
        } else {
            Err(TypeError::AtFault)
        }
    }

    fn binary(&self, op: Binary, left: Verdict, right: Verdict) -> Verdict {
        let left = left.map_err(|_| TypeError::Wrong)?;
        let right = right.map_err(|_| TypeError::Wrong)?;
        if left == binary_takes(op) && right == binary_takes(op) {
            Ok(binary_gives(op))
        } else {
            Err(TypeError::AtFault)
        }
    }
}

// Writes the verdict on each expression node, as far as there is room.
pub fn verdicts(types: &Typing, draft: &Draft, answers: &mut [Verdict])
    ensures { answers.new ≡ filled (typing (types_of types.now)) (entries_of draft.now) 0 answers.old }
{
    walk(types, draft, answers);
}
