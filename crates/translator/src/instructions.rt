// The parts of instructions that depend on types, values and cells.
ghost use Rattle.std.specs.Prelude.{◌≡◌, suc, ◌<◌};
ghost use Rattle.walk.specs.Readings.{types_of};
ghost use Rattle.aida.specs.Templates.{input_by as input_by_type};
ghost use Rattle.aida.specs.Values.{number as number_of};

use aida::instructions::Instruction;
use tosca::operators::{SimpleType, Value};
use walk::reading::Reading;
use walk::types::Typing;

// The first cell of the temporaries.
pub(crate) const TEMPORARIES: u16 = 64;

// The temporaries that are left while this one is in use. A function of its own, so that a wrong cell is refused here.
pub(crate) fn next_cell(cell: u16) -> u16
    requires { cell < 96 }
    ensures { result ≡ suc cell }
{
    cell + 1
}

// A binary node's operands in the order of their code.
#[derive(Clone, Copy)]
pub(crate) struct Operands {
    pub(crate) first: u16,
    pub(crate) last: u16,
}

// The right operand comes first, and is kept while the left is worked out. A function of its own, so that another order is refused here.
pub(crate) fn in_order(left: u16, right: u16) -> Operands
    ensures first { result.first ≡ right }
    ensures last { result.last ≡ left }
{
    Operands {
        first: right,
        last: left,
    }
}

// T is 1 and F is 0. A function and no From, which would have to stand beside Value, in a crate that knows no cells.
pub(crate) fn number(value: Value) -> i32
    ensures { result ≡ number_of value }
{
    match value {
        Value::Number(z) => z,
        Value::Truth(b) => i32::from(b),
    }
}

// A boolean variable takes a bit.
pub(crate) fn input_by(typing: &Typing, name: u16) -> Instruction
    requires { name < 64 }
    ensures { result ≡ input_by_type (types_of typing.now name) }
{
    match typing.variable(name) {
        Ok(SimpleType::Boolean) => Instruction::InputBit,
        _ => Instruction::Input,
    }
}
