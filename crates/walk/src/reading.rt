// Readings of expressions.
ghost use Rattle.std.specs.Prelude.{◌≡◌, ◌<◌};
ghost use Rattle.statics.specs.Folding.{Algebra};

use tosca::operators::{Binary, Unary, Value};

// A reading of expressions: its kind of answer, and the answer for each kind of node from its operands' answers.
pub trait Reading {
    type Answer: Copy;

    ghost algebra: { Self → Algebra Self.Answer };

    fn constant(&self, value: Value) -> Self::Answer
        ensures { result ≡ (algebra self.now).constant value };

    // a bound, and no type that has it: a node may hold any u16, so each pattern that binds a name would still need the proof
    fn variable(&self, name: u16) -> Self::Answer
        requires { name < 64 }
        ensures { result ≡ (algebra self.now).variable name };

    fn unary(&self, op: Unary, operand: Self::Answer) -> Self::Answer
        ensures { result ≡ (algebra self.now).unary op operand };

    fn binary(&self, op: Binary, left: Self::Answer, right: Self::Answer) -> Self::Answer
        ensures { result ≡ (algebra self.now).binary op left right };
}
