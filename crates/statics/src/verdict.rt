// What the types of an expression come to.
use tosca::operators::SimpleType;

// Why an expression has no type.
#[derive(Clone, Copy, PartialEq, Debug)]
pub enum TypeError {
    // a name has no type, or an operand is wrong or at fault
    Wrong,
    // its operands are right, and the operator does not take them
    AtFault,
}

// The type of an expression that is right, or why it has none.
pub type Verdict = Result<SimpleType, TypeError>;
