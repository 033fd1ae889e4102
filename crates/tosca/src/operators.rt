// Types, values and operators. The numbers of types and operators are their codes in the table formats.

#[derive(Clone, Copy, PartialEq, Debug)]
pub enum SimpleType {
    Integer = 1,
    Boolean = 2,
}

// What a constant is, and what a variable holds.
#[derive(Clone, Copy, PartialEq, Debug)]
pub enum Value {
    Number(i32),
    Truth(bool),
}

// Operators of one operand.
#[derive(Clone, Copy, PartialEq, Debug)]
pub enum Unary {
    Negate = 1,
    Not = 2,
}

// Operators of two operands. Their codes come after the unary ones, so that a code is one operator.
#[derive(Clone, Copy, PartialEq, Debug)]
pub enum Binary {
    Add = 3,
    Subtract = 4,
    Multiply = 5,
    Divide = 6,
    Round = 7,
    Less = 8,
    Greater = 9,
    Equal = 10,
    And = 11,
    Or = 12,
}

// Why an operator has no value.
#[derive(Clone, Copy, PartialEq, Debug)]
pub enum Cause {
    Range = 1,
    ZeroDivisor = 2,
}
