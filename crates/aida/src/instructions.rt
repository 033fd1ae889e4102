// Aida's instructions. A cell is a number up to 95, a target is the number of an instruction.
use tosca::operators::{Binary, Unary};

#[derive(Clone, Copy, PartialEq, Debug)]
pub enum Instruction {
    LoadConst(i32),
    LoadVar(u16),
    Store(u16),
    UnaryOp(Unary),
    BinaryOp(Binary, u16),
    Input,
    InputBit,
    Output,
    Jump(u16),
    Goto(u16),
}

// An instruction with the number of the node whose code it belongs to.
#[derive(Clone, Copy, PartialEq, Debug)]
pub struct Coded {
    pub instruction: Instruction,
    pub node: u16,
}
