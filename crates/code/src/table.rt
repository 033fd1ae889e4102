// The code table: its entries are plain numbers, and this module alone knows the codes of their kinds.
ghost use Rattle.std.specs.Prelude.{◌≡◌};
ghost use Rattle.code.specs.CodeTable.{code_entry, instruction_of, coded_of};

use aida::instructions::{Coded, Instruction};
use tosca::operators::{Binary, Unary};

// One entry of the code table, as it is stored. A field that its kind lacks is zero.
#[derive(Clone, Copy, PartialEq, Debug)]
pub struct CodeEntry {
    pub kind: u8,
    pub op: u8,
    pub value: i32,
    pub cell: u16,
    pub target: u16,
    pub node: u16,
}

// An entry that is no instruction.
pub const BLANK_CODE: CodeEntry = CodeEntry {
    kind: 0,
    op: 0,
    value: 0,
    cell: 0,
    target: 0,
    node: 0,
};

// The codes of the kinds, which the table format wants as plain numbers. Constants write and match them.
const LOAD_CONST: u8 = 1;

const LOAD_VAR: u8 = 2;

const STORE: u8 = 3;

const UNARY_OP: u8 = 4;

const BINARY_OP: u8 = 5;

const INPUT: u8 = 6;

const INPUT_BIT: u8 = 7;

const OUTPUT: u8 = 8;

const JUMP: u8 = 9;

const GOTO: u8 = 10;

impl CodeEntry {
    // The entry of an instruction with its node.
    pub fn new(coded: Coded) -> CodeEntry
        ensures { result ≡ code_entry coded }
    {
        let blank = CodeEntry {
            node: coded.node,
            ..BLANK_CODE
        };
        match coded.instruction {
            Instruction::LoadConst(value) => CodeEntry {
                kind: LOAD_CONST,
                value,
                ..blank
            },
            Instruction::LoadVar(cell) => CodeEntry {
                kind: LOAD_VAR,
                cell,
                ..blank
            },
            Instruction::Store(cell) => CodeEntry {
                kind: STORE,
                cell,
                ..blank
            },
            Instruction::UnaryOp(op) => CodeEntry {
                kind: UNARY_OP,
                op: op.into(),
                ..blank
            },
            Instruction::BinaryOp(op, cell) => {
                CodeEntry {
                    kind: BINARY_OP,
                    op: op.into(),
                    cell,
                    ..blank
                }
            }
            Instruction::Input => CodeEntry {
                kind: INPUT,
                ..blank
            },
            Instruction::InputBit => CodeEntry {
                kind: INPUT_BIT,
                ..blank
            },
            Instruction::Output => CodeEntry {
                kind: OUTPUT,
                ..blank
            },
            Instruction::Jump(target) => CodeEntry {
                kind: JUMP,
                target,
                ..blank
            },
            Instruction::Goto(target) => CodeEntry {
                kind: GOTO,
                target,
                ..blank
            },
        }
    }

    // The instruction that the entry says, if it says any; fields that its kind lacks do not matter.
    pub fn instruction(&self) -> Option<Instruction>
        ensures { result ≡ instruction_of self.now }
    {
        match self.kind {
            LOAD_CONST => Some(Instruction::LoadConst(self.value)),
            LOAD_VAR => Some(Instruction::LoadVar(self.cell)),
            STORE => Some(Instruction::Store(self.cell)),
            UNARY_OP => Some(Instruction::UnaryOp(Unary::try_from(self.op).ok()?)),
            BINARY_OP => Some(Instruction::BinaryOp(Binary::try_from(self.op).ok()?, self.cell)),
            INPUT => Some(Instruction::Input),
            INPUT_BIT => Some(Instruction::InputBit),
            OUTPUT => Some(Instruction::Output),
            JUMP => Some(Instruction::Jump(self.target)),
            GOTO => Some(Instruction::Goto(self.target)),
            _ => None,
        }
    }

    // The instruction with its node.
    pub fn coded(&self) -> Option<Coded>
        ensures { result ≡ coded_of self.now }
    {
        Some(Coded {
            instruction: self.instruction()?,
            node: self.node,
        })
    }
}
