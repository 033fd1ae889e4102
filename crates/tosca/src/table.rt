// The node table: its entries are plain numbers, and this module alone knows the codes of their kinds.
ghost use Rattle.std.specs.Prelude.{◌≡◌};
ghost use Rattle.tosca.specs.Table.{constant as constant_of, entry as entry_of, name_of, node as node_of};

use crate::operators::{Binary, SimpleType, Unary, Value};

// One entry of the node table, as it is stored. A field that its kind lacks is zero.
#[derive(Clone, Copy, PartialEq, Debug)]
pub struct Entry {
    pub kind: u8,
    pub op: u8,
    pub typ: u8,
    pub name: u16,
    pub value: i32,
    pub first: u16,
    pub second: u16,
    pub third: u16,
    pub place: u16,
}

// What an entry says: its kind with its fields. Parts are node numbers, the indexes of earlier entries, since a table is a format
// and no tree in a heap.
#[derive(Clone, Copy, PartialEq, Debug)]
pub enum Node {
    Decl(u16, SimpleType),
    Const(Value),
    Var(u16),
    Uny(Unary, u16),
    Bin(u16, Binary, u16),
    Skip,
    Assign(u16, u16),
    Seq(u16, u16),
    Choice(u16, u16, u16),
    Loop(u16, u16),
    Input(u16),
    Output(u16),
    Program(u16),
}

// An entry that is no node.
pub const BLANK: Entry = Entry {
    kind: 0,
    op: 0,
    typ: 0,
    name: 0,
    value: 0,
    first: 0,
    second: 0,
    third: 0,
    place: 0,
};

impl Node {
    // The number of the name that the node has.
    pub fn name(self) -> Option<u16>
        ensures { result ≡ name_of self }
    {
        match self {
            Node::Decl(name, _) | Node::Var(name) | Node::Assign(name, _) | Node::Input(name) => {
                Some(name)
            }
            Node::Const(_)
            | Node::Uny(..)
            | Node::Bin(..)
            | Node::Skip
            | Node::Seq(..)
            | Node::Choice(..)
            | Node::Loop(..)
            | Node::Output(_)
            | Node::Program(_) => None,
        }
    }
}

// The codes of the kinds, which the table format wants as plain numbers. Constants write and match them.
const DECL: u8 = 1;

const CONST: u8 = 2;

const VAR: u8 = 3;

const UNY: u8 = 4;

const BIN: u8 = 5;

const SKIP: u8 = 6;

const ASSIGN: u8 = 7;

const SEQ: u8 = 8;

const CHOICE: u8 = 9;

const LOOP: u8 = 10;

const INPUT: u8 = 11;

const OUTPUT: u8 = 12;

const PROGRAM: u8 = 13;

// A constant's value by its type: a truth value is 0 or 1.
fn constant(typ: SimpleType, value: i32) -> Option<Value>
    ensures { result ≡ constant_of typ value }
{
    match (typ, value) {
        (SimpleType::Integer, _) => Some(Value::Number(value)),
        (SimpleType::Boolean, 0) => Some(Value::Truth(false)),
        (SimpleType::Boolean, 1) => Some(Value::Truth(true)),
        (SimpleType::Boolean, _) => None,
    }
}

impl Entry {
    // The entry of a node at a place of the text.
    pub fn new(node: Node, place: u16) -> Entry
        ensures { result ≡ entry_of node place }
    {
        let blank = Entry { place, ..BLANK };
        match node {
            Node::Decl(name, typ) => Entry {
                kind: DECL,
                name,
                typ: typ.into(),
                ..blank
            },
            Node::Const(Value::Number(value)) => Entry {
                kind: CONST,
                typ: SimpleType::Integer.into(),
                value,
                ..blank
            },
            Node::Const(Value::Truth(b)) => Entry {
                kind: CONST,
                typ: SimpleType::Boolean.into(),
                value: b.into(),
                ..blank
            },
            Node::Var(name) => Entry {
                kind: VAR,
                name,
                ..blank
            },
            Node::Uny(op, first) => Entry {
                kind: UNY,
                op: op.into(),
                first,
                ..blank
            },
            Node::Bin(first, op, second) => Entry {
                kind: BIN,
                op: op.into(),
                first,
                second,
                ..blank
            },
            Node::Skip => Entry {
                kind: SKIP,
                ..blank
            },
            Node::Assign(name, first) => Entry {
                kind: ASSIGN,
                name,
                first,
                ..blank
            },
            Node::Seq(first, second) => Entry {
                kind: SEQ,
                first,
                second,
                ..blank
            },
            Node::Choice(first, second, third) => Entry {
                kind: CHOICE,
                first,
                second,
                third,
                ..blank
            },
            Node::Loop(first, second) => Entry {
                kind: LOOP,
                first,
                second,
                ..blank
            },
            Node::Input(name) => Entry {
                kind: INPUT,
                name,
                ..blank
            },
            Node::Output(first) => Entry {
                kind: OUTPUT,
                first,
                ..blank
            },
            Node::Program(first) => Entry {
                kind: PROGRAM,
                first,
                ..blank
            },
        }
    }

    // What the entry says, if it says anything; fields that its kind lacks do not matter.
    pub fn node(&self) -> Option<Node>
        ensures { result ≡ node_of self.now }
    {
        match self.kind {
            DECL => Some(Node::Decl(self.name, SimpleType::try_from(self.typ).ok()?)),
            CONST => Some(Node::Const(constant(SimpleType::try_from(self.typ).ok()?, self.value)?)),
            VAR => Some(Node::Var(self.name)),
            UNY => Some(Node::Uny(Unary::try_from(self.op).ok()?, self.first)),
            BIN => Some(Node::Bin(self.first, Binary::try_from(self.op).ok()?, self.second)),
            SKIP => Some(Node::Skip),
            ASSIGN => Some(Node::Assign(self.name, self.first)),
            SEQ => Some(Node::Seq(self.first, self.second)),
            CHOICE => Some(Node::Choice(self.first, self.second, self.third)),
            LOOP => Some(Node::Loop(self.first, self.second)),
            INPUT => Some(Node::Input(self.name)),
            OUTPUT => Some(Node::Output(self.first)),
            PROGRAM => Some(Node::Program(self.first)),
            _ => None,
        }
    }
}
