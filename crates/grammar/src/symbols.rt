// The symbols of the grammar, grouped by the part that they play in it. That of an operator becomes the operator.
ghost use Rattle.std.specs.Prelude.{◌≡◌, Some};
ghost use Rattle.grammar.specs.Building.{mul_op, add_op, rel_op};
ghost use Rattle.grammar.specs.Spelling.{spelled};

use std::fmt::{Display, Formatter, Result, Write};
use tosca::operators::Binary;

#[derive(Clone, Copy, PartialEq, Debug)]
pub enum Multiplying {
    Times,
    Div,
    And,
}

impl From<Multiplying> for Binary {
    ghost from_gives = { λ symbol op. op ≡ mul_op symbol };

    fn from(symbol: Multiplying) -> Binary {
        match symbol {
            Multiplying::Times => Binary::Multiply,
            Multiplying::Div => Binary::Divide,
            Multiplying::And => Binary::And,
        }
    }
}

#[derive(Clone, Copy, PartialEq, Debug)]
pub enum Adding {
    Plus,
    Minus,
    Or,
}

impl From<Adding> for Binary {
    ghost from_gives = { λ symbol op. op ≡ add_op symbol };

    fn from(symbol: Adding) -> Binary {
        match symbol {
            Adding::Plus => Binary::Add,
            Adding::Minus => Binary::Subtract,
            Adding::Or => Binary::Or,
        }
    }
}

#[derive(Clone, Copy, PartialEq, Debug)]
pub enum Relation {
    Equal,
    Less,
    Greater,
}

impl From<Relation> for Binary {
    ghost from_gives = { λ symbol op. op ≡ rel_op symbol };

    fn from(symbol: Relation) -> Binary {
        match symbol {
            Relation::Equal => Binary::Equal,
            Relation::Less => Binary::Less,
            Relation::Greater => Binary::Greater,
        }
    }
}

// An operator that stands between two operands, by its precedence.
#[derive(Clone, Copy, PartialEq, Debug)]
pub enum Operator {
    Mul(Multiplying),
    Add(Adding),
    Rel(Relation),
}

// What opens a factor.
#[derive(Clone, Copy, PartialEq, Debug)]
pub enum Prefix {
    Open,
    Not,
    Round,
}

// What opens a command.
#[derive(Clone, Copy, PartialEq, Debug)]
pub enum Start {
    Begin,
    If,
    While,
    Read,
    Write,
}

// A symbol that stands only where it is expected. Stop is the end of the text.
#[derive(Clone, Copy, PartialEq, Debug)]
pub enum Mark {
    Program,
    Var,
    Semicolon,
    Comma,
    Colon,
    Becomes,
    Close,
    Slash,
    Then,
    Do,
    End,
    Period,
    Stop,
}

impl Mark {
    // How a message names the symbol.
    pub fn spelling(self) -> &'static str
        ensures { result.now ≡ spelled self }
    {
        match self {
            Mark::Program => "`program`",
            Mark::Var => "`var`",
            Mark::Semicolon => "`;`",
            Mark::Comma => "`,`",
            Mark::Colon => "`:`",
            Mark::Becomes => "`:=`",
            Mark::Close => "`)`",
            Mark::Slash => "`/`",
            Mark::Then => "`then`",
            Mark::Do => "`do`",
            Mark::End => "`end`",
            Mark::Period => "`.`",
            Mark::Stop => "the end of the text",
        }
    }
}

impl Display for Mark {
    ghost output = { λ mark. Some (spelled mark) };

    fn fmt<W: Write>(&self, f: &mut Formatter<W>) -> Result {
        f.write_str(self.spelling())
    }
}
