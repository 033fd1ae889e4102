// Tokens as parts of the text, and why a text is refused.
ghost use Rattle.std.specs.Prelude.{◌≡◌};
ghost use Rattle.lexer.specs.Lexemes.{number_of};

use crate::cursor::Cursor;
use grammar::symbols::{Mark, Operator, Prefix, Start};
use tosca::operators::SimpleType;

// A token. A name and a number are parts of the text itself, as they are written.
#[derive(Clone, Copy)]
pub enum Token<'a> {
    Name(&'a [u8]),
    Number(&'a [u8]),
    Truth(bool),
    Operator(Operator),
    Prefix(Prefix),
    Start(Start),
    Else,
    TypeName(SimpleType),
    Mark(Mark),
    // a word symbol that the grammar uses nowhere
    Unused,
}

// A token with its place, and where the text goes on.
#[derive(Clone, Copy)]
pub struct Lexeme<'a> {
    pub token: Token<'a>,
    pub place: usize,
    pub end: Cursor<'a>,
}

// The questions that a text is asked, with their numbers.
#[derive(Clone, Copy, PartialEq, Debug)]
pub enum Question {
    TextLength = 1,
    Token,
    NameLength,
    NumberSize,
    Grammar,
    Depth,
    NameCount,
    NodeCount,
}

impl Question {
    pub fn number(self) -> u8
        ensures { result ≡ number_of self }
    {
        self as u8
    }
}

// The first question with a no, and the place of it.
#[derive(Clone, Copy, PartialEq, Debug)]
pub struct Refusal {
    pub question: Question,
    pub place: usize,
}
