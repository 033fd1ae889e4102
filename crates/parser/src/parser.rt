// The parser's state: the next lexeme, the names so far and the count of nodes.
use crate::names::Names;
use lexer::token::Lexeme;

// That it is Ready is asked by its functions and is no ghost field: `emit` may list a node where there is no room for more.
#[derive(Clone, Copy)]
pub struct Parser<'a> {
    pub lookahead: Lexeme<'a>,
    pub names: Names<'a>,
    pub count: u16,
}
