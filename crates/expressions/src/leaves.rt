// The operators that may come next, and the factors that are one token.
ghost use Rattle.std.specs.Prelude.{◌≡◌, ℕ, ◌≤◌, true, pos};
ghost use Rattle.grammar.specs.Automaton.{factor};
ghost use Rattle.grammar.specs.Tokens.{lit, as_mul, as_add, as_rel};
ghost use Rattle.lexer.specs.Lexemes.{meant};
ghost use Rattle.lexer.specs.Lexemes.{number as digits_of};
ghost use Rattle.lexer.specs.Scan.{limit};
ghost use Rattle.lexer.specs.Spelling.{value as value_of};
ghost use Rattle.parser.specs.Feeds.{next, Ready};
ghost use Rattle.parser.specs.Advancing.{plain, is_name, is_minus as is_minus_token, seen};
ghost use Rattle.parser.specs.Parsing.{Parsed, Less};

use grammar::symbols::{Adding, Multiplying, Operator, Relation};
use lexer::bytes::decimal;
use lexer::token::{Refusal, Token};
use parser::parser::Parser;
use tosca::operators::Value;
use tosca::table::{Entry, Node};

// The value of digits that keep the limit.
pub(crate) fn number(digits: &[u8]) -> i32
    requires { limit (digits_of digits.now) ≡ 0 }
    ensures { result ≡ pos (value_of digits.now) }
{
    decimal(digits).unwrap()
}

// Whether the next token is a minus.
pub(crate) fn is_minus(parser: &Parser<'_>) -> bool
    ensures { result ≡ is_minus_token (next parser.now) }
{
    matches!(
        parser.lookahead.token,
        Token::Operator(Operator::Add(Adding::Minus))
    )
}

// The next token as an operator of one precedence. Functions, since a proof is not told, where a loop over the pattern `Token::Operator(Operator::Mul(op))` ends, that the operator is of another kind. `relation` is asked in no loop, and has the shape of the two, as the three are proved alike.
pub(crate) fn multiplying(parser: &Parser<'_>) -> Option<Multiplying>
    ensures { seen result ≡ as_mul (next parser.now) }
{
    match parser.lookahead.token {
        Token::Operator(Operator::Mul(op)) => Some(op),
        _ => None,
    }
}

pub(crate) fn adding(parser: &Parser<'_>) -> Option<Adding>
    ensures { seen result ≡ as_add (next parser.now) }
{
    match parser.lookahead.token {
        Token::Operator(Operator::Add(op)) => Some(op),
        _ => None,
    }
}

pub(crate) fn relation(parser: &Parser<'_>) -> Option<Relation>
    ensures { seen result ≡ as_rel (next parser.now) }
{
    match parser.lookahead.token {
        Token::Operator(Operator::Rel(op)) => Some(op),
        _ => None,
    }
}

// A constant, which is the next token.
pub(crate) fn constant(
    parser: &mut Parser<'_>,
    table: &mut [Entry],
    value: Value,
) -> Result<u16, Refusal>
    requires { (Ready parser.old) × ((next parser.old ≡ lit value) × (plain (meant parser.old.lookahead.token) ≡ true)) }
    ensures less { Less 0 parser.old parser.new result }
    ensures is { (depth : ℕ) → depth ≤ 32 → Parsed factor depth parser.old table.old parser.new table.new result }
{
    let place = parser.lookahead.place;
    parser.advance()?;
    Ok(parser.emit(table, Node::Const(value), place))
}

// A variable, whose name is the next token.
pub(crate) fn variable(parser: &mut Parser<'_>, table: &mut [Entry]) -> Result<u16, Refusal>
    requires { (Ready parser.old) × (is_name (next parser.old) ≡ true) }
    ensures less { Less 0 parser.old parser.new result }
    ensures is { (depth : ℕ) → depth ≤ 32 → Parsed factor depth parser.old table.old parser.new table.new result }
{
    let place = parser.lookahead.place;
    let name = parser.name()?;
    Ok(parser.emit(table, Node::Var(name), place))
}
