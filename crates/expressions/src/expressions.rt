// Expressions: the functions call one another in a cycle, as their rules do.
ghost use Rattle.std.specs.Prelude.{◌≡◌, ◌∷◌};
ghost use Rattle.grammar.specs.Automaton.{expr, simple, simples, term, factor};
ghost use Rattle.grammar.specs.declared.symbols.Prefix.TheVariants.{Open, Not, Round};
ghost use Rattle.grammar.specs.Tokens.{pre};
ghost use Rattle.lexer.specs.Lexemes.{meant, other};
ghost use Rattle.parser.specs.Feeds.{Ready};
ghost use Rattle.parser.specs.Parsing.{Parsed, Takes, Less};

use crate::leaves::{adding, constant, is_minus, multiplying, number, relation, variable};
use grammar::symbols::{Mark, Prefix};
use lexer::token::{Question, Refusal, Token};
use parser::depth::Depth;
use parser::parser::Parser;
use tosca::operators::{Binary, Unary, Value};
use tosca::table::{Entry, Node};

// simple [(= | < | >) simple]
#[cycle(bracketed_expr_factor_first_term_negated_next_term_rounded_simple_term)]
pub fn expr(parser: &mut Parser<'_>, table: &mut [Entry], depth: Depth) -> Result<u16, Refusal>
    requires { Ready parser.old }
    ensures less { Less 0 parser.old parser.new result }
    ensures is { Parsed expr depth.level parser.old table.old parser.new table.new result }
{
    let left = simple(parser, table, depth)?;
    let place = parser.lookahead.place;
    match relation(parser) {
        None => Ok(left),
        Some(op) => {
            parser.advance()?;
            let right = simple(parser, table, depth)?;
            Ok(parser.emit(table, Node::Bin(left, Binary::from(op), right), place))
        }
    }
}

// [-] term {(+ | - | or) term}. The loop is term's: one function for both would take the first operand, the operator and the operand as three functions, and be no plainer.
#[cycle(bracketed_expr_factor_first_term_negated_next_term_rounded_simple_term)]
fn simple(parser: &mut Parser<'_>, table: &mut [Entry], depth: Depth) -> Result<u16, Refusal>
    requires { Ready parser.old }
    ensures less { Less 0 parser.old parser.new result }
    ensures is { Parsed simple depth.level parser.old table.old parser.new table.new result }
{
    let mut left = first_term(parser, table, depth)?;
    while let Some(op) = adding(parser) {
        let place = parser.lookahead.place;
        parser.advance()?;
        let right = next_term(parser, table, depth)?;
        left = parser.emit(table, Node::Bin(left, Binary::from(op), right), place);
    }
    Ok(left)
}

// [-] term: the minus takes the whole term
#[cycle(bracketed_expr_factor_first_term_negated_next_term_rounded_simple_term)]
fn first_term(parser: &mut Parser<'_>, table: &mut [Entry], depth: Depth) -> Result<u16, Refusal>
    requires { Ready parser.old }
    ensures less { Less 0 parser.old parser.new result }
    ensures is { Takes (λ L. simple ∷ L) (λ L. simples ∷ L) depth.level parser.old table.old parser.new table.new result }
{
    if !is_minus(parser) {
        return term(parser, table, depth);
    }
    let place = parser.lookahead.place;
    parser.advance()?;
    let part = next_term(parser, table, depth)?;
    Ok(parser.emit(table, Node::Uny(Unary::Negate, part), place))
}

// The term after a sign. A function of its own, so that another rule than term is refused at its clause: the loops around it are proved in a file.
#[cycle(bracketed_expr_factor_first_term_negated_next_term_rounded_simple_term)]
fn next_term(parser: &mut Parser<'_>, table: &mut [Entry], depth: Depth) -> Result<u16, Refusal>
    requires { Ready parser.old }
    ensures less { Less 0 parser.old parser.new result }
    ensures is { Parsed term depth.level parser.old table.old parser.new table.new result }
{
    term(parser, table, depth)
}

// factor {(* | div | and) factor}
#[cycle(bracketed_expr_factor_first_term_negated_next_term_rounded_simple_term)]
fn term(parser: &mut Parser<'_>, table: &mut [Entry], depth: Depth) -> Result<u16, Refusal>
    requires { Ready parser.old }
    ensures less { Less 0 parser.old parser.new result }
    ensures is { Parsed term depth.level parser.old table.old parser.new table.new result }
{
    let mut left = factor(parser, table, depth)?;
    while let Some(op) = multiplying(parser) {
        let place = parser.lookahead.place;
        parser.advance()?;
        let right = factor(parser, table, depth)?;
        left = parser.emit(table, Node::Bin(left, Binary::from(op), right), place);
    }
    Ok(left)
}

// number | true | false | name | an opened factor
#[cycle(bracketed_expr_factor_first_term_negated_next_term_rounded_simple_term)]
fn factor(parser: &mut Parser<'_>, table: &mut [Entry], depth: Depth) -> Result<u16, Refusal>
    requires { Ready parser.old }
    ensures less { Less 0 parser.old parser.new result }
    ensures is { Parsed factor depth.level parser.old table.old parser.new table.new result }
{
    match parser.lookahead.token {
        Token::Name(_) => variable(parser, table),
        Token::Number(digits) => constant(parser, table, Value::Number(number(digits))),
        Token::Truth(truth) => constant(parser, table, Value::Truth(truth)),
        Token::Prefix(Prefix::Open) => bracketed(parser, table, depth),
        Token::Prefix(Prefix::Not) => negated(parser, table, depth),
        Token::Prefix(Prefix::Round) => rounded(parser, table, depth),
        _ => Err(parser.refuse(Question::Grammar)),
    }
}

// ( expr )
#[cycle(bracketed_expr_factor_first_term_negated_next_term_rounded_simple_term)]
fn bracketed(parser: &mut Parser<'_>, table: &mut [Entry], depth: Depth) -> Result<u16, Refusal>
    requires { (Ready parser.old) × (meant parser.old.lookahead.token ≡ other (pre Open)) }
    ensures less { Less 0 parser.old parser.new result }
    ensures is { Parsed factor depth.level parser.old table.old parser.new table.new result }
{
    let inner = parser.deeper(depth.level)?;
    parser.advance()?;
    let part = expr(parser, table, inner)?;
    parser.expect(Mark::Close)?;
    Ok(part)
}

// not factor
#[cycle(bracketed_expr_factor_first_term_negated_next_term_rounded_simple_term)]
fn negated(parser: &mut Parser<'_>, table: &mut [Entry], depth: Depth) -> Result<u16, Refusal>
    requires { (Ready parser.old) × (meant parser.old.lookahead.token ≡ other (pre Not)) }
    ensures less { Less 0 parser.old parser.new result }
    ensures is { Parsed factor depth.level parser.old table.old parser.new table.new result }
{
    let place = parser.lookahead.place;
    let inner = parser.deeper(depth.level)?;
    parser.advance()?;
    let part = factor(parser, table, inner)?;
    Ok(parser.emit(table, Node::Uny(Unary::Not, part), place))
}

// round ( factor / factor )
#[cycle(bracketed_expr_factor_first_term_negated_next_term_rounded_simple_term)]
fn rounded(parser: &mut Parser<'_>, table: &mut [Entry], depth: Depth) -> Result<u16, Refusal>
    requires { (Ready parser.old) × (meant parser.old.lookahead.token ≡ other (pre Round)) }
    ensures less { Less 0 parser.old parser.new result }
    ensures is { Parsed factor depth.level parser.old table.old parser.new table.new result }
{
    let place = parser.lookahead.place;
    let inner = parser.deeper(depth.level)?;
    parser.advance()?;
    parser.open()?;
    let left = factor(parser, table, inner)?;
    parser.expect(Mark::Slash)?;
    let right = factor(parser, table, inner)?;
    parser.expect(Mark::Close)?;
    Ok(parser.emit(table, Node::Bin(left, Binary::Round, right), place))
}
