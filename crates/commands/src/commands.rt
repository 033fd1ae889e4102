// Commands: the functions call one another in a cycle, as their rules do.
ghost use Rattle.std.specs.Prelude.{◌≡◌, ◌∷◌};
ghost use Rattle.grammar.specs.Automaton.{cmd, cmds, elses};
ghost use Rattle.grammar.specs.declared.symbols.Start.TheVariants.{Begin, If, While};
ghost use Rattle.grammar.specs.Tokens.{start};
ghost use Rattle.lexer.specs.Lexemes.{meant, other};
ghost use Rattle.parser.specs.Feeds.{Ready};
ghost use Rattle.parser.specs.Parsing.{Parsed, Takes, Less, Roomy};

use crate::simple_commands::{assignment, input, is_else, output, skip};
use expressions::expressions::expr;
use grammar::symbols::{Mark, Start};
use lexer::token::{Refusal, Token};
use parser::depth::Depth;
use parser::parser::Parser;
use tosca::table::{Entry, Node};

// A command; where none begins, it is the empty one.
#[cycle(alternative_block_choice_cmd_cmds_repetition)]
fn cmd(parser: &mut Parser<'_>, table: &mut [Entry], depth: Depth) -> Result<u16, Refusal>
    requires { (Ready parser.old) × (Roomy parser.old) }
    ensures less { Less 1 parser.old parser.new result }
    ensures is { Parsed cmd depth.level parser.old table.old parser.new table.new result }
{
    match parser.lookahead.token {
        Token::Name(_) => assignment(parser, table, depth),
        Token::Start(start) => match start {
            Start::Begin => block(parser, table, depth),
            Start::If => choice(parser, table, depth),
            Start::While => repetition(parser, table, depth),
            Start::Read => input(parser, table),
            Start::Write => output(parser, table, depth),
        },
        _ => Ok(skip(parser, table)),
    }
}

// cmd {; cmd} end
#[cycle(alternative_block_choice_cmd_cmds_repetition)]
pub fn cmds(parser: &mut Parser<'_>, table: &mut [Entry], depth: Depth) -> Result<u16, Refusal>
    requires { (Ready parser.old) × (Roomy parser.old) }
    ensures less { Less 0 parser.old parser.new result }
    ensures is { Takes (λ L. cmd ∷ cmds ∷ L) (λ L. L) depth.level parser.old table.old parser.new table.new result }
{
    let mut all = cmd(parser, table, depth)?;
    while parser.is_at(Mark::Semicolon) {
        let place = parser.lookahead.place;
        parser.advance()?;
        let next = cmd(parser, table, depth)?;
        all = parser.emit(table, Node::Seq(all, next), place);
    }
    parser.expect(Mark::End)?;
    Ok(all)
}

// begin cmd {; cmd} end
#[cycle(alternative_block_choice_cmd_cmds_repetition)]
fn block(parser: &mut Parser<'_>, table: &mut [Entry], depth: Depth) -> Result<u16, Refusal>
    requires { (Ready parser.old) × (meant parser.old.lookahead.token ≡ other (start Begin)) }
    ensures less { Less 0 parser.old parser.new result }
    ensures is { Parsed cmd depth.level parser.old table.old parser.new table.new result }
{
    let inner = parser.deeper(depth.level)?;
    parser.advance()?;
    cmds(parser, table, inner)
}

// if expr then cmd [else cmd]
#[cycle(alternative_block_choice_cmd_cmds_repetition)]
fn choice(parser: &mut Parser<'_>, table: &mut [Entry], depth: Depth) -> Result<u16, Refusal>
    requires { (Ready parser.old) × (meant parser.old.lookahead.token ≡ other (start If)) }
    ensures less { Less 0 parser.old parser.new result }
    ensures is { Parsed cmd depth.level parser.old table.old parser.new table.new result }
{
    let place = parser.lookahead.place;
    let inner = parser.deeper(depth.level)?;
    parser.advance()?;
    let test = expr(parser, table, inner)?;
    parser.expect(Mark::Then)?;
    let yes = cmd(parser, table, inner)?;
    let no = alternative(parser, table, inner)?;
    Ok(parser.emit(table, Node::Choice(test, yes, no), place))
}

// [else cmd]
#[cycle(alternative_block_choice_cmd_cmds_repetition)]
fn alternative(parser: &mut Parser<'_>, table: &mut [Entry], depth: Depth) -> Result<u16, Refusal>
    requires { (Ready parser.old) × (Roomy parser.old) }
    ensures less { Less 1 parser.old parser.new result }
    ensures is { Parsed elses depth.level parser.old table.old parser.new table.new result }
{
    if !is_else(parser) {
        return Ok(skip(parser, table));
    }
    parser.advance()?;
    cmd(parser, table, depth)
}

// while expr do cmd. It begins as a choice does: a function for both beginnings would need a clause over both rules.
#[cycle(alternative_block_choice_cmd_cmds_repetition)]
fn repetition(parser: &mut Parser<'_>, table: &mut [Entry], depth: Depth) -> Result<u16, Refusal>
    requires { (Ready parser.old) × (meant parser.old.lookahead.token ≡ other (start While)) }
    ensures less { Less 0 parser.old parser.new result }
    ensures is { Parsed cmd depth.level parser.old table.old parser.new table.new result }
{
    let place = parser.lookahead.place;
    let inner = parser.deeper(depth.level)?;
    parser.advance()?;
    let test = expr(parser, table, inner)?;
    parser.expect(Mark::Do)?;
    let body = cmd(parser, table, inner)?;
    Ok(parser.emit(table, Node::Loop(test, body), place))
}
