// Commands that hold no other.
ghost use Rattle.std.specs.Prelude.{◌≡◌, ℕ, ◌<◌, ◌≤◌, true};
ghost use Rattle.grammar.specs.Automaton.{cmd};
ghost use Rattle.grammar.specs.declared.symbols.Start.TheVariants.{Read, Write};
ghost use Rattle.grammar.specs.Tokens.{start, is_else as is_else_token};
ghost use Rattle.lexer.specs.Lexemes.{meant, other};
ghost use Rattle.parser.specs.Feeds.{next, Ready};
ghost use Rattle.parser.specs.Advancing.{is_name, Listed};
ghost use Rattle.parser.specs.Parsing.{Parsed, Less};

use expressions::expressions::expr;
use grammar::symbols::Mark;
use lexer::token::{Refusal, Token};
use parser::depth::Depth;
use parser::parser::Parser;
use tosca::table::{Entry, Node};

// name := expr
pub(crate) fn assignment(
    parser: &mut Parser<'_>,
    table: &mut [Entry],
    depth: Depth,
) -> Result<u16, Refusal>
    requires { (Ready parser.old) × (is_name (next parser.old) ≡ true) }
    ensures less { Less 0 parser.old parser.new result }
    ensures is { Parsed cmd depth.level parser.old table.old parser.new table.new result }
{
    let name = parser.name()?;
    let place = parser.lookahead.place;
    parser.expect(Mark::Becomes)?;
    let value = expr(parser, table, depth)?;
    Ok(parser.emit(table, Node::Assign(name, value), place))
}

// read ( name )
pub(crate) fn input(parser: &mut Parser<'_>, table: &mut [Entry]) -> Result<u16, Refusal>
    requires { (Ready parser.old) × (meant parser.old.lookahead.token ≡ other (start Read)) }
    ensures less { Less 0 parser.old parser.new result }
    ensures is { (depth : ℕ) → depth ≤ 32 → Parsed cmd depth parser.old table.old parser.new table.new result }
{
    let place = parser.lookahead.place;
    parser.advance()?;
    parser.open()?;
    let name = parser.name()?;
    let number = parser.emit(table, Node::Input(name), place);
    parser.expect(Mark::Close)?;
    Ok(number)
}

// write ( expr )
pub(crate) fn output(
    parser: &mut Parser<'_>,
    table: &mut [Entry],
    depth: Depth,
) -> Result<u16, Refusal>
    requires { (Ready parser.old) × (meant parser.old.lookahead.token ≡ other (start Write)) }
    ensures less { Less 0 parser.old parser.new result }
    ensures is { Parsed cmd depth.level parser.old table.old parser.new table.new result }
{
    let place = parser.lookahead.place;
    parser.advance()?;
    parser.open()?;
    let value = expr(parser, table, depth)?;
    parser.expect(Mark::Close)?;
    Ok(parser.emit(table, Node::Output(value), place))
}

// Whether the next token is `else`.
pub(crate) fn is_else(parser: &Parser<'_>) -> bool
    ensures { result ≡ is_else_token (next parser.now) }
{
    matches!(parser.lookahead.token, Token::Else)
}

// The empty command, which stands at the next token.
pub(crate) fn skip(parser: &mut Parser<'_>, table: &mut [Entry]) -> u16
    requires { (parser.old.count < 65535) × (parser.old.lookahead.place ≤ 16384) }
    ensures { Listed parser.old table.old Node.Skip parser.old.lookahead.place result parser.new table.new }
{
    let place = parser.lookahead.place;
    parser.emit(table, Node::Skip, place)
}
