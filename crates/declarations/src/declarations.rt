// Declarations. A name is listed when it is read, and gets its type when that is read.
ghost use Rattle.std.specs.Prelude.{◌≡◌, ◌-◌, [], ◌∷◌};
ghost use Rattle.grammar.specs.Automaton.{vars, decls, a_name, names, type as type_symbol, body};
ghost use Rattle.parser.specs.Feeds.{Ready};
ghost use Rattle.declarations.specs.Declaring.{Used, Passes, Typed, Begun, Drafts, retyped};

use grammar::symbols::{Mark, Start};
use lexer::token::{Question, Refusal, Token};
use parser::parser::Parser;
use tosca::operators::SimpleType;
use tosca::table::{Entry, Node};

// Gives a type to the declarations numbered from first up to last, as far as they are in the table.
fn retype(table: &mut [Entry], first: u16, last: u16, typ: SimpleType)
    ensures { table.new ≡ retyped typ first (last - first) table.old }
{
    let last = usize::from(last).min(table.len());
    let first = usize::from(first).min(last);
    let declared = &mut table[first..last];
    for entry in declared.iter_mut() {
        *entry = Entry::new(Node::Decl(entry.name, typ), entry.place);
    }
}

// [var declaration {declaration}] begin
pub fn declarations(parser: &mut Parser<'_>, table: &mut [Entry]) -> Result<(), Refusal>
    requires { Ready parser.old }
    ensures less { Used parser.old parser.new result }
    ensures is { Passes (λ L. vars ∷ L) body parser.old table.old parser.new table.new result }
{
    if !parser.is_at(Mark::Var) {
        return begin(parser);
    }
    parser.advance()?;
    declaration_list(parser, table)
}

// declaration {declaration} begin
fn declaration_list(parser: &mut Parser<'_>, table: &mut [Entry]) -> Result<(), Refusal>
    requires { Ready parser.old }
    ensures less { Used parser.old parser.new result }
    ensures is { Passes (λ L. a_name [] ∷ L) body parser.old table.old parser.new table.new result }
{
    declaration(parser, table)?;
    while let Token::Name(_) = parser.lookahead.token {
        declaration(parser, table)?;
    }
    begin(parser)
}

// name {, name} : type ;
fn declaration(parser: &mut Parser<'_>, table: &mut [Entry]) -> Result<(), Refusal>
    requires { Ready parser.old }
    ensures less { Used parser.old parser.new result }
    ensures is { Passes (λ L. a_name [] ∷ L) (λ L. decls ∷ L) parser.old table.old parser.new table.new result }
{
    let first = parser.count;
    declared_names(parser, table)?;
    let typ = type_name(parser)?;
    retype(table, first, parser.count, typ);
    parser.expect(Mark::Semicolon)
}

// name {, name} :
fn declared_names(parser: &mut Parser<'_>, table: &mut [Entry]) -> Result<(), Refusal>
    requires { Ready parser.old }
    ensures less { Used parser.old parser.new result }
    ensures is { Drafts a_name type_symbol parser.old table.old parser.new table.new result }
{
    declared_name(parser, table)?;
    while parser.is_at(Mark::Comma) {
        parser.advance()?;
        declared_name(parser, table)?;
    }
    parser.expect(Mark::Colon)
}

// A name, which is listed as an integer until its type is known.
fn declared_name(parser: &mut Parser<'_>, table: &mut [Entry]) -> Result<(), Refusal>
    requires { Ready parser.old }
    ensures less { Used parser.old parser.new result }
    ensures is { Drafts a_name names parser.old table.old parser.new table.new result }
{
    let place = parser.lookahead.place;
    let name = parser.name()?;
    parser.emit(table, Node::Decl(name, SimpleType::Integer), place);
    Ok(())
}

// integer | boolean
fn type_name(parser: &mut Parser<'_>) -> Result<SimpleType, Refusal>
    requires { Ready parser.old }
    ensures { Typed parser.old parser.new result }
{
    match parser.lookahead.token {
        Token::TypeName(typ) => {
            parser.advance()?;
            Ok(typ)
        }
        _ => Err(parser.refuse(Question::Grammar)),
    }
}

fn begin(parser: &mut Parser<'_>) -> Result<(), Refusal>
    requires { Ready parser.old }
    ensures { Begun parser.old parser.new result }
{
    match parser.lookahead.token {
        Token::Start(Start::Begin) => parser.advance(),
        _ => Err(parser.refuse(Question::Grammar)),
    }
}
