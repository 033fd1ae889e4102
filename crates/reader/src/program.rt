// A whole text. This module is internal: its function asks its caller for a parser at the beginning of a text.
ghost use Rattle.std.specs.Prelude.{◌≡◌};
ghost use Rattle.parser.specs.Feeds.{Ready};
ghost use Rattle.reader.specs.Program.{Whole};

use commands::commands::cmds;
use declarations::declarations::declarations;
use grammar::symbols::Mark;
use lexer::token::{Question, Refusal};
use parser::depth::Depth;
use parser::parser::Parser;
use tosca::table::{Entry, Node};

// program name ; declarations and body . and the end of the text
pub fn program(parser: &mut Parser<'_>, table: &mut [Entry]) -> Result<(), Refusal>
    requires { (Ready parser.old) × (parser.old.count ≡ 0) }
    ensures { Whole parser.old table.old parser.new table.new result }
{
    let place = parser.lookahead.place;
    parser.expect(Mark::Program)?;
    parser.name()?;
    parser.expect(Mark::Semicolon)?;
    declarations(parser, table)?;
    let body = cmds(parser, table, Depth::BODY)?;
    parser.expect(Mark::Period)?;
    parser.emit(table, Node::Program(body), place);
    if parser.is_at(Mark::Stop) {
        return Ok(());
    }
    Err(parser.refuse(Question::Grammar))
}
