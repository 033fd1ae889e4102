// Reading a text into a node table.
ghost use Rattle.std.specs.Prelude.{◌≡◌, ◌&&◌, length, replicate, nat_le};
ghost use Rattle.tosca.specs.Table.{blank};
ghost use Rattle.reader.specs.Reading.{outcome, answer, answered, table_after, Nodes};
ghost use Rattle.reader.specs.Reasons.{Explained, Complete, OneTree};

use crate::program::program;
use lexer::token::{Question, Refusal};
use parser::parser::Parser;
use tosca::table::{BLANK, Entry};

// A text has at most so many bytes.
pub const MAX_TEXT: usize = 16384;

// A routine has at most so many nodes.
pub const MAX_NODES: usize = 1024;

// Questions 1 to 8; on a yes the nodes stand at the front of the table.
fn read_nodes(text: &[u8], table: &mut [Entry]) -> Result<usize, Refusal>
    ensures { Nodes text.now table.old table.new result }
{
    if text.len() > MAX_TEXT {
        return Err(Refusal {
            question: Question::TextLength,
            place: 0,
        });
    }
    let mut parser = Parser::new(text)?;
    program(&mut parser, table)?;
    let count = usize::from(parser.count);
    if !holds(table.len(), count) {
        return Err(Refusal {
            question: Question::NodeCount,
            place: text.len(),
        });
    }
    Ok(count)
}

// Whether a table with this room holds so many nodes.
fn holds(room: usize, count: usize) -> bool
    ensures { result ≡ (nat_le count 1024 && nat_le count room) }
{
    count <= MAX_NODES && count <= room
}

// Makes every entry zeros.
fn clear(table: &mut [Entry])
    ensures { table.new ≡ replicate (length table.old) blank }
{
    table.fill(BLANK);
}

// Reads a text into the table: the count of its nodes, or the first question with a no and its place, and then the table is all zeros.
pub fn read(text: &[u8], table: &mut [Entry]) -> Result<usize, Refusal>
    ensures is { answered result ≡ answer (outcome (length table.old) text.now) }
    ensures table { table.new ≡ table_after (length table.old) (outcome (length table.old) text.now) }
    ensures explained { Explained (length table.old) text.now table.new result }
    ensures complete { Complete (length table.old) text.now result }
    ensures unique { OneTree text.now }
{
    clear(table);
    let answer = read_nodes(text, table);
    if answer.is_err() {
        clear(table);
    }
    answer
}
