// Lines and columns of a text.
ghost use Rattle.std.specs.Prelude.{◌≡◌, ◌≤◌, length, Some, count_by};
ghost use Rattle.excerpts.specs.Lines.{feed, within, line_start as line_start_of, line_end as line_end_of, position, position_text};

use std::fmt::{Display, Formatter, Result, Write};

// Both from 1; a column counts bytes.
#[derive(Clone, Copy, PartialEq, Debug)]
pub struct Position {
    pub line: usize,
    pub column: usize,
}

impl Position {
    // Where the offset stands; one past the end counts as the end.
    pub fn new(text: &[u8], offset: usize) -> Position
        ensures { result ≡ position text.now (within text.now offset) }
    {
        let offset = offset.min(text.len());
        Position {
            line: 1 + line_feeds(&text[..offset]),
            column: 1 + (offset - line_start(text, offset)),
        }
    }
}

impl Display for Position {
    ghost output = { λ p. Some (position_text p) };

    fn fmt<W: Write>(&self, f: &mut Formatter<W>) -> Result {
        write!(f, "{}:{}", self.line, self.column)
    }
}

// How many line feeds there are.
fn line_feeds(bytes: &[u8]) -> usize
    ensures { (result ≡ count_by feed bytes.now) × (result ≤ length bytes.now) }
{
    bytes.iter().map(|b| usize::from(*b == b'\n')).sum()
}

// Where the line of the offset starts.
pub(crate) fn line_start(text: &[u8], offset: usize) -> usize
    requires { offset ≤ length text.now }
    ensures { (result ≡ line_start_of text.now offset) × (result ≤ offset) }
{
    let line = text[..offset].iter().rev().take_while(|b| **b != b'\n');
    offset - line.count()
}

// Where it ends: at its line feed, or at the end of the text.
pub(crate) fn line_end(text: &[u8], offset: usize) -> usize
    requires { offset ≤ length text.now }
    ensures { (result ≡ line_end_of text.now offset) × ((offset ≤ result) × (result ≤ length text.now)) }
{
    let line = text[offset..].iter().take_while(|b| **b != b'\n');
    offset + line.count()
}
