// The line of a place, with a mark under the place.
ghost use Rattle.std.specs.Prelude.{◌≡◌, ◌≤◌, ◌++◌, map, length, Some, codes};
ghost use Rattle.excerpts.specs.Lines.{within};
ghost use Rattle.excerpts.specs.Excerpts.{shown_line, shown_before};
ghost use Rattle.excerpts.specs.Shown.{printed, blanked};

use crate::position::{line_end, line_start};
use crate::printable::Printable;
use std::fmt::{Display, Formatter, Result, Write};

// At most so many bytes of a line are shown.
const WIDTH: usize = 120;

// Part of a line, and what of it stands before the place.
#[derive(Clone, Copy)]
pub struct Excerpt<'a> {
    pub line: &'a [u8],
    pub before: &'a [u8],
}

impl<'a> Excerpt<'a> {
    // A line that is too long is cut around the place, about evenly.
    pub fn new(text: &'a [u8], offset: usize) -> Excerpt<'a>
        ensures line { result.line.now ≡ shown_line text.now (within text.now offset) }
        ensures before { result.before.now ≡ shown_before text.now (within text.now offset) }
        ensures bound { length result.line.now ≤ 120 }
    {
        let offset = offset.min(text.len());
        let start = line_start(text, offset);
        let end = line_end(text, offset);
        let centred = offset.saturating_sub(WIDTH / 2);
        let from = start.max(centred.min(end.saturating_sub(WIDTH)));
        let to = end.min(from + WIDTH);
        Excerpt {
            line: &text[from..to],
            before: &text[from..offset],
        }
    }
}

// The line, and under it a caret. Tabs stay tabs in both.
impl Display for Excerpt<'_> {
    ghost output = { λ e. Some (map printed e.line.now ++ (codes "\n" ++ (map blanked e.before.now ++ codes "^"))) };

    fn fmt<W: Write>(&self, f: &mut Formatter<W>) -> Result {
        let line = Printable::text(self.line);
        let before = Printable::blank(self.before);
        write!(f, "{line}\n{before}^")
    }
}
