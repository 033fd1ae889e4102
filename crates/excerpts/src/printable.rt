// Bytes of a text as characters of a terminal, one for each byte.
ghost use Rattle.std.specs.Prelude.{◌≡◌, map, Some};
ghost use Rattle.excerpts.specs.Shown.{shown_as};

use std::fmt::{Display, Formatter, Result, Write};

// As what a byte is shown: a value and no closure, since it is kept with the bytes until they are written.
#[derive(Clone, Copy)]
pub enum Style {
    // as it is, if it is a printable ASCII character or a tab
    Text,
    // as a tab or a blank, to stand under the text
    Blank,
}

impl Style {
    pub fn character(self, b: u8) -> char
        ensures { result ≡ shown_as self b }
    {
        match (self, b) {
            (_, b'\t') => '\t',
            (Style::Text, b' '..=b'~') => char::from(b),
            (Style::Text, b'\r') => ' ',
            (Style::Text, _) => '?',
            (Style::Blank, _) => ' ',
        }
    }
}

#[derive(Clone, Copy)]
pub struct Printable<'a> {
    pub bytes: &'a [u8],
    pub style: Style,
}

impl<'a> Printable<'a> {
    // Two constructors: with one, each call would have to name the style, as in `new(name, Style::Text)`.
    pub fn text(bytes: &'a [u8]) -> Printable<'a>
        ensures { (result.style ≡ Style.Text) × (result.bytes.now ≡ bytes.now) }
    {
        Printable {
            bytes,
            style: Style::Text,
        }
    }

    pub fn blank(bytes: &'a [u8]) -> Printable<'a>
        ensures { (result.style ≡ Style.Blank) × (result.bytes.now ≡ bytes.now) }
    {
        Printable {
            bytes,
            style: Style::Blank,
        }
    }
}

impl Display for Printable<'_> {
    ghost output = { λ p. Some (map (shown_as p.style) p.bytes.now) };

    fn fmt<W: Write>(&self, f: &mut Formatter<W>) -> Result {
        for b in self.bytes {
            f.write_char(self.style.character(*b))?;
        }
        Ok(())
    }
}
