// Why a text is refused, in words.
ghost use Rattle.std.specs.Prelude.{◌≡◌, ◌≤◌, length, drop, Some};
ghost use Rattle.std.specs.Char.{is_ascii_alphanumeric};
ghost use Rattle.std.specs.List.{prefix_len};
ghost use Rattle.console.specs.Sentences.{token_length as token_length_of, reason_text, no_token as no_token_text, not_next, sentence};

use excerpts::printable::Printable;
use lexer::token::{Question, Refusal};
use std::fmt::{Display, Formatter, Result, Write};

// The question with a no, or more precisely what is wrong.
#[derive(Clone, Copy)]
pub enum Reason<'a> {
    TextLength,
    NoToken,
    OpenComment,
    TouchedNumber,
    NameLength,
    NumberSize,
    // what stands where the grammar has no place for it
    Token(&'a [u8]),
    End,
    Depth,
    NameCount,
    NodeCount,
}

impl<'a> Reason<'a> {
    pub fn new(text: &'a [u8], refusal: Refusal) -> Reason<'a>
        ensures { reason_text result ≡ sentence refusal.question (drop refusal.place text.now) }
    {
        let rest = &text[refusal.place.min(text.len())..];
        match refusal.question {
            Question::TextLength => Reason::TextLength,
            Question::Token => no_token(rest),
            Question::NameLength => Reason::NameLength,
            Question::NumberSize => Reason::NumberSize,
            Question::Grammar => found(rest),
            Question::Depth => Reason::Depth,
            Question::NameCount => Reason::NameCount,
            Question::NodeCount => Reason::NodeCount,
        }
    }
}

// Why no token begins here.
fn no_token(rest: &[u8]) -> Reason<'static>
    ensures { reason_text result ≡ no_token_text rest.now }
{
    match rest {
        [b'{', ..] => Reason::OpenComment,
        [b'0'..=b'9', ..] => Reason::TouchedNumber,
        _ => Reason::NoToken,
    }
}

// What stands here.
fn found(rest: &[u8]) -> Reason<'_>
    ensures { reason_text result ≡ not_next rest.now }
{
    if rest.is_empty() {
        return Reason::End;
    }
    Reason::Token(&rest[..token_length(rest)])
}

// How long the token is that begins here.
fn token_length(rest: &[u8]) -> usize
    ensures { (result ≡ token_length_of rest.now) × (result ≤ length rest.now) }
{
    match rest {
        [] => 0,
        [b':', b'=', ..] => 2,
        _ => word_length(rest).max(1),
    }
}

// How many letters and digits stand in front.
fn word_length(rest: &[u8]) -> usize
    ensures { (result ≡ prefix_len is_ascii_alphanumeric rest.now) × (result ≤ length rest.now) }
{
    rest.iter()
        .take_while(|b| b.is_ascii_alphanumeric())
        .count()
}

impl Display for Reason<'_> {
    ghost output = { λ r. Some (reason_text r) };

    fn fmt<W: Write>(&self, f: &mut Formatter<W>) -> Result {
        match self {
            Reason::TextLength => write!(f, "the text has more than 16,384 bytes"),
            Reason::NoToken => write!(f, "no token can begin here"),
            Reason::OpenComment => write!(f, "this comment is never closed"),
            Reason::TouchedNumber => write!(f, "a letter touches this number"),
            Reason::NameLength => write!(f, "this name has more than 16 letters and digits"),
            Reason::NumberSize => write!(f, "this number is above 2,147,483,647"),
            Reason::Token(token) => {
                let token = Printable::text(token);
                write!(f, "no routine can go on with this: '{token}'")
            }
            Reason::End => write!(f, "no routine can go on with this: the end of the text"),
            Reason::Depth => write!(f, "more than 32 openers are nested here"),
            Reason::NameCount => write!(
                f,
                "this is the 65th different name; at most 64 may be used"
            ),
            Reason::NodeCount => write!(f, "the routine has more than 1,024 nodes"),
        }
    }
}
