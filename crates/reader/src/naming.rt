// The names of a text after the program's, in the order of their numbers.
ghost use Rattle.std.specs.Prelude.{◌≡◌, ◌≤◌};
ghost use Rattle.parser.specs.Feeds.{known_of};
ghost use Rattle.reader.specs.Naming.{named, Noted, Spelled};

use crate::reading::MAX_TEXT;
use grammar::symbols::Mark;
use lexer::cursor::Cursor;
use lexer::token::Token;
use parser::names::Names;

// Notes the name that a token is. False at the end, and where the name would be one too many.
fn note<'a>(names: &mut Names<'a>, token: Token<'a>) -> bool
    requires { names.old.count ≤ 64 }
    ensures { Noted names.old token.entry names.new result }
{
    match token {
        Token::Name(word) => names.number(word).is_some(),
        Token::Mark(Mark::Stop) => false,
        _ => true,
    }
}

// The names up to the first bytes that are no token within its limits, or to the first name that is one too many; a text that is too long has none.
pub fn names_of<'a>(text: &'a [u8]) -> Names<'a>
    ensures is { (known_of result ≡ named text.now) × (result.count ≤ 64) }
    ensures spelled { Spelled text.now (known_of result).names }
{
    let mut names = Names::new();
    if text.len() > MAX_TEXT {
        return names;
    }
    let mut at = Cursor::new(text);
    while let Ok(lexeme) = at.next_limited() {
        if !note(&mut names, lexeme.token) {
            return names;
        }
        at = lexeme.end;
    }
    names
}
