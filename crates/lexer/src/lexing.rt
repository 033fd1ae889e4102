// The token at the front of a text.
ghost use Rattle.std.specs.Prelude.{◌≡◌, ◌+◌, ◌≤◌, length, drop, Ok, position, ◌==◌};
ghost use Rattle.lexer.specs.Words.{symbol};
ghost use Rattle.lexer.specs.Lexemes.{meant, number_of, lex_meant, lexeme, skip, symbol_at, word_at, number_at, lex};
ghost use Rattle.lexer.specs.Found.{meant_some, others, gap_meant, Closes, Refuses};
ghost use Rattle.lexer.specs.Limited.{asked};

use crate::bytes::{decimal, is_blank, run_length};
use crate::cursor::Cursor;
use crate::token::{Lexeme, Question, Refusal, Token};
use crate::words::word_token;
use grammar::symbols::{Adding, Mark, Multiplying, Operator, Prefix, Relation};

// The most bytes of a name.
const NAME_LENGTH: usize = 16;

// The token that a character is by itself.
fn symbol_token(b: u8) -> Option<Token<'static>>
    ensures { meant_some result ≡ others (symbol b) }
{
    match char::from(b) {
        '+' => Some(Token::Operator(Operator::Add(Adding::Plus))),
        '-' => Some(Token::Operator(Operator::Add(Adding::Minus))),
        '*' => Some(Token::Operator(Operator::Mul(Multiplying::Times))),
        '/' => Some(Token::Mark(Mark::Slash)),
        '(' => Some(Token::Prefix(Prefix::Open)),
        ')' => Some(Token::Mark(Mark::Close)),
        '=' => Some(Token::Operator(Operator::Rel(Relation::Equal))),
        '<' => Some(Token::Operator(Operator::Rel(Relation::Less))),
        '>' => Some(Token::Operator(Operator::Rel(Relation::Greater))),
        ':' => Some(Token::Mark(Mark::Colon)),
        ';' => Some(Token::Mark(Mark::Semicolon)),
        ',' => Some(Token::Mark(Mark::Comma)),
        '.' => Some(Token::Mark(Mark::Period)),
        _ => None,
    }
}

// Where the comment closes that `text` is inside of.
fn comment_end(text: &[u8]) -> Option<usize>
    ensures { result ≡ position (λ b. b == 125) text.now }
{
    text.iter().position(|b| *b == b'}')
}

impl<'a> Cursor<'a> {
    // What stands after the comment that the cursor is inside of, or nothing where it is not closed.
    fn after_comment(self) -> Option<Cursor<'a>>
        ensures { Closes self.entry.place self.entry.rest.now result }
    {
        let n = comment_end(self.rest)?;
        Some(self.advanced(n + 1))
    }

    // Passes blanks and comments.
    fn skip_gap(self) -> Result<Cursor<'a>, Refusal>
        ensures is { gap_meant result ≡ skip self.entry.place self.entry.rest.now }
        ensures question { Refuses 2 result }
    {
        let mut at = self;
        loop {
            match at.rest {
                [b, ..] if is_blank(*b) => at = at.advanced(1),
                [b'{', ..] => at = at.advanced(1).after_comment().ok_or(at.no_token())?,
                _ => return Ok(at),
            }
        }
    }

    // No token stands here.
    fn no_token(self) -> Refusal
        ensures question { number_of result.question ≡ 2 }
        ensures place { result.place ≡ self.entry.place }
    {
        Refusal {
            question: Question::Token,
            place: self.place,
        }
    }

    // The token of the next n bytes.
    fn lexeme(self, token: Token<'a>, n: usize) -> Lexeme<'a>
        requires { n ≤ length self.rest.now }
        ensures { lex_meant (Ok result) ≡ lexeme (meant token.entry) self.entry.place (self.entry.place + n) (drop n self.entry.rest.now) }
    {
        Lexeme {
            token,
            place: self.place,
            end: self.advanced(n),
        }
    }

    // The symbol at the front; the end of the text is one too.
    fn symbol(self) -> Result<Lexeme<'a>, Refusal>
        ensures { lex_meant result ≡ symbol_at self.entry.place self.entry.rest.now }
    {
        match self.rest {
            [] => Ok(self.lexeme(Token::Mark(Mark::Stop), 0)),
            [b':', b'=', ..] => Ok(self.lexeme(Token::Mark(Mark::Becomes), 2)),
            [b, ..] => {
                let token = symbol_token(*b).ok_or(self.no_token())?;
                Ok(self.lexeme(token, 1))
            }
        }
    }

    // A word is a letter and all letters and digits after it.
    fn word(self) -> Lexeme<'a>
        ensures { lex_meant (Ok result) ≡ word_at self.entry.place self.entry.rest.now }
    {
        let n = run_length(self.rest, |b| b.is_ascii_alphanumeric());
        self.lexeme(word_token(&self.rest[..n]), n)
    }

    // A number is digits that no letter touches.
    fn number(self) -> Result<Lexeme<'a>, Refusal>
        ensures { lex_meant result ≡ number_at self.entry.place self.entry.rest.now }
    {
        let n = run_length(self.rest, |b| b.is_ascii_digit());
        let (digits, rest) = self.rest.split_at(n);
        match rest {
            [b, ..] if b.is_ascii_alphabetic() => Err(self.no_token()),
            _ => Ok(self.lexeme(Token::Number(digits), n)),
        }
    }

    // The token at the front, after blanks and comments.
    pub fn next_token(self) -> Result<Lexeme<'a>, Refusal>
        ensures { lex_meant result ≡ lex self.entry.place self.entry.rest.now }
    {
        let at = self.skip_gap()?;
        match at.rest {
            [b, ..] if b.is_ascii_alphabetic() => Ok(at.word()),
            [b, ..] if b.is_ascii_digit() => at.number(),
            _ => at.symbol(),
        }
    }

    // The same, where the token keeps the limits on names and numbers.
    pub fn next_limited(self) -> Result<Lexeme<'a>, Refusal>
        ensures { lex_meant result ≡ asked (lex self.entry.place self.entry.rest.now) }
    {
        let lexeme = self.next_token()?;
        let question = match lexeme.token {
            Token::Name(name) if name.len() > NAME_LENGTH => Question::NameLength,
            Token::Number(digits) if decimal(digits).is_none() => Question::NumberSize,
            _ => return Ok(lexeme),
        };
        Err(Refusal {
            question,
            place: lexeme.place,
        })
    }
}
