// Words: which are never names, and which are the same.
ghost use Rattle.std.specs.Prelude.{◌≡◌, find as first};
ghost use Rattle.lexer.specs.Spelling.{lowered, same};
ghost use Rattle.lexer.specs.Words.{find, reserved};
ghost use Rattle.lexer.specs.Lexemes.{meant, keyword};
ghost use Rattle.lexer.specs.Found.{meant_some, others, rows, find_row};

use crate::token::Token;
use grammar::symbols::{Adding, Mark, Multiplying, Operator, Prefix, Start};
use tosca::operators::SimpleType;

// Whether two words are spelled the same, capitals counting as small letters.
#[tactic(auto, using(crate::proofs::Reserving::same_from_equal))]
pub fn same_word(a: &[u8], b: &[u8]) -> bool
    ensures { result ≡ same (lowered a.now) (lowered b.now) }
{
    a.eq_ignore_ascii_case(b)
}

// A word that is never a name, in small letters, and its token.
#[derive(Clone, Copy)]
struct ReservedWord(&'static [u8], Token<'static>);

// Searched from its first to its last, since a map would want a heap.
const RESERVED: [ReservedWord; 42] = [
    ReservedWord(b"and", Token::Operator(Operator::Mul(Multiplying::And))),
    ReservedWord(b"array", Token::Unused),
    ReservedWord(b"begin", Token::Start(Start::Begin)),
    ReservedWord(b"case", Token::Unused),
    ReservedWord(b"const", Token::Unused),
    ReservedWord(b"div", Token::Operator(Operator::Mul(Multiplying::Div))),
    ReservedWord(b"do", Token::Mark(Mark::Do)),
    ReservedWord(b"downto", Token::Unused),
    ReservedWord(b"else", Token::Else),
    ReservedWord(b"end", Token::Mark(Mark::End)),
    ReservedWord(b"file", Token::Unused),
    ReservedWord(b"for", Token::Unused),
    ReservedWord(b"function", Token::Unused),
    ReservedWord(b"goto", Token::Unused),
    ReservedWord(b"if", Token::Start(Start::If)),
    ReservedWord(b"in", Token::Unused),
    ReservedWord(b"label", Token::Unused),
    ReservedWord(b"mod", Token::Unused),
    ReservedWord(b"nil", Token::Unused),
    ReservedWord(b"not", Token::Prefix(Prefix::Not)),
    ReservedWord(b"of", Token::Unused),
    ReservedWord(b"or", Token::Operator(Operator::Add(Adding::Or))),
    ReservedWord(b"packed", Token::Unused),
    ReservedWord(b"procedure", Token::Unused),
    ReservedWord(b"program", Token::Mark(Mark::Program)),
    ReservedWord(b"record", Token::Unused),
    ReservedWord(b"repeat", Token::Unused),
    ReservedWord(b"set", Token::Unused),
    ReservedWord(b"then", Token::Mark(Mark::Then)),
    ReservedWord(b"to", Token::Unused),
    ReservedWord(b"type", Token::Unused),
    ReservedWord(b"until", Token::Unused),
    ReservedWord(b"var", Token::Mark(Mark::Var)),
    ReservedWord(b"while", Token::Start(Start::While)),
    ReservedWord(b"with", Token::Unused),
    ReservedWord(b"integer", Token::TypeName(SimpleType::Integer)),
    ReservedWord(b"boolean", Token::TypeName(SimpleType::Boolean)),
    ReservedWord(b"true", Token::Truth(true)),
    ReservedWord(b"false", Token::Truth(false)),
    ReservedWord(b"read", Token::Start(Start::Read)),
    ReservedWord(b"write", Token::Start(Start::Write)),
    ReservedWord(b"round", Token::Prefix(Prefix::Round)),
];

// The first of the words that is spelled as `word` is.
fn first_spelled(word: &[u8], words: &[ReservedWord]) -> Option<ReservedWord>
    ensures { result ≡ first (λ r. same (lowered word.now) (lowered r.0.now)) words.now }
{
    words
        .iter()
        .copied()
        .find(|reserved| same_word(word, reserved.0))
}

// Its token.
#[tactic(auto, using(crate::proofs::Reserving::found))]
fn look_up(word: &[u8], words: &[ReservedWord]) -> Option<Token<'static>>
    ensures { meant_some result ≡ find_row (lowered word.now) (rows words.now) }
{
    first_spelled(word, words).map(|reserved| reserved.1)
}

#[tactic(auto, using(crate::proofs::Reserving::found_reserved))]
fn reserved_token(word: &[u8]) -> Option<Token<'static>>
    ensures { meant_some result ≡ others (find (lowered word.now) reserved) }
{
    look_up(word, &RESERVED)
}

// A word is reserved or a name.
#[tactic(auto, using(crate::proofs::Reserving::word_or_name))]
pub(crate) fn word_token<'a>(word: &'a [u8]) -> Token<'a>
    ensures { meant result ≡ keyword word.now }
{
    reserved_token(word).unwrap_or(Token::Name(word))
}
