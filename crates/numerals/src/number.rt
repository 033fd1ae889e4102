// Numbers in words: decimal digits, with a minus in front if below 0.
ghost use Rattle.std.specs.Prelude.{◌≡◌, ◌≤◌, Some};
ghost use Rattle.numerals.specs.Decimal.{natural_of, longer, below, integer_of};

use lexer::bytes;

// The number that the word writes, if it writes one of at most `most`.
pub fn natural(word: &[u8], most: u32) -> Option<u32>
    ensures { result ≡ natural_of most word.now }
{
    if word.is_empty() {
        return None;
    }
    let mut n = 0;
    // up to the first byte that is no digit, or makes the number too large
    for b in word {
        n = with_digit(n, *b, most)?;
    }
    Some(n)
}

// The number with one digit more, if the byte is a digit and the number stays at most `most`.
fn with_digit(n: u32, b: u8, most: u32) -> Option<u32>
    ensures { result ≡ longer most n b }
{
    if !b.is_ascii_digit() {
        return None;
    }
    bytes::with_digit(n, b, most)
}

// The number of 32 bits that the word writes.
pub fn integer(word: &[u8]) -> Option<i32>
    ensures { result ≡ integer_of word.now }
{
    match word {
        [b'-', digits @ ..] => negated(natural(digits, i32::MIN.unsigned_abs())?),
        _ => i32::try_from(natural(word, i32::MAX.unsigned_abs())?).ok(),
    }
}

// The number below 0, where n is above 0.
fn negated(n: u32) -> Option<i32>
    requires { n ≤ 2147483648 }
    ensures { result ≡ below (Some n) }
{
    if n == 0 {
        return None;
    }
    0i32.checked_sub_unsigned(n)
}
