// Bytes: blanks, and the number that digits spell.
ghost use Rattle.std.specs.Prelude.{◌≡◌, ℕ, Bool, ◌≤◌, length};
ghost use Rattle.lexer.specs.Spelling.{blank, run};
ghost use Rattle.lexer.specs.Limited.{decimal, number_within};
ghost use Rattle.lexer.specs.Digits.{longer};

pub(crate) fn is_blank(b: u8) -> bool
    ensures { result ≡ blank b }
{
    matches!(b, b' ' | b'\t' | b'\r' | b'\n')
}

// How many bytes at the front pass the test: the run of any p that says what the test says.
pub(crate) fn run_length<F: Fn(u8) -> bool>(text: &[u8], test: F) -> usize
    requires { F.IsAlwaysCallable test }
    ensures is { (p : ℕ → Bool) → ((b : ℕ) (r : Bool) → F.post test b r → r ≡ p b) → result ≡ run p text.now }
    ensures within { result ≤ length text.now }
{
    text.iter().take_while(|b| test(**b)).count()
}

// The largest number that a text may hold.
const LARGEST: u32 = 2147483647;

// The number that the digits spell, or nothing where it is too large.
pub fn decimal(digits: &[u8]) -> Option<i32>
    ensures { result ≡ decimal digits.now }
{
    number(digits, LARGEST).map(|n| n as i32)
}

// The number that the digits spell, or nothing where it is above `most`.
pub fn number(digits: &[u8], most: u32) -> Option<u32>
    ensures { result ≡ number_within most digits.now }
{
    let mut n = 0;
    for b in digits {
        n = with_digit(n, *b, most)?;
    }
    Some(n)
}

// The number with one digit more, or nothing where it is above `most`.
pub fn with_digit(n: u32, b: u8, most: u32) -> Option<u32>
    ensures { result ≡ longer most n b }
{
    let n = 10 * u64::from(n) + u64::from(b.saturating_sub(b'0'));
    if n > u64::from(most) {
        return None;
    }
    Some(n as u32)
}
