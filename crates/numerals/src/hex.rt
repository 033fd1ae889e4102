// Bytes written as two small hexadecimal digits each.
ghost use Rattle.std.specs.Prelude.{◌≡◌, IfOk, vec_items};
ghost use Rattle.std.specs.Option.{option_map};
ghost use Rattle.numerals.specs.Hexadecimal.{digit_of, byte_of, bytes_of};

use std::alloc::{AllocError, Global};

// What a digit counts.
fn digit(b: u8) -> Option<u8>
    ensures { result ≡ digit_of b }
{
    match b {
        b'0'..=b'9' => Some(b - b'0'),
        b'a'..=b'f' => Some(b - b'a' + 10),
        _ => None,
    }
}

// The byte of two digits.
fn byte(high: u8, low: u8) -> Option<u8>
    ensures { result ≡ byte_of high low }
{
    Some(16 * digit(high)? + digit(low)?)
}

// The bytes that the digits write, or nothing where some are no digits or one is left.
pub fn decode(heap: Global, digits: &[u8]) -> Result<Option<Vec<u8>>, AllocError>
    ensures { IfOk result (λ v. option_map vec_items v ≡ bytes_of digits.now) }
{
    let mut bytes = Vec::new(heap);
    // a slice pattern takes two digits and leaves one that is over, which chunks would keep apart
    let mut rest = digits;
    while let [high, low, more @ ..] = rest {
        match byte(*high, *low) {
            Some(b) => bytes.push(b)?,
            None => return Ok(None),
        }
        rest = more;
    }
    Ok(if rest.is_empty() { Some(bytes) } else { None })
}
