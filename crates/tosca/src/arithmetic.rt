// The one arithmetic: what an operator gives, or the cause why there is none.
ghost use Rattle.std.specs.Prelude.{◌≡◌, ◌+◌, ◌*◌, ◌/◌, ◌^◌, ◌<◌};
ghost use Rattle.tosca.specs.Arithmetic.{unary, binary, signed, cause_number};

use crate::operators::{Binary, Cause, Unary};

impl Cause {
    // The number that users see.
    pub fn number(self) -> u8
        ensures { result ≡ cause_number self }
    {
        self as u8
    }
}

impl Unary {
    pub fn apply(self, a: i32) -> Result<i32, Cause>
        ensures { result ≡ unary self a }
    {
        match self {
            Unary::Negate => a.checked_neg().ok_or(Cause::Range),
            Unary::Not => Ok(i32::from(a == 0)),
        }
    }
}

impl Binary {
    pub fn apply(self, a: i32, b: i32) -> Result<i32, Cause>
        ensures { result ≡ binary self a b }
    {
        match self {
            Binary::Add => a.checked_add(b).ok_or(Cause::Range),
            Binary::Subtract => a.checked_sub(b).ok_or(Cause::Range),
            Binary::Multiply => a.checked_mul(b).ok_or(Cause::Range),
            Binary::Divide => divide(a, b),
            Binary::Round => round(a, b),
            Binary::Less => Ok(i32::from(a < b)),
            Binary::Greater => Ok(i32::from(a > b)),
            Binary::Equal => Ok(i32::from(a == b)),
            Binary::And => Ok(i32::from(a != 0 && b != 0)),
            Binary::Or => Ok(i32::from(a != 0 || b != 0)),
        }
    }
}

fn divide(a: i32, b: i32) -> Result<i32, Cause>
    ensures { result ≡ binary Binary.Divide a b }
{
    if b == 0 {
        return Err(Cause::ZeroDivisor);
    }
    a.checked_div(b).ok_or(Cause::Range)
}

fn round(a: i32, b: i32) -> Result<i32, Cause>
    ensures { result ≡ binary Binary.Round a b }
{
    if b == 0 {
        return Err(Cause::ZeroDivisor);
    }
    let size = rounded_size(a.unsigned_abs(), b.unsigned_abs());
    i32::try_from(with_sign(a, b, size)).map_err(|_| Cause::Range)
}

// The nearest integer to n / d, halves upward.
fn rounded_size(n: u32, d: u32) -> u64
    requires { 0 < d }
    ensures { result ≡ (2 * n + d) / (2 * d) }
{
    (2 * u64::from(n) + u64::from(d)) / (2 * u64::from(d))
}

// A size with the sign of a / b.
fn with_sign(a: i32, b: i32, size: u64) -> i64
    requires { size < 2 ^ 63 }
    ensures { result ≡ signed a b size }
{
    if (a < 0) == (b < 0) {
        size as i64
    } else {
        -(size as i64)
    }
}
