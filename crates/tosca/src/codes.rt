// The codes of types and operators in the table formats, which hold plain numbers.
ghost use Rattle.std.specs.Prelude.{◌≡◌, ◌++◌, Some, codes, decimal};
ghost use Rattle.tosca.specs.Table.{type_code, type_of, unary_code, unary_of, binary_code, binary_of, from_code};

use crate::operators::{Binary, SimpleType, Unary};
use std::error::Error;
use std::fmt;

// An impl for each type: a cast or a match of literals needs a known type, and the gate refuses impls that a macro writes.

// A code that names no type, or no operator of so many operands.
#[derive(Clone, Copy, PartialEq, Eq, Debug)]
pub struct UnknownCode(pub u8);

impl fmt::Display for UnknownCode {
    ghost output = { λ e. Some (codes "nothing has the code " ++ decimal e.0) };

    fn fmt<W: fmt::Write>(&self, f: &mut fmt::Formatter<W>) -> fmt::Result {
        write!(f, "nothing has the code {}", self.0)
    }
}

impl Error for UnknownCode {}

impl From<SimpleType> for u8 {
    ghost from_gives = { λ y c. c ≡ type_code y };

    fn from(typ: SimpleType) -> u8 {
        typ as u8
    }
}

impl TryFrom<u8> for SimpleType {
    type Error = UnknownCode;

    ghost try_from_gives = { λ c r. r ≡ from_code type_of c };

    fn try_from(code: u8) -> Result<SimpleType, UnknownCode> {
        match code {
            1 => Ok(SimpleType::Integer),
            2 => Ok(SimpleType::Boolean),
            _ => Err(UnknownCode(code)),
        }
    }
}

impl From<Unary> for u8 {
    ghost from_gives = { λ o c. c ≡ unary_code o };

    fn from(op: Unary) -> u8 {
        op as u8
    }
}

impl TryFrom<u8> for Unary {
    type Error = UnknownCode;

    ghost try_from_gives = { λ c r. r ≡ from_code unary_of c };

    fn try_from(code: u8) -> Result<Unary, UnknownCode> {
        match code {
            1 => Ok(Unary::Negate),
            2 => Ok(Unary::Not),
            _ => Err(UnknownCode(code)),
        }
    }
}

impl From<Binary> for u8 {
    ghost from_gives = { λ o c. c ≡ binary_code o };

    fn from(op: Binary) -> u8 {
        op as u8
    }
}

impl TryFrom<u8> for Binary {
    type Error = UnknownCode;

    ghost try_from_gives = { λ c r. r ≡ from_code binary_of c };

    fn try_from(code: u8) -> Result<Binary, UnknownCode> {
        match code {
            3 => Ok(Binary::Add),
            4 => Ok(Binary::Subtract),
            5 => Ok(Binary::Multiply),
            6 => Ok(Binary::Divide),
            7 => Ok(Binary::Round),
            8 => Ok(Binary::Less),
            9 => Ok(Binary::Greater),
            10 => Ok(Binary::Equal),
            11 => Ok(Binary::And),
            12 => Ok(Binary::Or),
            _ => Err(UnknownCode(code)),
        }
    }
}
