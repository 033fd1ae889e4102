// Sets of names.
ghost use Rattle.std.specs.Prelude.{◌≡◌, ℕ, ◌^◌, ◌<◌, ◌==◌, bit_and, bit_or};
ghost use Rattle.walk.specs.Readings.{holds};

use std::marker::Model;
use std::ops::{BitAnd, BitOr};

// A set of names, one bit for each.
#[derive(Clone, Copy, PartialEq, Eq)]
pub struct Names {
    bits: u64,
}

// Clauses see the number that the bits make up.
impl Model for Names {
    ghost use Rattle.std.specs.Prelude.{ℕ};

    ghost Value = { ℕ };

    ghost view = { λ s. s.bits };

    ghost inverse = { λ n. record { bits = n } };
}

impl Names {
    pub fn none() -> Names
        ensures { result ≡ 0 }
    {
        Names { bits: 0 }
    }

    pub fn one(name: u16) -> Names
        requires { name < 64 }
        ensures { result ≡ 2 ^ name }
    {
        Names { bits: 1u64 << name }
    }

    pub fn has(self, name: u16) -> bool
        requires { name < 64 }
        ensures { result ≡ holds self name }
    {
        (self.bits >> name) % 2 == 1
    }

    pub fn with(self, name: u16) -> Names
        requires { name < 64 }
        ensures { result ≡ bit_or self (2 ^ name) }
    {
        self | Names::one(name)
    }

    // The set has every name of the other.
    pub fn covers(self, other: Names) -> bool
        ensures { result ≡ (bit_or other self == self) }
    {
        (other | self) == self
    }
}

// The set of these bits.
impl From<u64> for Names {
    ghost from_gives = { λ bits set. set ≡ bits };

    fn from(bits: u64) -> Names {
        Names { bits }
    }
}

impl From<Names> for u64 {
    ghost from_gives = { λ set bits. bits ≡ set };

    fn from(set: Names) -> u64 {
        set.bits
    }
}

// What is in one of two sets.
impl BitOr for Names {
    type Output = Names;

    ghost bitor_gives = { λ a b r. r ≡ bit_or a b };

    fn bitor(self, other: Names) -> Names {
        Names {
            bits: self.bits | other.bits,
        }
    }
}

// What is in both.
impl BitAnd for Names {
    type Output = Names;

    ghost bitand_gives = { λ a b r. r ≡ bit_and a b };

    fn bitand(self, other: Names) -> Names {
        Names {
            bits: self.bits & other.bits,
        }
    }
}
