// Numbers and bytes as they are written in words.
#![tactic(auto)]

pub mod hex;
pub mod number;
