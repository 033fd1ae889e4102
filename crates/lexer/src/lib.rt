// From bytes to tokens. This crate is internal to the reader: its cursors ask for small places.
#![tactic(auto)]

pub mod bytes;
pub mod cursor;
pub mod lexing;
pub mod token;
pub mod words;
