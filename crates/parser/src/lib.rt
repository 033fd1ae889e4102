// The parser's state and its small steps. This crate is internal to the reader: its functions ask their callers to keep places small.
#![tactic(auto)]

pub mod advancing;
pub mod depth;
pub mod names;
pub mod parser;
