// Commands: from tokens to nodes. This crate is internal to the reader.
// A parser and a table go side by side: a table lent inside a struct needs a clause, in each function, that it is still the same one.
#![tactic(auto)]

pub mod commands;
pub mod simple_commands;
