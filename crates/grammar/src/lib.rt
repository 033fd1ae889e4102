// The grammar of routines: its symbols, and in specs/ its derivations and the automaton that reads token by token.
#![tactic(auto)]

pub mod symbols;
pub mod theorems;
