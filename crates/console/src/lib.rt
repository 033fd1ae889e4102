// What the command-line program shows, on values alone: nodes with their names, and reasons of refusals.
#![tactic(auto)]

pub mod naming;
pub mod reason;
