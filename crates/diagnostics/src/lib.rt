// What is said of a routine that breaks a static rule.
#![tactic(auto)]

pub mod complaint;
