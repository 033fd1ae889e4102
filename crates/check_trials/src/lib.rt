// Trials of opening and checking, on examples.
#![tactic(auto)]

pub mod examples;
#[cfg(test)]
mod tables;
#[cfg(test)]
mod texts;
