// Trials of the lines: both makes at their limits, all the way round, and with numbers from both ends of the range.
#![tactic(auto)]

pub mod examples;
#[cfg(test)]
mod makes;
