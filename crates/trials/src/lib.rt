// Trials of the reader: its limits, its refusals and its tables, on examples.
#![tactic(auto)]

pub mod examples;
#[cfg(test)]
mod limits;
#[cfg(test)]
mod refusals;
#[cfg(test)]
mod tables;
#[cfg(test)]
mod trying;
