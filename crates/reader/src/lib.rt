// The reader: from a text to its node table, and the names of a text.
#![tactic(auto)]

pub mod laws;
pub mod naming;
pub mod program;
pub mod reading;
