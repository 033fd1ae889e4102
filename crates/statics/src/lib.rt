// The static rules of Tosca: which routines may be translated. Definitions and their laws; the crates above ask them of a table.
#![tactic(auto)]

pub mod laws;
pub mod rules;
pub mod verdict;
