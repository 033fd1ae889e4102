// The rules of Tosca that every layer shares: operators and their arithmetic, and the node table's format.
#![tactic(auto)]

pub mod arithmetic;
pub mod codes;
pub mod display;
pub mod laws;
pub mod operators;
pub mod table;
