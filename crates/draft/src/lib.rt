// A node table that opens is a draft: it has one tree, and every later stage can rely on that.
#![tactic(auto)]

mod arrangement;
pub mod draft;
pub mod malformed;
mod nodes;
pub mod opening;
mod questions;
