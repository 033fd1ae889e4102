// Asking a draft the static rules, and the state of a routine that passes.
#![tactic(auto)]

pub mod checking;
mod declarations;
mod lowering;
pub mod nodes;
mod passes;
mod setting;
pub mod state;
mod temporaries;
mod typing;
