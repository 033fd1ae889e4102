// Aida: its instructions and machine, the source run, the code of a routine, and the plan that a panel must follow.
#![tactic(auto)]

pub mod calls;
pub mod instructions;
pub mod laws;
pub mod status;
