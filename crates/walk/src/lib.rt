// One walk over the expression nodes of a draft serves every reading of an expression.
#![tactic(auto)]

pub mod declarations;
pub mod names;
pub mod reading;
pub mod temporaries;
pub mod types;
pub mod variables;
pub mod walking;
