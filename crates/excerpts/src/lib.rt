// Places of a text, and parts of it as they are shown.
#![tactic(auto)]

pub mod excerpt;
pub mod position;
pub mod printable;
