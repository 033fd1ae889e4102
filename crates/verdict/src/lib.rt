// The verdict on a text: reading and checking in one call, for the program and for editors written in C.
#![tactic(auto)]

pub mod editor;
pub mod judging;
pub mod rejection;
