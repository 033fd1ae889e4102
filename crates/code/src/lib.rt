// The code table: its format, and mounted code, which a panel can rely on.
#![tactic(auto)]

pub mod laws;
pub mod mounted;
pub mod mounting;
mod questions;
pub mod table;
pub mod unmountable;
