// Lines: readings on their way to a routine, and sends on their way from it.
#![tactic(auto)]

pub mod answers;
mod bank;
mod cells;
pub mod interface;
mod numbers;
mod queue;
mod queue_line;
pub mod registers;
pub mod ring;
pub mod transfer;
