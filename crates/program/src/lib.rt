// The command-line program. Two programs are made of it: the one that reads routines, and the one that also checks them.
#![tactic(auto)]

mod batch;
mod command;
mod edition;
mod failure;
mod fields;
mod nodes;
mod report;
mod request;
mod routine;
pub mod running;
