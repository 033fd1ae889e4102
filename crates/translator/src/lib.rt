// Translating a checked routine to code.
#![tactic(auto)]

mod commands;
mod emitter;
mod expressions;
mod instructions;
pub mod translating;
pub mod unfit;
