// The program that reads and checks routines.
#![tactic(auto)]

use program::running::{Edition, run};
use std::process::ExitCode;

fn main(rt: HostRuntime) -> ExitCode {
    run(&rt, Edition::Checking)
}
