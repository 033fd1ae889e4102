// The program from its start to its end.
ghost use Rattle.std.specs.Prelude.{◌≡◌, ◌⊎◌};

use crate::command::{Command, Usage};
pub use crate::edition::Edition;
use crate::failure::Failure;
use crate::{batch, routine};
use std::env;
use std::process::ExitCode;

// Does what the words of the command line ask for. The status is 0, or 1 where something is refused or fails.
pub fn run(rt: &HostRuntime, edition: Edition) -> ExitCode
    ensures { (result.status ≡ 0) ⊎ (result.status ≡ 1) }
{
    match obey(rt, edition) {
        Ok(()) => ExitCode::SUCCESS,
        Err(Failure::Refused) => ExitCode::FAILURE,
        Err(failure) => {
            let _ = rt.eprintln(format_args!("wisnoeur: {failure}"));
            ExitCode::FAILURE
        }
    }
}

fn obey(rt: &HostRuntime, edition: Edition) -> Result<(), Failure> {
    let words: Vec<String> = env::args(rt)?.skip(1).collect(rt.alloc())?;
    match Command::parse(words.as_slice(), edition) {
        Some(Command::Help) => Ok(rt.println(Usage(edition))?),
        Some(Command::Check(file)) => routine::check(rt, file),
        Some(Command::Read(file)) => routine::read(rt, file),
        Some(Command::Table(file)) => routine::table(rt, file),
        Some(Command::Batch) => Ok(batch::run(rt, edition)?),
        None => Err(Failure::Usage(edition)),
    }
}
