// Why the program ends with status 1.
use crate::command::Usage;
use crate::edition::Edition;
use std::alloc::AllocError;
use std::fmt::{Display, Formatter, Write};
use std::io;

#[derive(Drop)]
pub enum Failure {
    // the routine is refused, which has been printed
    Refused,
    // of the edition whose commands are shown
    Usage(Edition),
    Unreadable(String, io::Error),
    Other(io::Error),
}

impl From<io::Error> for Failure {
    fn from(error: io::Error) -> Failure {
        Failure::Other(error)
    }
}

impl From<AllocError> for Failure {
    fn from(error: AllocError) -> Failure {
        Failure::Other(error.into())
    }
}

impl Display for Failure {
    fn fmt<W: Write>(&self, f: &mut Formatter<W>) -> std::fmt::Result {
        match self {
            Failure::Refused => write!(f, "the routine is refused"),
            Failure::Usage(edition) => {
                write!(f, "these words are no command\n{}", Usage(*edition))
            }
            Failure::Unreadable(file, error) => write!(f, "{file} cannot be read: {error}"),
            Failure::Other(error) => write!(f, "{error}"),
        }
    }
}
