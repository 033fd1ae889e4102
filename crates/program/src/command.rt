// What the words of the command line ask for.
use crate::edition::Edition;
use std::fmt::{Display, Formatter, Result, Write};

#[derive(Clone, Copy)]
pub enum Command<'a> {
    Help,
    Check(&'a str),
    Read(&'a str),
    Table(&'a str),
    Batch,
}

impl<'a> Command<'a> {
    // The command of the words after the program's own name, if they are one that the edition has.
    pub fn parse(words: &'a [String], edition: Edition) -> Option<Command<'a>> {
        match words {
            [] => Some(Command::Help),
            [word] => match word.as_str() {
                "help" | "--help" => Some(Command::Help),
                "batch" => Some(Command::Batch),
                _ => None,
            },
            [word, file] => match word.as_str() {
                "check" if edition == Edition::Checking => Some(Command::Check(file.as_str())),
                "read" => Some(Command::Read(file.as_str())),
                "table" => Some(Command::Table(file.as_str())),
                _ => None,
            },
            _ => None,
        }
    }
}

const CHECK: &str =
    "wisnoeur check FILE   say whether the routine in FILE may be translated, or else why not and where
       ";

const OTHERS: &str = "wisnoeur read FILE    say whether FILE is a routine, or else why not and where
       wisnoeur table FILE   print the node table of the routine in FILE
       wisnoeur batch        answer calls on standard input, one a line
       wisnoeur help         print this";

// The commands of an edition, as help prints them.
#[derive(Clone, Copy)]
pub struct Usage(pub Edition);

impl Display for Usage {
    fn fmt<W: Write>(&self, f: &mut Formatter<W>) -> Result {
        let check = match self.0 {
            Edition::Reading => "",
            Edition::Checking => CHECK,
        };
        write!(f, "usage: {check}{OTHERS}")
    }
}
