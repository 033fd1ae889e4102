// What a line of a batch asks for.
use crate::edition::Edition;
use crate::fields::is_list;
use crate::nodes::{entries, is_table, short};
use numerals::hex::decode;
use numerals::number::{integer, natural};
use std::alloc::{AllocError, Global};
use tosca::table::Entry;

#[derive(Drop)]
pub enum Request<'a> {
    Level(&'a str),
    New,
    Verdict(Vec<u8>),
    // with room for `cap` entries
    Read {
        cap: usize,
        text: Vec<u8>,
    },
    Raw {
        cap: usize,
        count: usize,
        entries: Vec<Entry>,
    },
    Table,
    Open,
    Check,
    Pass,
}

// Why a line is no request.
#[derive(Clone, Copy)]
pub enum RequestError {
    // a call that is not offered
    Unsupported,
    Malformed,
    OutOfMemory(AllocError),
}

impl From<AllocError> for RequestError {
    fn from(error: AllocError) -> RequestError {
        RequestError::OutOfMemory(error)
    }
}

impl<'a> Request<'a> {
    // What the line asks for, if the edition has it.
    pub fn parse(
        heap: Global,
        line: &'a [u8],
        edition: Edition,
    ) -> Result<Request<'a>, RequestError> {
        let request = Request::parse_any(heap, line, edition)?;
        if edition == Edition::Reading && request.is_of_checking() {
            return Err(RequestError::Unsupported);
        }
        Ok(request)
    }

    // What the line asks for in any edition, but for a table, for which only an edition that has the call makes room.
    fn parse_any(
        heap: Global,
        line: &'a [u8],
        edition: Edition,
    ) -> Result<Request<'a>, RequestError> {
        let line = std::str::from_utf8(line).map_err(|_| RequestError::Malformed)?;
        let words: Vec<&str> = line.split(' ').collect(heap)?;
        match words.as_slice() {
            ["level", level] if short(level).is_some() => Ok(Request::Level(level)),
            ["new"] => Ok(Request::New),
            ["verdict", text] => Ok(Request::Verdict(bytes(heap, text)?)),
            ["read", cap, text] => Ok(Request::Read {
                cap: size(cap)?,
                text: bytes(heap, text)?,
            }),
            ["raw", cap, count, list] if edition == Edition::Checking => Ok(Request::Raw {
                cap: size(cap)?,
                count: size(count)?,
                entries: entries(heap, list)?,
            }),
            ["table"] => Ok(Request::Table),
            ["open"] => Ok(Request::Open),
            ["check"] => Ok(Request::Check),
            ["pass"] => Ok(Request::Pass),
            words => Err(refused(words)),
        }
    }

    fn is_of_checking(&self) -> bool {
        matches!(
            self,
            Request::Verdict(_) | Request::Open | Request::Check | Request::Pass
        )
    }
}

// The bytes of a text; those of an empty one are written as a hyphen.
fn bytes(heap: Global, word: &str) -> Result<Vec<u8>, RequestError> {
    match word {
        "-" => Ok(Vec::new(heap)),
        "" => Err(RequestError::Malformed),
        _ => decode(heap, word.as_bytes())?.ok_or(RequestError::Malformed),
    }
}

// Why the words are no request: a call that is not offered, or no call.
fn refused(words: &[&str]) -> RequestError {
    let is_call = match words {
        ["code" | "mount" | "stop" | "take" | "lists" | "cells"] => true,
        ["start", "ring" | "register"] => true,
        ["translate", cap] => short(cap).is_some(),
        ["feed", value] => integer(value.as_bytes()).is_some(),
        ["run", grant] => natural(grant.as_bytes(), u32::MAX).is_some(),
        ["raw", cap, count, list] => {
            short(cap).is_some() && short(count).is_some() && is_table(list)
        }
        ["rawcode", cap, count, list] => {
            short(cap).is_some() && short(count).is_some() && is_list(list)
        }
        _ => false,
    };
    if is_call {
        RequestError::Unsupported
    } else {
        RequestError::Malformed
    }
}

// A count of entries, of 16 bits.
fn size(word: &str) -> Result<usize, RequestError> {
    short(word).map(usize::from).ok_or(RequestError::Malformed)
}
