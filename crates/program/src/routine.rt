// The commands on one routine in a file.
use crate::failure::Failure;
use crate::report::{Report, spelling};
use console::naming::Named;
use excerpts::position::Position;
use parser::names::Names;
use reader::naming::names_of;
use reader::reading::{self, MAX_NODES, MAX_TEXT};
use std::fs::File;
use std::io;
use std::io::{BufWriter, Read, Write};
use tosca::table::{BLANK, Entry};
use verdict::judging::judge;
use verdict::rejection::Rejection;

// One byte more than a routine may have, which is enough to refuse a text for its length.
const ENOUGH: u64 = MAX_TEXT as u64 + 1;

// Says whether the routine in the file may be translated.
pub fn check(rt: &HostRuntime, file: &str) -> Result<(), Failure> {
    let text = load(rt, file)?;
    let nodes = judge(&text).map_err(|rejection| reject(rt, file, &text, rejection))?;
    let names = names_of(&text).count;
    println!(rt; "accepted: {nodes} nodes, {names} names")?;
    Ok(())
}

// Says whether the file is a routine.
pub fn read(rt: &HostRuntime, file: &str) -> Result<(), Failure> {
    let text = load(rt, file)?;
    let mut table = [BLANK; MAX_NODES];
    let nodes = accept(rt, file, &text, &mut table)?;
    let names = names_of(&text).count;
    println!(rt; "read: {nodes} nodes, {names} names (not yet checked)")?;
    Ok(())
}

// Prints the node table, one node a line.
pub fn table(rt: &HostRuntime, file: &str) -> Result<(), Failure> {
    let text = load(rt, file)?;
    let mut table = [BLANK; MAX_NODES];
    let nodes = accept(rt, file, &text, &mut table)?;
    let names = names_of(&text);
    let mut out = BufWriter::new(rt.alloc(), rt.stdout())?;
    for (number, entry) in table.iter().take(nodes).enumerate() {
        print_node(&mut out, number, entry, &text, &names)?;
    }
    out.flush()?;
    Ok(())
}

// The bytes of the file, as many as matter.
fn load(rt: &HostRuntime, file: &str) -> Result<Vec<u8>, Failure> {
    load_bytes(rt, file).try_map_err(|error| -> Result<Failure, Failure> {
        Ok(Failure::Unreadable(String::from_str(rt.alloc(), file)?, error))
    })
}

fn load_bytes(rt: &HostRuntime, file: &str) -> io::Result<Vec<u8>> {
    let mut text = Vec::new(rt.alloc());
    File::open(rt, file)?.take(ENOUGH).read_to_end(&mut text)?;
    Ok(text)
}

// Reads the text to its table, or prints why it is refused.
fn accept<'a>(
    rt: &HostRuntime,
    file: &'a str,
    text: &'a [u8],
    table: &mut [Entry],
) -> Result<usize, Failure> {
    reading::read(text, table).map_err(|refusal| reject(rt, file, text, Rejection::Unread(refusal)))
}

// Prints why the text is refused.
fn reject<'a>(rt: &HostRuntime, file: &'a str, text: &'a [u8], rejection: Rejection) -> Failure {
    let report = Report {
        file,
        text,
        rejection,
    };
    match rt.println(report) {
        Ok(()) => Failure::Refused,
        Err(error) => error.into(),
    }
}

// One line of the table: the node's number, the node, and where it stands.
fn print_node<W: Write>(
    out: &mut W,
    number: usize,
    entry: &Entry,
    text: &[u8],
    names: &Names,
) -> io::Result<()> {
    let place = Position::new(text, usize::from(entry.place));
    let Some(node) = entry.node() else {
        return writeln!(out, "{number:>4}  {entry}  {place}");
    };
    let name = spelling(names, node);
    let named = Named { node, name };
    writeln!(out, "{number:>4}  {named}  {place}")
}
