// Calls on standard input and their answers, one a line.
use crate::edition::Edition;
use crate::request::{Request, RequestError};
use checks::checking::{check, pass};
use checks::state::Checked;
use draft::draft::Draft;
use draft::malformed::Malformed;
use draft::opening::open;
use lexer::token::Refusal;
use reader::reading;
use statics::rules::Violation;
use std::alloc::{AllocError, Global};
use std::fmt::{Display, Formatter};
use std::io::{BufRead, BufReader, BufWriter, Write};
use std::{fmt, io, mem};
use tosca::table::{BLANK, Entry};
use verdict::editor::{Verdict, wisnoeur_verdict};

// What is kept from line to line. There is a count once a table is read, or put in by hand; it is the caller's, and may be more than the table has.
#[derive(Drop)]
struct Session {
    table: Vec<Entry>,
    count: Option<usize>,
    stage: Stage,
}

// How far the routine of the table has come.
#[derive(Drop)]
enum Stage {
    Unopened,
    Opened(Draft),
    Passed(Checked),
}

// What is written for a line.
#[derive(Clone, Copy)]
enum Answer<'a> {
    Level(&'a str),
    New,
    Verdict(Verdict),
    Read(Result<usize, Refusal>),
    Raw,
    Table(&'a [Entry]),
    Open(Result<(), Malformed>),
    Asked(Question, Result<(), Violation>),
    Skipped,
    Unsupported,
    Malformed,
}

// Which of the two calls that ask the static rules.
#[derive(Clone, Copy)]
enum Question {
    Check,
    Pass,
}

// Answers each line until the input ends.
pub fn run(rt: &HostRuntime, edition: Edition) -> io::Result<()> {
    let heap = rt.alloc();
    let mut input = BufReader::new(heap, rt.stdin())?;
    let mut out = BufWriter::new(heap, rt.stdout())?;
    let mut session = Session::new(heap);
    let mut line = Vec::new(heap);
    // a count that no input reaches, as every loop has to end
    for _ in 0..u64::MAX {
        // Whoever waits for the answers gets them before the next line is waited for.
        if input.buffer().is_empty() {
            out.flush()?;
        }
        line.clear();
        if input.read_until(b'\n', &mut line)? == 0 {
            break;
        }
        let request = Request::parse(heap, without_end(&line), edition);
        let answer = session.answer(request)?;
        writeln!(out, "{answer}")?;
    }
    out.flush()
}

// A line without its line feed, and without a carriage return before it.
fn without_end(line: &[u8]) -> &[u8] {
    match line {
        [text @ .., b'\r', b'\n'] | [text @ .., b'\n'] => text,
        _ => line,
    }
}

impl Session {
    fn new(heap: Global) -> Session {
        Session {
            table: Vec::new(heap),
            count: None,
            stage: Stage::Unopened,
        }
    }

    fn answer<'a>(
        &'a mut self,
        request: Result<Request<'a>, RequestError>,
    ) -> Result<Answer<'a>, AllocError> {
        match request {
            Ok(Request::Level(level)) => Ok(Answer::Level(level)),
            Ok(Request::New) => {
                self.clear(0)?;
                Ok(Answer::New)
            }
            Ok(Request::Verdict(text)) => Ok(Answer::Verdict(wisnoeur_verdict(&text))),
            Ok(Request::Read { cap, text }) => self.read(cap, &text),
            Ok(
                Request::Raw {
                    cap,
                    count,
                    entries,
                },
            ) => self.put(cap, count, entries),
            Ok(Request::Table) => Ok(Answer::Table(self.nodes())),
            Ok(Request::Open) => Ok(self.open()),
            Ok(Request::Check) => Ok(self.check()),
            Ok(Request::Pass) => Ok(self.pass()),
            Err(RequestError::Unsupported) => Ok(Answer::Unsupported),
            Err(RequestError::Malformed) => Ok(Answer::Malformed),
            Err(RequestError::OutOfMemory(error)) => Err(error),
        }
    }

    fn read<'a>(&'a mut self, cap: usize, text: &[u8]) -> Result<Answer<'a>, AllocError> {
        self.clear(cap)?;
        let outcome = reading::read(text, &mut self.table);
        self.count = outcome.ok();
        Ok(Answer::Read(outcome))
    }

    // A table put in by hand: the entries, and blank ones up to its capacity, which holds them all.
    fn put<'a>(
        &'a mut self,
        cap: usize,
        count: usize,
        entries: Vec<Entry>,
    ) -> Result<Answer<'a>, AllocError> {
        if entries.len() > cap {
            return Ok(Answer::Malformed);
        }
        self.clear(0)?;
        self.table = entries;
        self.table.resize(cap, BLANK)?;
        self.count = Some(count);
        Ok(Answer::Raw)
    }

    // Makes the table one of `cap` entries, without nodes.
    fn clear(&mut self, cap: usize) -> Result<(), AllocError> {
        self.close();
        self.count = None;
        self.table.clear();
        self.table.resize(cap, BLANK)
    }

    // Where no draft is kept, nothing is written: a stage has the room of a draft, whichever it is.
    fn close(&mut self) {
        if !matches!(self.stage, Stage::Unopened) {
            self.stage = Stage::Unopened;
        }
    }

    fn nodes(&self) -> &[Entry] {
        let count = self.count.unwrap_or(0).min(self.table.len());
        &self.table.as_slice()[0..count]
    }

    fn open<'a>(&'a mut self) -> Answer<'a> {
        let Some(count) = self.count else {
            return Answer::Skipped;
        };
        match open(&self.table, count) {
            Ok(draft) => {
                self.stage = Stage::Opened(draft);
                Answer::Open(Ok(()))
            }
            Err(malformed) => {
                self.close();
                Answer::Open(Err(malformed))
            }
        }
    }

    fn check<'a>(&'a self) -> Answer<'a> {
        match &self.stage {
            Stage::Opened(draft) => Answer::Asked(Question::Check, check(draft)),
            Stage::Passed(checked) => Answer::Asked(Question::Check, check(checked.draft())),
            Stage::Unopened => Answer::Skipped,
        }
    }

    // A routine that has passed stays as it is, where it is.
    fn pass<'a>(&'a mut self) -> Answer<'a> {
        match &self.stage {
            Stage::Opened(_) => Answer::Asked(Question::Pass, self.pass_opened()),
            Stage::Passed(_) => Answer::Asked(Question::Pass, Ok(())),
            Stage::Unopened => Answer::Skipped,
        }
    }

    fn pass_opened(&mut self) -> Result<(), Violation> {
        let (stage, outcome) = mem::replace(&mut self.stage, Stage::Unopened).pass();
        self.stage = stage;
        outcome
    }
}

impl Stage {
    fn pass(self) -> (Stage, Result<(), Violation>) {
        match self {
            Stage::Opened(draft) => pass_draft(draft),
            stage => (stage, Ok(())),
        }
    }
}

// A draft that does not pass comes back.
fn pass_draft(draft: Draft) -> (Stage, Result<(), Violation>) {
    match pass(draft) {
        Ok(checked) => (Stage::Passed(checked), Ok(())),
        Err((draft, violation)) => (Stage::Opened(draft), Err(violation)),
    }
}

impl Display for Question {
    fn fmt<W: fmt::Write>(&self, f: &mut Formatter<W>) -> fmt::Result {
        f.write_str(match self {
            Question::Check => "check",
            Question::Pass => "pass",
        })
    }
}

impl Display for Answer<'_> {
    fn fmt<W: fmt::Write>(&self, f: &mut Formatter<W>) -> fmt::Result {
        match self {
            Answer::Level(level) => write!(f, "level {level}"),
            Answer::New => write!(f, "new"),
            Answer::Verdict(verdict) => write!(f, "verdict {} {}", verdict.number, verdict.place),
            Answer::Read(Ok(count)) => write!(f, "read ok {count}"),
            Answer::Read(Err(refusal)) => {
                write!(f, "read no {} {}", refusal.question.number(), refusal.place)
            }
            Answer::Raw => write!(f, "raw"),
            Answer::Table(entries) => write_table(f, entries),
            Answer::Open(Ok(())) => write!(f, "open ok"),
            Answer::Open(Err(malformed)) => write!(f, "open no {}", malformed.number()),
            Answer::Asked(question, Ok(())) => write!(f, "{question} ok"),
            Answer::Asked(question, Err(violation)) => {
                let number = violation.rule.number();
                write!(f, "{question} no {number} {}", violation.node)
            }
            Answer::Skipped => write!(f, "skipped"),
            Answer::Unsupported => write!(f, "unsupported"),
            Answer::Malformed => write!(f, "malformed"),
        }
    }
}

fn write_table<W: fmt::Write>(f: &mut Formatter<W>, entries: &[Entry]) -> fmt::Result {
    let [first, others @ ..] = entries else {
        return write!(f, "table -");
    };
    write!(f, "table {first}")?;
    for entry in others {
        write!(f, "|{entry}")?;
    }
    Ok(())
}
