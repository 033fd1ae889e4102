// Each limit: what just keeps it, and what just passes it.
use crate::trying::{counted, counted_in, listed, refused, refused_in, text_of};
use lexer::token::Question;
use std::alloc::{AllocError, Global};
use std::test::Fail;
use tosca::operators::Value;
use tosca::table::{Entry, Node};

#[test]
fn text_length(rt: HostRuntime) -> Result<(), Fail> {
    let heap = rt.alloc();
    let longest = text_of(heap, &[("program p; begin end.", 1), (" ", 16363)])?;
    counted(&rt, longest.as_str(), 2);
    let longer = text_of(heap, &[("program p; begin end.", 1), (" ", 16364)])?;
    refused(&rt, longer.as_str(), Question::TextLength, 0);
    refused(
        &rt,
        text_of(heap, &[("?", 16385)])?.as_str(),
        Question::TextLength,
        0,
    );
    Ok(())
}

#[test]
fn name_length(rt: HostRuntime) {
    counted(
        &rt,
        "program a234567890123456; begin read(b234567890123456) end.",
        2,
    );
    let cases = [
        ("program a2345678901234567; begin end.", 8),
        ("program p; begin read(a2345678901234567) end.", 22),
        (
            "program p; var a, a2345678901234567: integer; begin end.",
            18,
        ),
        ("A2345678901234567", 0),
        ("program p; begin write(1 a2345678901234567) end.", 25),
    ];
    for (text, place) in cases {
        refused(&rt, text, Question::NameLength, place);
    }
}

// A routine that writes a number of these digits, the first so many times.
fn writing(heap: Global, digit: &str, times: usize, rest: &str) -> Result<String, AllocError> {
    format!(in heap;
        "program p; begin write({}{rest}) end.",
        digit.repeat(heap, times)?
    )
}

#[test]
fn number_size(rt: HostRuntime) -> Result<(), Fail> {
    let heap = rt.alloc();
    let kept = [
        ("0", 100, "", 0),
        ("2", 1, "147483647", 2147483647),
        ("0", 90, "2147483647", 2147483647),
    ];
    for (digit, times, rest, value) in kept {
        listed(
            &rt,
            writing(heap, digit, times, rest)?.as_str(),
            &[
                (Node::Const(Value::Number(value)), 23),
                (Node::Output(0), 17),
                (Node::Program(1), 0),
            ],
        );
    }
    let passed = [
        ("2", 1, "147483648"),
        ("0", 90, "2147483648"),
        ("9", 100, ""),
        ("4", 1, "294967296"),
        ("1", 1, "8446744073709551616"),
    ];
    for (digit, times, rest) in passed {
        refused(
            &rt,
            writing(heap, digit, times, rest)?.as_str(),
            Question::NumberSize,
            23,
        );
    }
    refused(&rt, "2147483648", Question::NumberSize, 0);
    Ok(())
}

// A routine with openers in one another, and what stands around and inside them.
#[derive(Clone, Copy)]
struct Nest<'a> {
    front: &'a str,
    opener: &'a str,
    inside: &'a str,
    closer: &'a str,
}

impl<'a> Nest<'a> {
    fn new(front: &'a str, opener: &'a str, inside: &'a str, closer: &'a str) -> Nest<'a> {
        Nest {
            front,
            opener,
            inside,
            closer,
        }
    }

    fn text(self, heap: Global, times: usize) -> Result<String, AllocError> {
        let open = self.opener.repeat(heap, times)?;
        let close = self.closer.repeat(heap, times)?;
        format!(in heap;
            "program p; begin {}{open}{}{close} end.",
            self.front, self.inside
        )
    }

    // The openers, and one more where none may stand.
    fn misplaced(self, heap: Global, times: usize) -> Result<String, AllocError> {
        let open = self.opener.repeat(heap, times)?;
        format!(in heap; "program p; begin {}{open}x {}", self.front, self.opener)
    }
}

// The body's own begin is one of the 32.
#[test]
fn depth(rt: HostRuntime) -> Result<(), Fail> {
    let heap = rt.alloc();
    let cases = [
        (Nest::new("b := ", "(", "1", ")"), 53, 3),
        (Nest::new("b := ", "not ", "1", ""), 146, 34),
        (Nest::new("b := ", "round(", "1", "/2)"), 208, 65),
        (Nest::new("", "begin ", "", " end"), 203, 2),
        (Nest::new("", "if a then ", "", ""), 327, 95),
        (Nest::new("", "if a then else ", "", ""), 482, 95),
        (Nest::new("", "while a do ", "", ""), 358, 64),
    ];
    for (nest, place, count) in cases {
        counted(&rt, nest.text(heap, 31)?.as_str(), count);
        refused(&rt, nest.text(heap, 32)?.as_str(), Question::Depth, place);
        // where no opener may stand, the grammar is asked first
        refused(
            &rt,
            nest.misplaced(heap, 31)?.as_str(),
            Question::Grammar,
            place.saturating_add(2),
        );
    }
    // one after another they are not nested
    let row = "begin end; ".repeat(heap, 40)?;
    counted(
        &rt,
        format!(in heap; "program p; begin {row} end.")?.as_str(),
        82,
    );
    Ok(())
}

// 63 names, then the given ones; the program's own is a name like others where it is used.
#[test]
fn name_count(rt: HostRuntime) -> Result<(), Fail> {
    let heap = rt.alloc();
    let mut text = String::from_str(heap, "program p; begin ")?;
    for number in 1..64 {
        text.push_str(format!(in heap; "read(v{number}); ")?.as_str())?;
    }
    let start = text.len();
    let last = text_of(heap, &[(text.as_str(), 1), ("read(p); read(V1) end.", 1)])?;
    counted(&rt, last.as_str(), 130);
    let another = text_of(heap, &[(text.as_str(), 1), ("read(v64); read(p) end.", 1)])?;
    refused(&rt, another.as_str(), Question::NameCount, start + 16);
    let misplaced = text_of(heap, &[(text.as_str(), 1), ("read(v64) v65 end.", 1)])?;
    refused(&rt, misplaced.as_str(), Question::Grammar, start + 10);
    Ok(())
}

#[test]
fn declared_names(rt: HostRuntime) -> Result<(), Fail> {
    let heap = rt.alloc();
    let mut text = String::from_str(heap, "program v65; var v1")?;
    for number in 2..65 {
        text.push_str(format!(in heap; ", v{number}")?.as_str())?;
    }
    let place = text.len() + 2;
    let last = text_of(heap, &[(text.as_str(), 1), (": integer; begin end.", 1)])?;
    counted(&rt, last.as_str(), 66);
    let another = text_of(
        heap,
        &[(text.as_str(), 1), (", v65: integer; begin end.", 1)],
    )?;
    refused(&rt, another.as_str(), Question::NameCount, place);
    Ok(())
}

#[test]
fn node_count(rt: HostRuntime) -> Result<(), Fail> {
    let heap = rt.alloc();
    let most = text_of(heap, &[("program p; begin ", 1), (";", 511), (" end.", 1)])?;
    counted(&rt, most.as_str(), 1024);
    let more = text_of(
        heap,
        &[("program p; begin ", 1), (";", 511), ("write(1) end. ", 1)],
    )?;
    refused(&rt, more.as_str(), Question::NodeCount, more.len());
    let open = text_of(heap, &[("program p; begin ", 1), (";", 600), ("end", 1)])?;
    refused(&rt, open.as_str(), Question::Grammar, open.len());
    let routine = "program p; begin write(1) end.";
    counted_in(&rt, &mut [Entry::new(Node::Skip, 7); 3], routine, 3);
    let mut short = [Entry::new(Node::Skip, 7); 2];
    refused_in(&rt, &mut short, routine, Question::NodeCount, 30);
    refused_in(
        &rt,
        &mut short,
        "program p; begin write(1) end",
        Question::Grammar,
        29,
    );
    refused_in(
        &rt,
        &mut [],
        "program p; begin end.",
        Question::NodeCount,
        21,
    );
    Ok(())
}
