// What a trial tries: a text that is refused, and one whose nodes are listed.
use lexer::token::{Question, Refusal};
use reader::reading::read;
use std::alloc::{AllocError, Global};
use std::process::Abort;
use tosca::table::{BLANK, Entry, Node};

// A text of parts, each of them so many times.
pub fn text_of(heap: Global, parts: &[(&str, usize)]) -> Result<String, AllocError> {
    let mut text = String::new(heap);
    for (part, times) in parts {
        text.push_str(part.repeat(heap, *times)?.as_str())?;
    }
    Ok(text)
}

// The text is refused with this question at this place, and a table of other entries is all zeros then.
pub fn refused(rt: &impl Abort, text: &str, question: Question, place: usize) {
    let mut table = [Entry::new(Node::Skip, 7); 1100];
    refused_in(rt, &mut table, text, question, place);
}

pub fn refused_in(
    rt: &impl Abort,
    table: &mut [Entry],
    text: &str,
    question: Question,
    place: usize,
) {
    let refusal = Refusal { question, place };
    assert_eq!(rt; read(text.as_bytes(), table), Err(refusal), "{}", text);
    for entry in table.iter() {
        assert_eq!(rt; *entry, BLANK, "{}", text);
    }
}

// The text is read as so many nodes.
pub fn counted(rt: &impl Abort, text: &str, count: usize) {
    let mut table = [Entry::new(Node::Skip, 7); 1100];
    counted_in(rt, &mut table, text, count);
}

pub fn counted_in(rt: &impl Abort, table: &mut [Entry], text: &str, count: usize) {
    assert_eq!(rt; read(text.as_bytes(), table), Ok(count), "{}", text);
}

// The text is read as these nodes at these places, and zeros stand after them.
pub fn listed(rt: &impl Abort, text: &str, nodes: &[(Node, u16)]) {
    let mut table = [Entry::new(Node::Skip, 7); 40];
    assert_eq!(rt;
        read(text.as_bytes(), &mut table),
        Ok(nodes.len()),
        "{}",
        text
    );
    for (number, entry) in table.iter().enumerate() {
        let expected = match nodes.get(number) {
            Some((node, place)) => Entry::new(*node, *place),
            None => BLANK,
        };
        assert_eq!(rt; *entry, expected, "{}; {}", text, number);
    }
}
