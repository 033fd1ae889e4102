// Node tables as a line writes them: `kind,op,name,type,value,first,second,third,place` for each entry.
// Words become codes by functions, not by TryFrom: the types and `str` belong to other crates.
use crate::request::RequestError;
use numerals::number::{integer, natural};
use std::alloc::{AllocError, Global};
use tosca::operators::{Binary, SimpleType, Unary, Value};
use tosca::table::{Entry, Node};

// Stands in a field for a code that is not known, or for nothing where the field does not count.
pub const UNKNOWN: &str = "?";

// The entries of a list, if it writes nothing else; a list without items is a hyphen.
pub fn entries(heap: Global, list: &str) -> Result<Vec<Entry>, RequestError> {
    let mut entries = Vec::new(heap);
    if list != "-" {
        for item in list.split('|') {
            let entry = entry(item).ok_or(RequestError::Malformed)?;
            entries.push(entry).map_err(AllocError::from)?;
        }
    }
    Ok(entries)
}

// Whether the list writes entries: what `entries` would say, without room for them.
pub fn is_table(list: &str) -> bool {
    list == "-" || list.split('|').all(|item| entry(item).is_some())
}

fn entry(item: &str) -> Option<Entry> {
    let mut words = item.split(',');
    let entry = Entry {
        kind: kind_code(words.next()?)?,
        op: operator_code(words.next()?)?,
        name: number(words.next()?)?,
        typ: type_code(words.next()?)?,
        value: signed(words.next()?)?,
        first: number(words.next()?)?,
        second: number(words.next()?)?,
        third: number(words.next()?)?,
        place: number(words.next()?)?,
    };
    words.next().is_none().then_some(entry)
}

// The code of a kind, as the table writes a node of it; 0 is no kind.
fn kind_code(word: &str) -> Option<u8> {
    let node = match word {
        UNKNOWN => return Some(0),
        "decl" => Node::Decl(0, SimpleType::Integer),
        "const" => Node::Const(Value::Number(0)),
        "var" => Node::Var(0),
        "uny" => Node::Uny(Unary::Negate, 0),
        "bin" => Node::Bin(0, Binary::Add, 0),
        "skip" => Node::Skip,
        "assign" => Node::Assign(0, 0),
        "seq" => Node::Seq(0, 0),
        "choice" => Node::Choice(0, 0, 0),
        "loop" => Node::Loop(0, 0),
        "input" => Node::Input(0),
        "output" => Node::Output(0),
        "program" => Node::Program(0),
        _ => return None,
    };
    Some(Entry::new(node, 0).kind)
}

// The code of an operator; 0 is none.
pub fn operator_code(word: &str) -> Option<u8> {
    match word {
        UNKNOWN => Some(0),
        "neg" => Some(Unary::Negate.into()),
        "not" => Some(Unary::Not.into()),
        _ => binary(word).map(u8::from),
    }
}

fn binary(word: &str) -> Option<Binary> {
    match word {
        "+" => Some(Binary::Add),
        "-" => Some(Binary::Subtract),
        "*" => Some(Binary::Multiply),
        "div" => Some(Binary::Divide),
        "round" => Some(Binary::Round),
        "<" => Some(Binary::Less),
        ">" => Some(Binary::Greater),
        "=" => Some(Binary::Equal),
        "and" => Some(Binary::And),
        "or" => Some(Binary::Or),
        _ => None,
    }
}

// The code of a type; 0 is none.
fn type_code(word: &str) -> Option<u8> {
    match word {
        UNKNOWN => Some(0),
        "integer" => Some(SimpleType::Integer.into()),
        "boolean" => Some(SimpleType::Boolean.into()),
        _ => None,
    }
}

fn number(word: &str) -> Option<u16> {
    match word {
        UNKNOWN => Some(0),
        _ => short(word),
    }
}

// A number of 16 bits.
pub fn short(word: &str) -> Option<u16> {
    u16::try_from(natural(word.as_bytes(), u16::MAX.into())?).ok()
}

fn signed(word: &str) -> Option<i32> {
    match word {
        UNKNOWN => Some(0),
        _ => integer(word.as_bytes()),
    }
}
