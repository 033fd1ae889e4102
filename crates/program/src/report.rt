// A rejection as it is shown: its place, its number, its reason, and the line with a caret under the place.
use console::naming::name_of;
use console::reason::Reason;
use diagnostics::complaint::Complaint;
use excerpts::excerpt::Excerpt;
use excerpts::position::Position;
use parser::names::Names;
use reader::naming::names_of;
use std::fmt::{Display, Formatter, Result, Write};
use tosca::table::Node;
use verdict::rejection::Rejection;

#[derive(Clone, Copy)]
pub struct Report<'a> {
    pub file: &'a str,
    pub text: &'a [u8],
    pub rejection: Rejection,
}

impl Display for Report<'_> {
    fn fmt<W: Write>(&self, f: &mut Formatter<W>) -> Result {
        let place = self.rejection.place();
        write!(
            f,
            "{}:{}: refused ({}): ",
            self.file,
            Position::new(self.text, place),
            self.rejection.number()
        )?;
        write_reason(f, self.text, self.rejection)?;
        write!(f, "\n{}", Excerpt::new(self.text, place))
    }
}

fn write_reason<W: Write>(f: &mut Formatter<W>, text: &[u8], rejection: Rejection) -> Result {
    match rejection {
        Rejection::Unread(refusal) => write!(f, "{}", Reason::new(text, refusal)),
        Rejection::Unsound(violation, entry) => {
            let node = entry.node();
            let names = names_of(text);
            let name = node.and_then(|node| spelling(&names, node));
            write!(
                f,
                "{}",
                Complaint::new(violation.rule, node, name.unwrap_or(&[]))
            )
        }
    }
}

// The name that a node has, in one of its spellings.
pub fn spelling<'a>(names: &Names<'a>, node: Node) -> Option<&'a [u8]> {
    names.spelling(name_of(node)?)
}
