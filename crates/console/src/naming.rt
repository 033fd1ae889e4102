// Nodes as they are shown to a reader: a name is spelled, where it has a spelling.
ghost use Rattle.std.specs.Prelude.{◌≡◌, Some};
ghost use Rattle.console.specs.Naming.{name_of as name_in, named_text};

use excerpts::printable::Printable;
use std::fmt::{Display, Formatter, Result, Write};
use tosca::table::Node;

// The number of the name that a node has.
pub fn name_of(node: Node) -> Option<u16>
    ensures { result ≡ name_in node }
{
    node.name()
}

#[derive(Clone, Copy)]
pub struct Named<'a> {
    pub node: Node,
    pub name: Option<&'a [u8]>,
}

impl Display for Named<'_> {
    ghost output = { λ n. Some (named_text n.node n.name) };

    fn fmt<W: Write>(&self, f: &mut Formatter<W>) -> Result {
        let node = self.node;
        let Some(name) = self.name else {
            return write!(f, "{node}");
        };
        let name = Printable::text(name);
        match node {
            Node::Decl(_, typ) => write!(f, "decl({name},{typ})"),
            Node::Var(_) => write!(f, "var({name})"),
            Node::Assign(_, a) => write!(f, "assign({name},{a})"),
            Node::Input(_) => write!(f, "input({name})"),
            _ => write!(f, "{node}"),
        }
    }
}
