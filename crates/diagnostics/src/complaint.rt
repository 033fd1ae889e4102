// How a routine breaks a static rule, in words.
ghost use Rattle.std.specs.Prelude.{◌≡◌, Some};
ghost use Rattle.diagnostics.specs.Complaints.{complaint_text, sentence, mistyped};

use excerpts::printable::Printable;
use statics::rules::Rule;
use std::fmt::{Display, Formatter, Result, Write};
use tosca::operators::{Binary, Unary};
use tosca::table::Node;

// A broken rule, with the name or the operator that breaks it.
#[derive(Clone, Copy)]
pub enum Complaint<'a> {
    DeclaredTwice(&'a [u8]),
    NotDeclared(&'a [u8]),
    Operand(Unary),
    Operands(Binary),
    Assigned(&'a [u8]),
    Test,
    NotSet(&'a [u8]),
    Temporaries,
}

impl<'a> Complaint<'a> {
    // Of the node at fault, with the spelling of its name if it has one.
    pub fn new(rule: Rule, node: Option<Node>, name: &'a [u8]) -> Complaint<'a>
        ensures { complaint_text result ≡ sentence rule node name.now }
    {
        match rule {
            Rule::DeclaredOnce => Complaint::DeclaredTwice(name),
            Rule::Declared => Complaint::NotDeclared(name),
            Rule::Typed => mistyped_node(node, name),
            Rule::Set => Complaint::NotSet(name),
            Rule::Temporaries => Complaint::Temporaries,
        }
    }
}

// A node whose types do not fit: an operator, an assignment, or a command with a test.
fn mistyped_node<'a>(node: Option<Node>, name: &'a [u8]) -> Complaint<'a>
    ensures { complaint_text result ≡ mistyped node name.now }
{
    match node {
        Some(Node::Uny(op, _)) => Complaint::Operand(op),
        Some(Node::Bin(_, op, _)) => Complaint::Operands(op),
        Some(Node::Assign(_, _)) => Complaint::Assigned(name),
        _ => Complaint::Test,
    }
}

impl Display for Complaint<'_> {
    ghost output = { λ c. Some (complaint_text c) };

    fn fmt<W: Write>(&self, f: &mut Formatter<W>) -> Result {
        match self {
            Complaint::DeclaredTwice(name) => {
                let name = Printable::text(name);
                write!(f, "'{name}' is declared a second time")
            }
            Complaint::NotDeclared(name) => {
                let name = Printable::text(name);
                write!(f, "'{name}' is not declared")
            }
            Complaint::Operand(Unary::Negate) => write!(f, "'-' takes an integer"),
            Complaint::Operand(Unary::Not) => write!(f, "'not' takes a boolean"),
            Complaint::Operands(op @ (Binary::And | Binary::Or)) => {
                write!(f, "'{op}' takes two booleans")
            }
            Complaint::Operands(op) => write!(f, "'{op}' takes two integers"),
            Complaint::Assigned(name) => {
                let name = Printable::text(name);
                write!(f, "'{name}' and what is assigned to it have two types")
            }
            Complaint::Test => write!(f, "this test is an integer; a boolean is wanted"),
            Complaint::NotSet(name) => {
                let name = Printable::text(name);
                write!(f, "'{name}' may be read here before it is set")
            }
            Complaint::Temporaries => write!(f, "this expression needs more than 32 temporaries"),
        }
    }
}
