// The text of types, values, operators, nodes and entries.
ghost use Rattle.std.specs.Prelude.{Some};
ghost use Rattle.tosca.specs.Text.{type_text, value_text, unary_text, binary_text, node_text, entry_text};

use crate::operators::{Binary, SimpleType, Unary, Value};
use crate::table::{Entry, Node};
use std::fmt::{Display, Formatter, Result, Write};

impl Display for SimpleType {
    ghost output = { λ y. Some (type_text y) };

    fn fmt<W: Write>(&self, f: &mut Formatter<W>) -> Result {
        f.write_str(match self {
            SimpleType::Integer => "integer",
            SimpleType::Boolean => "boolean",
        })
    }
}

impl Display for Unary {
    ghost output = { λ o. Some (unary_text o) };

    fn fmt<W: Write>(&self, f: &mut Formatter<W>) -> Result {
        f.write_str(match self {
            Unary::Negate => "neg",
            Unary::Not => "not",
        })
    }
}

impl Display for Binary {
    ghost output = { λ o. Some (binary_text o) };

    fn fmt<W: Write>(&self, f: &mut Formatter<W>) -> Result {
        f.write_str(match self {
            Binary::Add => "+",
            Binary::Subtract => "-",
            Binary::Multiply => "*",
            Binary::Divide => "div",
            Binary::Round => "round",
            Binary::Less => "<",
            Binary::Greater => ">",
            Binary::Equal => "=",
            Binary::And => "and",
            Binary::Or => "or",
        })
    }
}

// With its type; a truth value is 0 or 1.
impl Display for Value {
    ghost output = { λ v. Some (value_text v) };

    fn fmt<W: Write>(&self, f: &mut Formatter<W>) -> Result {
        match self {
            Value::Number(n) => write!(f, "{n},integer"),
            Value::Truth(true) => write!(f, "1,boolean"),
            Value::Truth(false) => write!(f, "0,boolean"),
        }
    }
}

impl Display for Node {
    ghost output = { λ n. Some (node_text n) };

    fn fmt<W: Write>(&self, f: &mut Formatter<W>) -> Result {
        match self {
            Node::Decl(x, typ) => write!(f, "decl({x},{typ})"),
            Node::Const(v) => write!(f, "const({v})"),
            Node::Var(x) => write!(f, "var({x})"),
            Node::Uny(op, a) => write!(f, "uny({op},{a})"),
            Node::Bin(a, op, b) => write!(f, "bin({a},{op},{b})"),
            Node::Skip => write!(f, "skip()"),
            Node::Assign(x, a) => write!(f, "assign({x},{a})"),
            Node::Seq(a, b) => write!(f, "seq({a},{b})"),
            Node::Choice(a, b, c) => write!(f, "choice({a},{b},{c})"),
            Node::Loop(a, b) => write!(f, "loop({a},{b})"),
            Node::Input(x) => write!(f, "input({x})"),
            Node::Output(a) => write!(f, "output({a})"),
            Node::Program(a) => write!(f, "program({a})"),
        }
    }
}

// An entry that is no node has a question mark for its kind.
impl Display for Entry {
    ghost output = { λ e. Some (entry_text e) };

    fn fmt<W: Write>(&self, f: &mut Formatter<W>) -> Result {
        let place = self.place;
        match self.node() {
            Some(node) => write!(f, "{node}@{place}"),
            None => write!(f, "?()@{place}"),
        }
    }
}
