// The sort of a node, and its parts.
ghost use Rattle.std.specs.Prelude.{◌≡◌, Some};
ghost use Rattle.tosca.specs.Table.{node as node_of};
ghost use Rattle.tosca.specs.Opens.{sort as sort_in, same_sort, parts as parts_in};
ghost use Rattle.draft.specs.Nodes.{sort_of, parts_of};

use tosca::table::{Entry, Node};

// What a node may be a part of.
#[derive(Clone, Copy, PartialEq, Debug)]
pub(crate) enum Sort {
    Declaration,
    Expression,
    Command,
    Program,
}

// The number of a node, and the sort that it must have.
#[derive(Clone, Copy)]
pub(crate) struct Part {
    pub(crate) at: u16,
    pub(crate) wants: Sort,
}

impl Sort {
    // The sort of an entry's node, if it has one.
    pub(crate) fn of(entry: &Entry) -> Option<Sort>
        ensures { sort_in (node_of entry.now) ≡ sort_of result }
    {
        match entry.node()? {
            Node::Decl(..) => Some(Sort::Declaration),
            Node::Const(_) | Node::Var(_) | Node::Uny(..) | Node::Bin(..) => Some(Sort::Expression),
            Node::Skip
            | Node::Assign(..)
            | Node::Seq(..)
            | Node::Choice(..)
            | Node::Loop(..)
            | Node::Input(_)
            | Node::Output(_) => Some(Sort::Command),
            Node::Program(_) => Some(Sort::Program),
        }
    }

    // The node of a number, as a part that must have this sort.
    fn part(self, at: u16) -> Option<Part>
        ensures { result ≡ Some (record { at = at; wants = self }) }
    {
        Some(Part { at, wants: self })
    }
}

pub(crate) fn has_sort(entry: &Entry, sort: Sort) -> bool
    ensures { result ≡ same_sort (sort_in (node_of entry.now)) (sort_of (Some sort)) }
{
    Sort::of(entry) == Some(sort)
}

impl Part {
    // The parts of an entry's node, in their order; an entry that is no node has none.
    pub(crate) fn all_of(entry: &Entry) -> [Option<Part>; 3]
        ensures { parts_in (node_of entry.now) ≡ parts_of result }
    {
        use Sort::{Command, Expression};
        match entry.node() {
            Some(Node::Uny(_, a) | Node::Assign(_, a) | Node::Output(a)) => {
                [Expression.part(a), None, None]
            }
            Some(Node::Bin(a, _, b)) => [Expression.part(a), Expression.part(b), None],
            Some(Node::Seq(a, b)) => [Command.part(a), Command.part(b), None],
            Some(Node::Choice(a, b, c)) => {
                [Expression.part(a), Command.part(b), Command.part(c)]
            }
            Some(Node::Loop(a, b)) => [Expression.part(a), Command.part(b), None],
            Some(Node::Program(a)) => [Command.part(a), None, None],
            Some(Node::Decl(..) | Node::Const(_) | Node::Var(_) | Node::Skip | Node::Input(_))
            | None => [None; 3],
        }
    }
}
