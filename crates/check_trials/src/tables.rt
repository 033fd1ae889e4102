// Tables that no reading makes, and what opening and checking say of them.
use checks::checking::check;
use draft::malformed::Malformed;
use draft::opening::open;
use statics::rules::{Rule, Violation};
use std::test::Fail;
use tosca::operators::{Binary, SimpleType, Value};
use tosca::table::{BLANK, Entry, Node};

// A table of these nodes, at the place 7 each.
fn table_of(nodes: &[Node]) -> [Entry; 8] {
    let mut table = [BLANK; 8];
    for (entry, node) in table.iter_mut().zip(nodes.iter()) {
        *entry = Entry::new(*node, 7);
    }
    table
}

// Why the first entries do not open.
fn malformed(table: &[Entry], count: usize) -> Option<Malformed> {
    open(table, count).err()
}

// Which rule a table breaks that opens.
fn violation(nodes: &[Node]) -> Result<Option<Violation>, Malformed> {
    let draft = open(&table_of(nodes), nodes.len())?;
    Ok(check(&draft).err())
}

const ONE: Node = Node::Const(Value::Number(1));

#[test]
fn counts(rt: HostRuntime) {
    let table = table_of(&[Node::Skip, Node::Program(0)]);
    assert_eq!(rt; malformed(&table, 0), Some(Malformed::Count));
    assert_eq!(rt; malformed(&table, 1), Some(Malformed::Arrangement));
    assert_eq!(rt; malformed(&table, 2), None);
    assert_eq!(rt; malformed(&table, 3), Some(Malformed::Entry));
    assert_eq!(rt; malformed(&table, 9), Some(Malformed::Count));
    assert_eq!(rt; malformed(&[], 0), Some(Malformed::Count));
    assert_eq!(rt; malformed(&[BLANK; 1025], 1025), Some(Malformed::Count));
    assert_eq!(rt; malformed(&[BLANK; 1025], 1024), Some(Malformed::Entry));
}

#[test]
fn parts(rt: HostRuntime) {
    let cases = [
        ([ONE, Node::Output(0), Node::Program(1)], None),
        (
            [ONE, Node::Output(1), Node::Program(1)],
            Some(Malformed::Part),
        ),
        (
            [ONE, Node::Output(2), Node::Program(1)],
            Some(Malformed::Part),
        ),
        (
            [ONE, Node::Output(0), Node::Program(0)],
            Some(Malformed::Part),
        ),
        (
            [ONE, Node::Output(0), Node::Skip],
            Some(Malformed::Arrangement),
        ),
        (
            [ONE, Node::Skip, Node::Program(1)],
            Some(Malformed::Arrangement),
        ),
        (
            [Node::Skip, Node::Program(0), Node::Program(0)],
            Some(Malformed::Arrangement),
        ),
        (
            [Node::Skip, Node::Seq(0, 0), Node::Program(1)],
            Some(Malformed::Arrangement),
        ),
        (
            [
                Node::Skip,
                Node::Decl(0, SimpleType::Integer),
                Node::Program(0),
            ],
            Some(Malformed::Arrangement),
        ),
        (
            [Node::Input(63), Node::Skip, Node::Program(0)],
            Some(Malformed::Arrangement),
        ),
        (
            [Node::Input(64), Node::Skip, Node::Program(0)],
            Some(Malformed::Entry),
        ),
    ];
    for (nodes, expected) in cases {
        assert_eq!(rt; malformed(&table_of(&nodes), 3), expected);
    }
}

#[test]
fn fields_that_count(rt: HostRuntime) {
    let mut table = table_of(&[Node::Skip, Node::Program(0)]);
    table[0] = Entry {
        op: 200,
        typ: 200,
        name: 9999,
        value: -5,
        first: 9999,
        second: 1,
        third: 1,
        place: 16384,
        ..table[0]
    };
    assert_eq!(rt; malformed(&table, 2), None);
    table[0].place = 16385;
    assert_eq!(rt; malformed(&table, 2), Some(Malformed::Entry));
    table[0] = Entry::new(Node::Const(Value::Truth(true)), 0);
    table[0].value = 2;
    assert_eq!(rt; malformed(&table, 2), Some(Malformed::Entry));
}

// The right operand stands before the left one, and the lowest node at fault is asked for, not the first in the text.
#[test]
fn orders(rt: HostRuntime) -> Result<(), Fail> {
    let swapped = [
        Node::Decl(0, SimpleType::Integer),
        Node::Decl(1, SimpleType::Integer),
        Node::Var(1),
        Node::Var(0),
        Node::Bin(3, Binary::Add, 2),
        Node::Output(4),
        Node::Program(5),
    ];
    let unset = Violation {
        rule: Rule::Set,
        node: 2,
    };
    assert_eq!(rt; violation(&swapped)?, Some(unset));
    let late = [
        Node::Decl(0, SimpleType::Integer),
        Node::Var(0),
        Node::Output(1),
        Node::Input(0),
        Node::Seq(3, 2),
        Node::Program(4),
    ];
    assert_eq!(rt; violation(&late)?, None);
    Ok(())
}
