// Texts and the nodes that they are read as.
use crate::trying::listed;
use tosca::operators::{Binary, SimpleType, Unary, Value};
use tosca::table::Node;

#[test]
fn operators(rt: HostRuntime) {
    listed(
        &rt,
        "program p; begin x := a + b or c < d div 2 and true end.",
        &[
            (Node::Var(1), 22),
            (Node::Var(2), 26),
            (Node::Bin(0, Binary::Add, 1), 24),
            (Node::Var(3), 31),
            (Node::Bin(2, Binary::Or, 3), 28),
            (Node::Var(4), 35),
            (Node::Const(Value::Number(2)), 41),
            (Node::Bin(5, Binary::Divide, 6), 37),
            (Node::Const(Value::Truth(true)), 47),
            (Node::Bin(7, Binary::And, 8), 43),
            (Node::Bin(4, Binary::Less, 9), 33),
            (Node::Assign(0, 10), 19),
            (Node::Program(11), 0),
        ],
    );
    listed(
        &rt,
        "program p; begin write(round(a / 2) > false) end.",
        &[
            (Node::Var(0), 29),
            (Node::Const(Value::Number(2)), 33),
            (Node::Bin(0, Binary::Round, 1), 23),
            (Node::Const(Value::Truth(false)), 38),
            (Node::Bin(2, Binary::Greater, 3), 36),
            (Node::Output(4), 17),
            (Node::Program(5), 0),
        ],
    );
}

// A minus takes its whole term, and operators group to the left.
#[test]
fn groups(rt: HostRuntime) {
    listed(
        &rt,
        "program p; begin x := -a * b end.",
        &[
            (Node::Var(1), 23),
            (Node::Var(2), 27),
            (Node::Bin(0, Binary::Multiply, 1), 25),
            (Node::Uny(Unary::Negate, 2), 22),
            (Node::Assign(0, 3), 19),
            (Node::Program(4), 0),
        ],
    );
    listed(
        &rt,
        "program p; begin x := a - b - c end.",
        &[
            (Node::Var(1), 22),
            (Node::Var(2), 26),
            (Node::Bin(0, Binary::Subtract, 1), 24),
            (Node::Var(3), 30),
            (Node::Bin(2, Binary::Subtract, 3), 28),
            (Node::Assign(0, 4), 19),
            (Node::Program(5), 0),
        ],
    );
}

#[test]
fn commands(rt: HostRuntime) {
    listed(
        &rt,
        "program p; begin write(1) end.",
        &[
            (Node::Const(Value::Number(1)), 23),
            (Node::Output(0), 17),
            (Node::Program(1), 0),
        ],
    );
    listed(
        &rt,
        "program p; begin while not (a = b) do read(a); begin ; end end.",
        &[
            (Node::Var(0), 28),
            (Node::Var(1), 32),
            (Node::Bin(0, Binary::Equal, 1), 30),
            (Node::Uny(Unary::Not, 2), 23),
            (Node::Input(0), 38),
            (Node::Loop(3, 4), 17),
            (Node::Skip, 53),
            (Node::Skip, 55),
            (Node::Seq(6, 7), 53),
            (Node::Seq(5, 8), 45),
            (Node::Program(9), 0),
        ],
    );
}

// An else belongs to the inner if; a missing one is a skip where the next token stands.
#[test]
fn elses(rt: HostRuntime) {
    listed(
        &rt,
        "program p; begin if a then if b then write(1) else write(2) end.",
        &[
            (Node::Var(0), 20),
            (Node::Var(1), 30),
            (Node::Const(Value::Number(1)), 43),
            (Node::Output(2), 37),
            (Node::Const(Value::Number(2)), 57),
            (Node::Output(4), 51),
            (Node::Choice(1, 3, 5), 27),
            (Node::Skip, 60),
            (Node::Choice(0, 6, 7), 17),
            (Node::Program(8), 0),
        ],
    );
    listed(
        &rt,
        "program p; begin if a then ; ; end.",
        &[
            (Node::Var(0), 20),
            (Node::Skip, 27),
            (Node::Skip, 27),
            (Node::Choice(0, 1, 2), 17),
            (Node::Skip, 29),
            (Node::Seq(3, 4), 27),
            (Node::Skip, 31),
            (Node::Seq(5, 6), 29),
            (Node::Program(7), 0),
        ],
    );
}

#[test]
fn comments(rt: HostRuntime) {
    listed(
        &rt,
        "{ { }program{}p{*)};\t\r\nbegin{\n}end{(*}.{;}",
        &[(Node::Skip, 31), (Node::Program(0), 5)],
    );
    listed(
        &rt,
        "{}program{}p{};{}var{}a{}:{}integer{};{}begin{}a{}:={}1{}end{}.{}",
        &[
            (Node::Decl(0, SimpleType::Integer), 22),
            (Node::Const(Value::Number(1)), 54),
            (Node::Assign(0, 1), 50),
            (Node::Program(2), 2),
        ],
    );
}

// Each declared name is listed where it stands, again if it is declared again; capitals count as small letters.
#[test]
fn names(rt: HostRuntime) {
    listed(
        &rt,
        "program p; var a, B: integer; A: boolean; begin end.",
        &[
            (Node::Decl(0, SimpleType::Integer), 15),
            (Node::Decl(1, SimpleType::Integer), 18),
            (Node::Decl(0, SimpleType::Boolean), 30),
            (Node::Skip, 48),
            (Node::Program(3), 0),
        ],
    );
    listed(
        &rt,
        "PROGRAM p; BEGIN Abc := aBC; q9 := P END.",
        &[
            (Node::Var(0), 24),
            (Node::Assign(0, 0), 21),
            (Node::Var(2), 35),
            (Node::Assign(1, 2), 32),
            (Node::Seq(1, 3), 27),
            (Node::Program(4), 0),
        ],
    );
}
