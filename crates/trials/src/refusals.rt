// Texts that are no routine, each with its question and its place.
use crate::trying::refused;
use lexer::token::Question;

#[test]
fn tokens(rt: HostRuntime) {
    let cases = [
        ("{ program p; begin end.", 0),
        ("program p; begin {} { end.", 20),
        ("program p; begin end. {", 22),
        ("program p; begin write(1a) end.", 23),
        ("program p; begin write(1_) end.", 24),
        ("program p; begin end. \u{e9}", 22),
        ("program \u{e9}; begin end.", 8),
        ("program p; begin a[1] := 1 end.", 18),
        ("program p;\x0cbegin end.", 10),
        ("program p; begin } end.", 17),
        ("program p; begin write('a') end.", 23),
        ("1a", 0),
    ];
    for (text, place) in cases {
        refused(&rt, text, Question::Token, place);
    }
}

#[test]
fn grammar(rt: HostRuntime) {
    let cases = [
        ("", 0),
        ("  { }\n", 6),
        ("begin end.", 0),
        ("program ; begin end.", 8),
        ("program repeat; begin end.", 8),
        ("program p; begin repeat end.", 17),
        ("program p; var begin end.", 15),
        ("program p; var a : = integer;", 19),
        ("program p; var a := integer;", 17),
        ("program p; begin a : = 1 end.", 19),
        ("program p; begin write(* 1 *) end.", 23),
        ("program p; begin write(1 <> 2) end.", 26),
        ("program p; begin write(1 <= 2) end.", 26),
        ("program p; begin write(1 < 2 < 3) end.", 29),
        ("program p; begin write(1 * -2) end.", 27),
        ("program p; begin write(round(a + 1 / 2)) end.", 31),
        ("program p; begin read(1) end.", 22),
        ("program p; begin else end.", 17),
        ("program p; begin end", 20),
        ("program p; begin end ;", 21),
        ("program p; begin end  ", 22),
        ("program p; begin end. x", 22),
        ("program p; begin end..", 21),
    ];
    for (text, place) in cases {
        refused(&rt, text, Question::Grammar, place);
    }
}
