// Texts with the verdict on each: the rule's number and the place of the node at fault, or zeros.
use std::process::Abort;
use verdict::editor::wisnoeur_verdict;

// The verdict on each text.
fn judged(rt: &impl Abort, cases: &[(&str, u32, usize)]) {
    for (text, number, place) in cases {
        let verdict = wisnoeur_verdict(text.as_bytes());
        assert_eq!(rt; verdict.number, *number, "{}", text);
        assert_eq!(rt; verdict.place, *place, "{}", text);
    }
}

#[test]
fn declarations(rt: HostRuntime) {
    judged(
        &rt,
        &[
            ("program p; begin end.", 0, 0),
            ("program p; var p: integer; begin read(p) end.", 0, 0),
            (
                "program p; var a, b: integer; A: boolean; begin end.",
                21,
                30,
            ),
            (
                "program p; var a, a, a: integer; begin read(b) end.",
                21,
                18,
            ),
            ("program p; begin a := 1 end.", 22, 19),
            (
                "program p; var a: integer; begin read(a); read(b); write(c) end.",
                22,
                42,
            ),
            (
                "program p; var a: integer; begin a := b + (c + true) end.",
                22,
                38,
            ),
        ],
    );
}

#[test]
fn types(rt: HostRuntime) {
    judged(
        &rt,
        &[
            (
                "program p; var b: boolean; begin read(b); b := b = true end.",
                23,
                49,
            ),
            ("program p; begin write((1 + true) * 2 > 3) end.", 23, 26),
            ("program p; begin write(-true) end.", 23, 23),
            ("program p; begin write(not 1) end.", 23, 23),
            ("program p; begin write(round(1 / true)) end.", 23, 23),
            ("program p; begin write(true and (1 < 2)) end.", 0, 0),
            ("program p; begin write(1 and true) end.", 23, 25),
            ("program p; begin if 1 then end.", 23, 17),
            ("program p; begin while 1 do end.", 23, 17),
            ("program p; begin if 1 + true then end.", 23, 22),
            ("program p; var i: integer; begin i := true end.", 23, 35),
            (
                "program p; var i: integer; begin i := 1 < 2; write(i) end.",
                23,
                35,
            ),
            (
                "program p; var i: integer; begin write(i); i := true end.",
                23,
                45,
            ),
        ],
    );
}

#[test]
fn set_variables(rt: HostRuntime) {
    judged(
        &rt,
        &[
            ("program p; var i: integer; begin write(i) end.", 24, 39),
            ("program p; var i: integer; begin i := i end.", 24, 38),
            (
                "program p; var i, j: integer; begin i := j + i end.",
                24,
                41,
            ),
            (
                "program p; var b: boolean; x: integer; begin read(b); if b then x := 1; write(x) end.",
                24,
                78,
            ),
            (
                "program p; var b: boolean; x: integer; begin read(b); if b then x := 1 else x := 2; write(x) end.",
                0,
                0,
            ),
            (
                "program p; var b: boolean; x: integer; begin read(b); if b then else x := 2; write(x) end.",
                24,
                83,
            ),
            (
                "program p; var i, j: integer; begin read(i); while i > 0 do begin j := i; i := i - j end; write(j) end.",
                24,
                96,
            ),
            (
                "program p; var i, j: integer; begin read(i); while i > 0 do begin j := i; i := i - j end end.",
                0,
                0,
            ),
            (
                "program p; var i: integer; begin while i > 0 do read(i) end.",
                24,
                39,
            ),
            (
                "program p; var b: boolean; begin if b then read(b) else read(b); write(b) end.",
                24,
                36,
            ),
        ],
    );
}

#[test]
fn order_of_the_rules(rt: HostRuntime) {
    judged(
        &rt,
        &[
            (
                "program p; var i: integer; begin write(i); write(1 + true) end.",
                23,
                51,
            ),
            (
                "program p; var i: integer; begin write(1 + true); write(k) end.",
                22,
                56,
            ),
            ("program p; var i, i: integer; begin write(k) end.", 21, 18),
        ],
    );
}
