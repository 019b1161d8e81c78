//! Bodies of functions: each alternative of statements, and where types and names make the difference.

use crate::file_outline::{Told, outline};
use std::fmt::Write;
use std::test::Fail;

/// Bodies of a function, `int f(int x) {` before and `}` behind them, with their items or the rule that they break.
const BODIES: [(&str, &str); 54] = [
    ("", ""),
    (";", "nothing;"),
    ("x;", "value;"),
    ("x = 1, x;", "value;"),
    ("x", "S1 15"),
    ("{ }", "block;"),
    ("{ { ; } } ; { }", "block;nothing;block;"),
    ("int y;", "names;"),
    ("int y = 1, *z; const int w = 2;", "names;names;"),
    (
        "struct s *p; enum e q; int a[] = { 1, };",
        "names;names;names;",
    ),
    ("int;", "S1 17"),
    ("struct s { int a; } y;", "S1 23"),
    ("typedef int t;", "S1 14"),
    ("static int y;", "S1 14"),
    ("int g(void) { }", "S1 26"),
    ("if (x) ;", "if;"),
    ("if (x) ; else ;", "if else;"),
    ("if (x) if (x) ; else ;", "if;"),
    ("if (x) if (x) ; else ; else ;", "if else;"),
    ("if (x) { if (x) ; } else ;", "if else;"),
    ("if (x) while (x) if (x) ; else ;", "if;"),
    ("if (x) do if (x) ; while (x); else ;", "if else;"),
    ("if (x) ; else ; else ;", "S1 30"),
    ("else ;", "S1 14"),
    ("if x ;", "S1 17"),
    ("if () ;", "S1 18"),
    ("if (x) int y;", "S1 21"),
    ("while (x) x--;", "while;"),
    ("while (x) ", "S1 24"),
    ("do x--; while (x);", "do;"),
    ("do x--; while (x)", "S1 31"),
    ("do x--; (x);", "S1 22"),
    ("for (;;) ;", "for;"),
    ("for (x = 0; x; x++) ;", "for;"),
    ("for (int i = 0, j = 1; i; ) ;", "for;"),
    ("for (x) ;", "S1 20"),
    ("for (int i) ;", "S1 24"),
    ("for (;;;) ;", "S1 21"),
    ("switch (x) { case 1: default: ; }", "switch;"),
    ("case 1: ;", "case;"),
    ("case x = 1: ;", "S1 21"),
    ("case 1: }", "S1 22"),
    ("case 1: int y;", "S1 22"),
    ("default: ;", "default;"),
    ("default ;", "S1 22"),
    ("switch (x) case 1 + 1: case 2: break;", "switch;"),
    ("break; continue;", "break;continue;"),
    ("break x;", "S1 20"),
    ("return;", "return;"),
    ("return x;", "return;"),
    ("return (int)x;", "return;"),
    ("return (int);", "S1 26"),
    ("return (x)x;", "S1 24"),
    ("goto x;", "S1 14"),
];

#[test]
fn bodies_read_as_by_hand(rt: HostRuntime) -> Result<(), Fail> {
    for (body, want) in &BODIES {
        let mut text = String::new(rt.alloc());
        write!(text, "int f(int x) {{{body}}}")?;
        let bytes = text.as_bytes();
        assert!(rt; bytes.len() < 1000);
        let got = outline(rt.alloc(), bytes, Told::Items)?;
        assert_eq!(rt; got.as_str(), *want, "at {body:?}");
    }
    Ok(())
}

/// What a function gives, `typedef int t; int f(int x, int y) { return` before it, where `t` is a type and `x` is none.
const GIVEN: [(&str, &str); 16] = [
    ("x", "name"),
    ("(x)", "paren"),
    ("(t)x", "cast"),
    ("(t)(x)", "cast"),
    ("(x)(y)", "call"),
    ("(t)*x", "cast"),
    ("(x)*y", "Multiply"),
    ("(t)-x", "cast"),
    ("(x)-y", "Subtract"),
    ("(t)x - y", "Subtract"),
    ("(int (*)(t))x", "cast"),
    ("sizeof(t)", "sizeof type"),
    ("sizeof(x)", "sizeof"),
    ("sizeof(t)*x", "Multiply"),
    ("sizeof(x)[y]", "sizeof"),
    ("sizeof(t *(*)[2])", "sizeof type"),
];

#[test]
fn types_and_names_read_apart(rt: HostRuntime) -> Result<(), Fail> {
    for (given, want) in &GIVEN {
        let mut text = String::new(rt.alloc());
        write!(
            text,
            "typedef int t; int f(int x, int y) {{ return {given}; }}"
        )?;
        let bytes = text.as_bytes();
        assert!(rt; bytes.len() < 1000);
        let got = outline(rt.alloc(), bytes, Told::Given)?;
        assert_eq!(rt; got.as_str(), *want, "at {given:?}");
    }
    Ok(())
}
