//! One tree at the first token: each alternative of expressions, specifiers and declarators, how they group, casts against parentheses,
//! depths, and places.

ghost use Rattle.std.specs.Prelude.{◌≤◌, length};

use crate::tree_outline::{
    declarator_ends, ends, write_declarator, write_fault, write_specs, write_tree,
};
use pa_grammar::{Level, TypeNames};
use pa_lex::{NameNumber, Token, lex};
use pa_one_tree::{declarator, expr, type_specs};
use std::alloc::{AllocError, Global};
use std::fmt::Write;
use std::test::Fail;

/// What is asked for.
#[derive(Clone, Copy)]
enum Form {
    Expr(Level),
    /// With bodies or without.
    Specs(bool),
    /// With a name or without.
    Declarator(bool),
}

/// What a reader answers at the first token.
fn write_answer(
    text: &mut String,
    alloc: Global,
    tokens: &[Token],
    names: &TypeNames,
    form: Form,
    depth: u32,
) -> Result<(), AllocError>
    requires shallow { depth ≤ 200 }
{
    match form {
        Form::Expr(level) => match expr(alloc, tokens, 0, names, level, depth) {
            Ok((tree, end)) => {
                write_tree(text, &tree)?;
                let (from, to) = ends(&tree);
                write!(text, "; {from}-{to}, {end}")
            }
            Err(fault) => write_fault(text, fault),
        },
        Form::Specs(bodies) => match type_specs(alloc, tokens, 0, names, bodies, depth) {
            Ok((tree, end)) => {
                write_specs(text, &tree)?;
                write!(text, "; {}-{}, {end}", tree.from, tree.to)
            }
            Err(fault) => write_fault(text, fault),
        },
        Form::Declarator(named) => match declarator(alloc, tokens, 0, names, named, depth) {
            Ok((tree, end)) => {
                write_declarator(text, &tree)?;
                let (from, to) = declarator_ends(&tree);
                write!(text, "; {from}-{to}, {end}")
            }
            Err(fault) => write_fault(text, fault),
        },
    }
}

/// The tree of this form that stands first, with the places of its parts and the number of the token behind it, or the rule with its
/// place. `T` is a type name.
fn outline(alloc: Global, bytes: &[u8], form: Form, depth: u32) -> Result<String, AllocError>
    requires few { length bytes.now ≤ 4294967295 }
    requires shallow { depth ≤ 200 }
{
    let mut text = String::new(alloc);
    let Ok(lexed) = lex(alloc, bytes) else {
        write!(text, "no tokens")?;
        return Ok(text);
    };
    let mut names = TypeNames::new(alloc);
    let count = NameNumber::try_from(lexed.names.len()).unwrap_or(NameNumber::MAX);
    for number in 0..count {
        if lexed.names.get(number) == Some(b"T".as_slice()) && names.push(number).is_err() {
            return Err(AllocError);
        }
    }
    write_answer(
        &mut text,
        alloc,
        lexed.tokens.as_slice(),
        &names,
        form,
        depth,
    )?;
    Ok(text)
}

const ALTERNATIVES: [(&str, &str); 22] = [
    ("x", "name; 0-1, 1"),
    ("42u", "42; 0-3, 1"),
    ("'a'", "char 97; 0-3, 1"),
    ("\"ab\" \"c\"", "text abc; 0-8, 2"),
    ("(x)", "paren 1-2; 0-3, 3"),
    ("a[i]", "index 0-1 2-3; 0-4, 4"),
    ("f()", "call 0 0-1; 0-3, 3"),
    ("f(a, b = c)", "call 2 0-1; 0-11, 8"),
    ("s.m", "dot 0-1; 0-3, 3"),
    ("p->m", "arrow 0-1; 0-4, 3"),
    ("x++", "postfix Increment 0-1; 0-3, 2"),
    ("x--", "postfix Decrement 0-1; 0-3, 2"),
    ("++x", "prefix Increment 2-3; 0-3, 2"),
    ("&x", "prefix Address 1-2; 0-2, 2"),
    ("!x", "prefix Not 1-2; 0-2, 2"),
    ("sizeof x", "sizeof 7-8; 0-8, 2"),
    ("sizeof (x)", "sizeof 7-10; 0-10, 4"),
    ("sizeof(T)", "sizeof type 7-8; 0-9, 4"),
    ("(T)x", "cast 3-4; 0-4, 4"),
    ("(int *)x", "cast 7-8; 0-8, 5"),
    ("a + b", "Add 0-1 4-5; 0-5, 3"),
    ("a ? b : c", "choice 0-1 4-5 8-9; 0-9, 5"),
];

const GROUPS: [(&str, &str); 22] = [
    ("\"ab\" \"c\" int", "text abc; 0-8, 2"),
    ("\"\" \"x\"", "text x; 0-6, 2"),
    ("a b", "name; 0-1, 1"),
    ("x;", "name; 0-1, 1"),
    ("a - b - c", "Subtract 0-5 8-9; 0-9, 5"),
    ("a = b = c", "Assign 0-1 4-9; 0-9, 5"),
    ("a + b * c", "Add 0-1 4-9; 0-9, 5"),
    ("a * b + c", "Add 0-5 8-9; 0-9, 5"),
    ("a ? b : c ? d : e", "choice 0-1 4-5 8-17; 0-17, 9"),
    ("a, b", "Comma 0-1 3-4; 0-4, 3"),
    ("a && b || c", "LogicalOr 0-6 10-11; 0-11, 5"),
    ("a << b < c", "Less 0-6 9-10; 0-10, 5"),
    ("-a[i]", "prefix Minus 1-5; 0-5, 5"),
    ("-x++", "prefix Minus 1-4; 0-4, 3"),
    ("*p++", "prefix Indirection 1-4; 0-4, 3"),
    ("f(x)(y)", "call 1 0-4; 0-7, 7"),
    ("(f)(x)", "call 1 0-3; 0-6, 6"),
    ("(T)(x)", "cast 3-6; 0-6, 6"),
    ("(T)-x", "cast 3-5; 0-5, 5"),
    ("(T)x + y", "Add 0-4 7-8; 0-8, 6"),
    ("sizeof (x)[i]", "sizeof 7-13; 0-13, 7"),
    ("sizeof(T) * x", "Multiply 0-9 12-13; 0-13, 6"),
];

const REFUSALS: [(&str, &str); 14] = [
    ("", "S1 0"),
    ("T", "S1 0"),
    ("a +", "S1 3"),
    ("a + )", "S1 4"),
    ("(a", "S1 2"),
    ("(a b)", "S1 3"),
    ("a[]", "S1 2"),
    ("f(a,)", "S1 4"),
    ("s.1", "S1 2"),
    ("s.T", "S1 2"),
    ("p->", "S1 3"),
    ("a ? b", "S1 5"),
    ("++(T)x", "S1 3"),
    ("(T)", "S1 3"),
];

const LEVELS: [(&str, Level, u32, &str); 9] = [
    ("a, b", Level::Assign, 0, "name; 0-1, 1"),
    ("a = b", Level::Assign, 0, "Assign 0-1 4-5; 0-5, 3"),
    ("a = b", Level::Cond, 0, "name; 0-1, 1"),
    ("a ? b : c", Level::Cond, 0, "choice 0-1 4-5 8-9; 0-9, 5"),
    ("a + b", Level::Expr, 198, "Add 0-1 4-5; 0-5, 3"),
    ("a + b", Level::Expr, 199, "name; 0-1, 1"),
    ("a", Level::Expr, 200, "S2 0"),
    (")", Level::Expr, 200, "S1 0"),
    ("a + (b)", Level::Expr, 198, "S2 4"),
];

const SPECIFIERS: [(&str, &str); 20] = [
    ("int", "0 words 1 0; 0-3, 1"),
    ("void", "0 void 0; 0-4, 1"),
    ("_Bool x", "0 _Bool 0; 0-5, 1"),
    ("unsigned long long int", "0 words 4 0; 0-22, 4"),
    ("long signed", "0 words 2 0; 0-11, 2"),
    ("signed unsigned", "0 words 1 0; 0-6, 1"),
    ("const T const", "1 type name 1; 0-13, 3"),
    ("__ptrauth(0, 1, 2) int", "1 words 1 0; 0-22, 9"),
    ("int __ptrauth(0, 1, 2, 3)", "S1 21"),
    ("const", "S1 5"),
    ("x", "S1 0"),
    ("struct s", "0 struct 0; 0-8, 2"),
    ("struct { int x; }", "0 struct of 1 0; 0-17, 6"),
    ("struct s { int a, *b; T c; }", "0 struct of 2 0; 0-28, 13"),
    ("struct {}", "S1 8"),
    ("struct { int; }", "S1 12"),
    ("enum e", "0 enum 0; 0-6, 2"),
    ("enum { A, B = 2, }", "0 enum of 2 0; 0-18, 9"),
    ("enum { A B }", "S1 9"),
    ("enum {}", "S1 6"),
];

const DECLARATORS: [(&str, &str); 19] = [
    ("x", "name; 0-1, 1"),
    ("*x", "pointer 0 1-2; 0-2, 2"),
    ("* const x", "pointer 1 8-9; 0-9, 3"),
    ("(x)", "group 1-2; 0-3, 3"),
    ("x[3]", "array 0-1 2-3; 0-4, 4"),
    ("x[]", "array 0-1; 0-3, 3"),
    ("x[1][2]", "array 0-4 5-6; 0-7, 7"),
    ("f()", "function 0 0-1; 0-3, 3"),
    ("f(void)", "function void 0-1; 0-7, 4"),
    ("f(void, int)", "function 2 0-1; 0-12, 6"),
    ("f(int, T x)", "function 2 0-1; 0-11, 7"),
    ("*a[2]", "pointer 0 1-5; 0-5, 5"),
    ("(*p)(int)", "function 1 0-4; 0-9, 7"),
    ("x, y", "name; 0-1, 1"),
    ("f(int,)", "S1 6"),
    ("(int)", "S1 1"),
    ("*", "S1 1"),
    ("T", "S1 0"),
    ("", "S1 0"),
];

const ABSTRACT: [(&str, &str); 9] = [
    ("", "none; 0-0, 0"),
    ("x", "none; 0-0, 0"),
    ("*", "pointer 0 1-1; 0-1, 1"),
    ("[3]", "array 0-0 1-2; 0-3, 3"),
    ("()", "function 0 0-0; 0-2, 2"),
    ("(void)", "function void 0-0; 0-6, 3"),
    ("(*)(void)", "function void 0-3; 0-9, 6"),
    ("(T)", "function 1 0-0; 0-3, 3"),
    ("(x)", "S1 1"),
];

const DEPTHS: [(&str, Form, u32, &str); 11] = [
    ("int", Form::Specs(true), 200, "0 words 1 0; 0-3, 1"),
    (
        "struct { int x; }",
        Form::Specs(true),
        198,
        "0 struct of 1 0; 0-17, 6",
    ),
    ("struct { int x; }", Form::Specs(true), 199, "S2 7"),
    (
        "struct s { int x; }",
        Form::Specs(true),
        199,
        "0 struct 0; 0-8, 2",
    ),
    (
        "struct s { int x; }",
        Form::Specs(false),
        0,
        "0 struct 0; 0-8, 2",
    ),
    ("struct { int x; }", Form::Specs(false), 0, "S1 7"),
    ("*x", Form::Declarator(true), 198, "pointer 0 1-2; 0-2, 2"),
    ("*x", Form::Declarator(true), 199, "S2 0"),
    ("x", Form::Declarator(true), 200, "S2 0"),
    ("x[1]", Form::Declarator(true), 199, "name; 0-1, 1"),
    ("*", Form::Declarator(false), 199, "pointer 0 1-1; 0-1, 1"),
];

#[test]
fn expressions_read_as_by_hand(rt: HostRuntime) -> Result<(), Fail> {
    for cases in [
        ALTERNATIVES.as_slice(),
        GROUPS.as_slice(),
        REFUSALS.as_slice(),
    ] {
        for (text, want) in cases {
            let bytes = text.as_bytes();
            assert!(rt; bytes.len() < 1000);
            let got = outline(rt.alloc(), bytes, Form::Expr(Level::Expr), 0)?;
            assert_eq!(rt; got.as_str(), *want, "at {text:?}");
        }
    }
    Ok(())
}

#[test]
fn levels_and_depths_read_as_by_hand(rt: HostRuntime) -> Result<(), Fail> {
    for (text, level, depth, want) in &LEVELS {
        let bytes = text.as_bytes();
        assert!(rt; bytes.len() < 1000);
        assert!(rt; *depth <= 200);
        let got = outline(rt.alloc(), bytes, Form::Expr(*level), *depth)?;
        assert_eq!(rt; got.as_str(), *want, "at {text:?}");
    }
    Ok(())
}

#[test]
fn specifiers_and_declarators_read_as_by_hand(rt: HostRuntime) -> Result<(), Fail> {
    for (cases, form) in [
        (SPECIFIERS.as_slice(), Form::Specs(true)),
        (DECLARATORS.as_slice(), Form::Declarator(true)),
        (ABSTRACT.as_slice(), Form::Declarator(false)),
    ] {
        for (text, want) in cases {
            let bytes = text.as_bytes();
            assert!(rt; bytes.len() < 1000);
            let got = outline(rt.alloc(), bytes, form, 0)?;
            assert_eq!(rt; got.as_str(), *want, "at {text:?}");
        }
    }
    for (text, form, depth, want) in &DEPTHS {
        let bytes = text.as_bytes();
        assert!(rt; bytes.len() < 1000);
        assert!(rt; *depth <= 200);
        let got = outline(rt.alloc(), bytes, *form, *depth)?;
        assert_eq!(rt; got.as_str(), *want, "at {text:?}");
    }
    Ok(())
}

/// 300 signs `!` in front of a number, and 300 parentheses around it.
#[test]
fn the_depth_is_200(rt: HostRuntime) -> Result<(), Fail> {
    let mut signs = [b'!'; 301];
    signs[300] = b'1';
    let got = outline(rt.alloc(), &signs, Form::Expr(Level::Expr), 0)?;
    assert_eq!(rt; got.as_str(), "S2 199");
    let got = outline(rt.alloc(), &signs[101..], Form::Expr(Level::Expr), 0)?;
    assert_eq!(rt; got.as_str(), "prefix Not 1-200; 0-200, 200");
    let mut pairs = [b'('; 601];
    pairs[300] = b'1';
    pairs[301..].fill(b')');
    let got = outline(rt.alloc(), &pairs, Form::Expr(Level::Expr), 0)?;
    assert_eq!(rt; got.as_str(), "S2 199");
    let mut stars = [b'*'; 301];
    stars[300] = b'x';
    let got = outline(rt.alloc(), &stars, Form::Declarator(true), 0)?;
    assert_eq!(rt; got.as_str(), "S2 199");
    let got = outline(rt.alloc(), &stars[101..], Form::Declarator(true), 0)?;
    assert_eq!(rt; got.as_str(), "pointer 0 1-200; 0-200, 200");
    Ok(())
}
