//! Files, with the number of their items: each alternative of initializers, declarations and files, depths, and each kind of refusal.

use crate::file_outline::{Told, outline};
use std::alloc::{AllocError, Global};
use std::test::Fail;

/// Files with the number of their items, or with the rule that they break and its place.
const FILES: [(&str, &str); 36] = [
    ("", "0"),
    ("#include <stdio.h>\n#include <stdint.h>\n", "2"),
    ("int x;\n#include <stdint.h>\nuint8_t y;", "3"),
    ("int x", "S1 5"),
    ("int x;", "1"),
    (";", "S1 0"),
    ("static int x = 1, *p = &x;", "1"),
    ("extern int f(int), g(void);", "1"),
    ("static typedef int t;", "S1 7"),
    ("int a[2] = { 1, 2 };", "1"),
    ("int a[2] = { 1, 2, };", "1"),
    ("int a[2] = { };", "S1 13"),
    ("int a[2] = { , };", "S1 13"),
    ("int a[2] = { 1, , };", "S1 16"),
    ("int a[2] = { 1 2 };", "S1 15"),
    ("int a[2][1] = { { 1 }, { 2, } };", "1"),
    ("int a = 1, ;", "S1 11"),
    ("int a = 1, 2;", "S1 11"),
    ("int a = 1 = 2;", "1"),
    ("int a = b = 2, c;", "1"),
    ("int a = (1, 2);", "1"),
    ("int f(void) { }", "1"),
    ("static int f(void) { } extern int g(void) { }", "2"),
    ("typedef int f(void) { }", "S1 20"),
    ("int f { }", "1"),
    ("int f(void), g(void) { }", "S1 21"),
    ("int f(void); { }", "S1 13"),
    ("int f(void) int a;", "S1 12"),
    ("int f(void) { } ;", "S1 16"),
    ("int8_t x;", "S1 0"),
    ("#include <stdint.h>\nint8_t a; uint64_t b;", "3"),
    ("#include <stdint.h>\nint a; int8_t b, int16_t;", "S1 37"),
    ("#include <stdio.h>\nint8_t a;", "S1 19"),
    ("int main(void){return 0", "S1 23"),
    ("int main(void){return 0;}", "1"),
    ("int main(void){return 0;}}", "S1 25"),
];

/// The same of specifiers: what stands in front of declarators.
const SPECIFIERS: [(&str, &str); 36] = [
    ("int;", "1"),
    ("void *p; _Bool b; char c; float f;", "S1 26"),
    ("unsigned long long int a; short signed b;", "2"),
    ("int long unsigned a; char signed b; char c;", "3"),
    ("long long long a;", "S1 10"),
    ("signed unsigned a;", "S1 7"),
    ("int int a;", "S1 4"),
    ("short char a;", "S1 6"),
    ("const;", "S1 5"),
    ("const int a; int const b; const const int const c;", "3"),
    ("struct s;", "1"),
    ("struct s { int a; };", "1"),
    ("struct s { int a, *b; struct s *c; } x, y;", "1"),
    ("struct { int a; } x;", "1"),
    ("struct { struct s { int a; } b; enum { A } c; };", "1"),
    ("struct { };", "S1 9"),
    ("struct { int; };", "S1 12"),
    ("struct { int a = 1; };", "S1 15"),
    ("struct;", "S1 6"),
    ("struct s { int a; } { int b; };", "S1 20"),
    ("enum e;", "1"),
    ("enum e { A } x;", "1"),
    ("enum { A, B = 2 + 1, };", "1"),
    ("enum { };", "S1 7"),
    ("enum { A, , };", "S1 10"),
    ("enum { A = 1 = 2 };", "S1 13"),
    ("typedef int t; t x; t;", "3"),
    ("typedef int t; t int x;", "S1 17"),
    ("t x;", "S1 0"),
    ("void (*__ptrauth(1) f)(void);", "1"),
    ("void (*__ptrauth(1, 0, 7) f)(void);", "1"),
    ("typedef void f(void); f *__ptrauth(1) const p;", "2"),
    (
        "typedef void (*f)(void); f __ptrauth(1) p; __ptrauth(1) f q;",
        "3",
    ),
    ("void (*__ptrauth() f)(void);", "S1 17"),
    ("void (*__ptrauth(1,1,1,1) f)(void);", "S1 22"),
    ("void (*__ptrauth f)(void);", "S1 17"),
];

/// The same of declarators with and without names.
const DECLARATORS: [(&str, &str); 24] = [
    ("int *const *a[2][3], (*f)(int, char *), *(g)(void);", "1"),
    ("int (*(*f)(void))[2];", "1"),
    ("int ();", "S1 5"),
    ("int *;", "S1 5"),
    ("int (*);", "S1 6"),
    ("int a[];", "1"),
    ("int a[n;", "S1 7"),
    ("int a[1 = 2];", "S1 8"),
    ("int f();", "1"),
    ("int f(void);", "1"),
    ("int f(void, int);", "1"),
    ("int f(const void);", "1"),
    ("int f(int a, int, int *c);", "1"),
    ("int f(int,);", "S1 10"),
    ("int f(int;", "S1 9"),
    ("int f(a);", "S1 6"),
    ("int f(struct s { int a; } x);", "S1 15"),
    (
        "int f(int *, int [2], int (*)(int), int (*[3])(void), int ());",
        "1",
    ),
    ("int f(int (a)), g(int (*)), h(int ([3]));", "1"),
    ("typedef int t; int f(int (t));", "2"),
    ("typedef int t; int f(int (x));", "2"),
    ("typedef int t; int f(int (t x));", "2"),
    ("typedef int t; int f(t t);", "S1 23"),
    ("int f(int (x y));", "S1 13"),
];

/// The same of the names that typedefs make types.
const TYPEDEFS: [(&str, &str); 20] = [
    ("typedef int t; t x;", "2"),
    ("typedef int t", "S1 13"),
    ("typedef int t, u[sizeof(t*)];", "1"),
    ("typedef int t, u(t);", "1"),
    ("typedef int t, t;", "S1 15"),
    ("typedef int t[sizeof(t*)];", "S1 23"),
    ("typedef int t = (t)1;", "1"),
    ("int t = (t)1;", "S1 11"),
    ("typedef int t {}", "S1 14"),
    ("typedef int *(*t)(void); t x;", "2"),
    ("typedef int t; int t;", "S1 19"),
    ("typedef int t; typedef int t;", "S1 27"),
    ("typedef int t; struct t { int a; };", "S1 22"),
    ("typedef int t; struct s { int t; };", "S1 30"),
    ("typedef int t; enum { t };", "S1 22"),
    ("typedef struct n { struct n *p; } n; n *x;", "2"),
    ("typedef int t; typedef t u; u x;", "3"),
    (
        "typedef int t; int f(t x) { t y; y = (t)x; return sizeof(t); }",
        "2",
    ),
    ("int f(void) { t x; } typedef int t;", "S1 16"),
    ("typedef int t; int f(int x) { return x.t; }", "S1 39"),
];

#[test]
fn files_read_as_by_hand(rt: HostRuntime) -> Result<(), Fail> {
    for cases in [
        FILES.as_slice(),
        SPECIFIERS.as_slice(),
        DECLARATORS.as_slice(),
        TYPEDEFS.as_slice(),
    ] {
        for (text, want) in cases {
            let bytes = text.as_bytes();
            assert!(rt; bytes.len() < 1000);
            let got = outline(rt.alloc(), bytes, Told::Count)?;
            assert_eq!(rt; got.as_str(), *want, "at {text:?}");
        }
    }
    Ok(())
}

/// Every second part between bars stands so many times: trees as deep as may be, and deeper ones.
const DEPTHS: [(&str, u32, &str); 30] = [
    ("int f(void){return |!|1;}", 197, "1"),
    ("int f(void){return |!|1;}", 198, "S2 216"),
    ("int f(void){return |!|1;}", 300, "S2 216"),
    ("int f(void){return |(|1|)|;}", 197, "1"),
    ("int f(void){return |(|1|)|;}", 198, "S2 216"),
    ("int f(void){return |(|1|)|;}", 300, "S2 216"),
    ("int f(void){return 0|+0|;}", 197, "1"),
    ("int f(void){return 0|+0|;}", 198, "S2 414"),
    ("int f(void){return (int|*|)0;}", 197, "1"),
    ("int f(void){return (int|*|)0;}", 198, "S2 220"),
    ("int f(void)|{||}|", 200, "1"),
    ("int f(void)|{||}|", 201, "S2 211"),
    ("int f(void)|{|int x;|}|", 199, "1"),
    ("int f(void)|{|int x;|}|", 200, "S2 211"),
    ("int f(void){if(0);|else if(0);|}", 197, "1"),
    ("int f(void){if(0);|else if(0);|}", 198, "S2 2190"),
    ("int f(void){switch(0){|case 1:|;}}", 196, "1"),
    ("int f(void){switch(0){|case 1:|;}}", 197, "S2 1394"),
    ("int f(void){|for(;;)|;}", 198, "1"),
    ("int f(void){|for(;;)|;}", 199, "S2 1398"),
    ("int |*|x;", 199, "1"),
    ("int |*|x;", 200, "S2 203"),
    ("int a|[1]|;", 199, "1"),
    ("int a|[1]|;", 200, "S2 602"),
    ("int f(|int(|int|)|);", 199, "1"),
    ("int f(|int(|int|)|);", 200, "S2 805"),
    ("|struct{|int x;|}x;|", 199, "1"),
    ("|struct{|int x;|}x;|", 200, "S2 1399"),
    ("int x = |{|1|}|;", 199, "1"),
    ("int x = |{|1|}|;", 200, "S2 207"),
];

/// The text of a row.
fn repeated(alloc: Global, pattern: &str, times: u32) -> Result<String, AllocError> {
    let mut text = String::new(alloc);
    for (number, part) in pattern.split('|').enumerate() {
        let count = if number % 2 == 0 { 1 } else { times };
        for _ in 0..count {
            text.push_str(part)?;
        }
    }
    Ok(text)
}

#[test]
fn depths_read_as_by_hand(rt: HostRuntime) -> Result<(), Fail> {
    for (pattern, times, want) in &DEPTHS {
        let text = repeated(rt.alloc(), pattern, *times)?;
        let bytes = text.as_bytes();
        assert!(rt; bytes.len() < 10000);
        let got = outline(rt.alloc(), bytes, Told::Count)?;
        assert_eq!(rt; got.as_str(), *want, "at {pattern:?} {times}");
    }
    Ok(())
}
