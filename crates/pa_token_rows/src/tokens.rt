//! Cases by hand: each kind of token, each rule, each escape, and tokens that could join.
ghost use Rattle.std.specs.Prelude.{◌≤◌, length};

use pa_lex::{Kind, Lexed, Names, lex};
use pa_num::Fault;
use std::alloc::{AllocError, Global};
use std::fmt::Write;
use std::test::Fail;

fn write_kind(text: &mut String, names: &Names<'_>, kind: &Kind) -> Result<(), AllocError> {
    match kind {
        Kind::Name(number) => {
            let bytes = names.get(*number).unwrap_or(b"");
            let name = str::from_utf8(bytes).unwrap_or("of other bytes");
            write!(text, "name {name}")
        }
        Kind::Keyword(keyword) => write!(text, "{keyword:?}"),
        Kind::Integer {
            value,
            decimal,
            unsigned,
            long,
        } => {
            let base = if *decimal { "d" } else { "" };
            let u = if *unsigned { "u" } else { "" };
            let l = if *long { "l" } else { "" };
            write!(text, "{value}{base}{u}{l}")
        }
        Kind::Character(value) => write!(text, "char {value}"),
        Kind::Text(bytes) => write!(text, "text {:?}", bytes.as_slice()),
        Kind::Punct(punct) => write!(text, "{punct:?}"),
        Kind::Include(include) => write!(text, "{include:?}"),
    }
}

fn write_tokens(text: &mut String, lexed: &Lexed<'_>) -> Result<(), AllocError> {
    for (index, token) in lexed.tokens.as_slice().iter().enumerate() {
        text.push_str(if index == 0 { "" } else { "; " })?;
        write_kind(text, &lexed.names, &token.kind)?;
        write!(text, " {}-{}", token.from, token.to)?;
    }
    Ok(())
}

/// The tokens with their places, or the rule with its place.
fn outline(alloc: Global, bytes: &[u8]) -> Result<String, AllocError>
    requires { length bytes.now ≤ 4294967295 }
{
    let mut text = String::new(alloc);
    match lex(alloc, bytes) {
        Ok(lexed) => write_tokens(&mut text, &lexed)?,
        Err(Fault::Refused { rule, place }) => write!(text, "{rule:?} {place}")?,
        Err(Fault::Memory) => write!(text, "memory")?,
    }
    Ok(text)
}

/// A text a line, and its tokens with their places, or the rule that it breaks with its place: here each kind of
/// token, and those that are the largest of their kind.
const TOKENS: &str = r#"int x; => Int 0-3; name x 4-5; Semicolon 5-6
_a9 int9 => name _a9 0-3; name int9 4-8
__ptrauth _Bool => Ptrauth 0-9; Bool 10-15
0 00 017 42 => 0 0-1; 0 2-4; 15 5-8; 42d 9-11
0x1F 0XfF => 31 0-4; 255 5-9
1u 1U 1l 1L => 1du 0-2; 1du 3-5; 1dl 6-8; 1dl 9-11
1ll 1LL 1ul 1Ull => 1dl 0-3; 1dl 4-7; 1dul 8-11; 1dul 12-16
1lu 1LLU 0x1uLL => 1dul 0-3; 1dul 4-8; 1ul 9-15
09 => 0 0-1; 9d 1-2
0x => 0 0-1; name x 1-2
1.5 => 1d 0-1; Dot 1-2; 5d 2-3
1e3 => 1d 0-1; name e3 1-3
1lL => 1dl 0-2; name L 2-3
1ulu => 1dul 0-3; name u 3-4
L'x' => name L 0-1; char 120 1-4
'a' '"' '\'' => char 97 0-3; char 34 4-7; char 39 8-12
'\xff' '\200' '\177' => char -1 0-6; char -128 7-13; char 127 14-20
"" "a'b" => text [] 0-2; text [97, 39, 98] 3-8
"/*" '/' => text [47, 42] 0-4; char 47 5-8
/ / => Slash 0-1; Slash 2-3
18446744073709551615 => 18446744073709551615d 0-20
0xffffffffffffffffull => 18446744073709551615ul 0-21
01777777777777777777777 => 18446744073709551615 0-23
#include <stdio.h> => Stdio 0-18"#;

/// Each escape, and what is none.
const ESCAPES: &str = r#""\'\"\?\\" => text [39, 34, 63, 92] 0-10
"\a\b\f\n" => text [7, 8, 12, 10] 0-10
"\r\t\v" => text [13, 9, 11] 0-8
"\0\12\1234\377" => text [0, 10, 83, 52, 255] 0-16
"\18\x41\x00041" => text [1, 56, 65, 65] 0-16
"\400" => X1 0
"\x100" => X1 0
"\x" => X1 0
"\xg" => X1 0
"\q" => X1 0
"\8" => X1 0
"\x0000000000000000000000000041" => text [65] 0-32"#;

/// Punctuators side by side, among them each two of which the first takes bytes of the second along.
const PUNCTUATORS: &str = r"+++= => Increment 0-2; AddAssign 2-4
---> => Decrement 0-2; Arrow 2-4
-=- => SubtractAssign 0-2; Minus 2-3
<<<= => ShiftLeft 0-2; LessEqual 2-4
>>=>= => ShiftRightAssign 0-3; GreaterEqual 3-5
<=< => LessEqual 0-2; Less 2-3
!==! => NotEqual 0-2; Assign 2-3; Exclamation 3-4
&&&= |||= => LogicalAnd 0-2; AndAssign 2-4; LogicalOr 5-7; OrAssign 7-9
&|& => Ampersand 0-1; Bar 1-2; Ampersand 2-3
^=^ *=* => XorAssign 0-2; Caret 2-3; MultiplyAssign 4-6; Star 6-7
/=%=% => DivideAssign 0-2; RemainderAssign 2-4; Percent 4-5
.... .. => Ellipsis 0-3; Dot 3-4; Dot 5-6; Dot 6-7
[]{} => LeftBracket 0-1; RightBracket 1-2; LeftBrace 2-3; RightBrace 3-4
}() => RightBrace 0-1; LeftParenthesis 1-2; RightParenthesis 2-3
~?:;, => Tilde 0-1; Question 1-2; Colon 2-3; Semicolon 3-4; Comma 4-5
<::> => Less 0-1; Colon 1-2; Colon 2-3; Greater 3-4
+ + - - => Plus 0-1; Plus 2-3; Minus 4-5; Minus 6-7
&& &== &&& => LogicalAnd 0-2; AndAssign 3-5; Assign 5-6; LogicalAnd 7-9; Ampersand 9-10
&= &&= => AndAssign 0-2; LogicalAnd 3-5; Assign 5-6
*== *= => MultiplyAssign 0-2; Assign 2-3; MultiplyAssign 4-6
+++ ++ +== += => Increment 0-2; Plus 2-3; Increment 4-6; AddAssign 7-9; Assign 9-10; AddAssign 11-13
++= => Increment 0-2; Assign 2-3
--> --- -- => Decrement 0-2; Greater 2-3; Decrement 4-6; Minus 6-7; Decrement 8-10
->> -> ->= => Arrow 0-2; Greater 2-3; Arrow 4-6; Arrow 7-9; Assign 9-10
-== -= --= => SubtractAssign 0-2; Assign 2-3; SubtractAssign 4-6; Decrement 7-9; Assign 9-10
->>= => Arrow 0-2; GreaterEqual 2-4
!== != => NotEqual 0-2; Assign 2-3; NotEqual 4-6
/== /= => DivideAssign 0-2; Assign 2-3; DivideAssign 4-6
%== %= => RemainderAssign 0-2; Assign 2-3; RemainderAssign 4-6
<<== <<= => ShiftLeftAssign 0-3; Assign 3-4; ShiftLeftAssign 5-8
>>== >>= => ShiftRightAssign 0-3; Assign 3-4; ShiftRightAssign 5-8
<<< << <<= => ShiftLeft 0-2; Less 2-3; ShiftLeft 4-6; ShiftLeftAssign 7-10
<== <= <<<= => LessEqual 0-2; Assign 2-3; LessEqual 4-6; ShiftLeft 7-9; LessEqual 9-11
>>> >> >>= => ShiftRight 0-2; Greater 2-3; ShiftRight 4-6; ShiftRightAssign 7-10
>== >= >>>= => GreaterEqual 0-2; Assign 2-3; GreaterEqual 4-6; ShiftRight 7-9; GreaterEqual 9-11
^== ^= => XorAssign 0-2; Assign 2-3; XorAssign 4-6
|== || ||| |= => OrAssign 0-2; Assign 2-3; LogicalOr 4-6; LogicalOr 7-9; Bar 9-10; OrAssign 11-13
||= => LogicalOr 0-2; Assign 2-3
=== == => Equal 0-2; Assign 2-3; Equal 4-6";

/// Each keyword, and names that are nearly one.
const KEYWORDS: &str = r"auto break case char => Auto 0-4; Break 5-10; Case 11-15; Char 16-20
const continue default do => Const 0-5; Continue 6-14; Default 15-22; Do 23-25
double else enum extern float => Double 0-6; Else 7-11; Enum 12-16; Extern 17-23; Float 24-29
for goto if inline int => For 0-3; Goto 4-8; If 9-11; Inline 12-18; Int 19-22
long register restrict return => Long 0-4; Register 5-13; Restrict 14-22; Return 23-29
short signed sizeof static => Short 0-5; Signed 6-12; Sizeof 13-19; Static 20-26
struct => Struct 0-6
switch typedef union unsigned => Switch 0-6; Typedef 7-14; Union 15-20; Unsigned 21-29
void volatile while _Alignas => Void 0-4; Volatile 5-13; While 14-19; Alignas 20-28
_Alignof => Alignof 0-8
_Atomic _Bool _Complex _Generic => Atomic 0-7; Bool 8-13; Complex 14-22; Generic 23-31
_Imaginary _Noreturn _Static_assert => Imaginary 0-10; Noreturn 11-20; StaticAssert 21-35
_Thread_local __ptrauth => ThreadLocal 0-13; Ptrauth 14-23
Int int_ intx in doo => name Int 0-3; name int_ 4-8; name intx 9-13; name in 14-16; name doo 17-20
_bool ptrauth _Static => name _bool 0-5; name ptrauth 6-13; name _Static 14-21";

/// What breaks each rule.
const REFUSED: &str = r#"@ => X1 0
x @ => X1 2
\ => X1 0
`$ => X1 0
'' => X1 0
'ab' => X1 0
'é' => X1 0
é => X1 0
x # => X1 2
 #include <stdio.h> => X1 1
/**/#include <stdio.h> => X1 4
a ## b => X1 2
int x; /* => X2 7
/*/ => X2 0
/* * / => X2 0
"a => X2 0
"\ => X2 0
"\" => X2 0
"\q => X2 0
' => X2 0
'ab => X2 0
x '\' => X2 2
18446744073709551616 => X3 0
1 0x10000000000000000 => X3 2
02000000000000000000000ul => X3 0
99999999999999999999999999 @ => X3 0
#define A => X4 0
# => X4 0
# include <stdio.h> => X4 0
#include <stdio.h> // c => X4 0
#include <stdio.h>x => X4 0
#include "stdio.h" => X4 0"#;

/// Texts of blanks and of several lines.
const TEXTS: [(&str, &str); 10] = [
    ("", ""),
    (" \t\r\n", ""),
    (
        "a/**/b//c\nd/* * / */",
        "name a 0-1; name b 5-6; name d 10-11",
    ),
    ("/*\n#x*/ // /*\nx", "name x 14-15"),
    (
        "#include <stdint.h> \t\r\n#include <ptrauth.h>\nx",
        "Stdint 0-19; Ptrauth 23-43; name x 44-45",
    ),
    (
        "\n#include <stdio.h>\n#include <stdio.h>\n",
        "Stdio 1-19; Stdio 20-38",
    ),
    ("\"a\n\"", "X2 0"),
    ("\"\\\n\"", "X2 0"),
    ("'a\n'", "X2 0"),
    ("int\n#x", "X4 4"),
];

#[test]
fn lines_lex_as_by_hand(rt: HostRuntime) -> Result<(), Fail> {
    for table in [TOKENS, ESCAPES, PUNCTUATORS, KEYWORDS, REFUSED] {
        for line in table.lines() {
            let (text, want) = line.split_once(" => ").ok_or("no answer")?;
            assert!(rt; text.len() < 1000);
            let got = outline(rt.alloc(), text.as_bytes())?;
            assert_eq!(rt; got.as_str(), want, "at {text}");
        }
    }
    Ok(())
}

#[test]
fn texts_lex_as_by_hand(rt: HostRuntime) -> Result<(), Fail> {
    for (text, want) in TEXTS {
        assert!(rt; text.len() < 1000);
        let got = outline(rt.alloc(), text.as_bytes())?;
        assert_eq!(rt; got.as_str(), want, "at {text:?}");
    }
    Ok(())
}

#[test]
fn names_have_at_most_255_bytes(rt: HostRuntime) -> Result<(), Fail> {
    let long = [b'a'; 256];
    let lexed = lex(rt.alloc(), &long[1..])?;
    assert_eq!(rt; lexed.tokens.len(), 1);
    let got = outline(rt.alloc(), &long)?;
    assert_eq!(rt; got.as_str(), "X5 0");
    Ok(())
}

#[test]
fn names_have_numbers_in_order_of_first_sight(rt: HostRuntime) -> Result<(), Fail> {
    let lexed = lex(rt.alloc(), b"b a int b int8_t uint64_t a c_ ab b")?;
    let mut numbers = Vec::new(rt.alloc());
    for token in lexed.tokens.as_slice() {
        if let Kind::Name(number) = token.kind {
            numbers.push(number)?;
        }
    }
    assert_eq!(rt;
        numbers.as_slice(),
        [8, 9, 8, 0, 7, 9, 10, 11, 8].as_slice()
    );
    assert_eq!(rt; lexed.names.len(), 12);
    Ok(())
}
