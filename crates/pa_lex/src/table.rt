ghost use Rattle.std.specs.Prelude.{◌≡◌};
ghost use Rattle.pa_lex.specs.Texts as texts;

use crate::token::{Include, Keyword, Punct};

/// How a keyword is spelled.
pub fn keyword_text(keyword: Keyword) -> &'static [u8]
    ensures { result.now ≡ texts.keyword_text keyword }
{
    match keyword {
        Keyword::Auto => b"auto",
        Keyword::Break => b"break",
        Keyword::Case => b"case",
        Keyword::Char => b"char",
        Keyword::Const => b"const",
        Keyword::Continue => b"continue",
        Keyword::Default => b"default",
        Keyword::Do => b"do",
        Keyword::Double => b"double",
        Keyword::Else => b"else",
        Keyword::Enum => b"enum",
        Keyword::Extern => b"extern",
        Keyword::Float => b"float",
        Keyword::For => b"for",
        Keyword::Goto => b"goto",
        Keyword::If => b"if",
        Keyword::Inline => b"inline",
        Keyword::Int => b"int",
        Keyword::Long => b"long",
        Keyword::Register => b"register",
        Keyword::Restrict => b"restrict",
        Keyword::Return => b"return",
        Keyword::Short => b"short",
        Keyword::Signed => b"signed",
        Keyword::Sizeof => b"sizeof",
        Keyword::Static => b"static",
        Keyword::Struct => b"struct",
        Keyword::Switch => b"switch",
        Keyword::Typedef => b"typedef",
        Keyword::Union => b"union",
        Keyword::Unsigned => b"unsigned",
        Keyword::Void => b"void",
        Keyword::Volatile => b"volatile",
        Keyword::While => b"while",
        Keyword::Alignas => b"_Alignas",
        Keyword::Alignof => b"_Alignof",
        Keyword::Atomic => b"_Atomic",
        Keyword::Bool => b"_Bool",
        Keyword::Complex => b"_Complex",
        Keyword::Generic => b"_Generic",
        Keyword::Imaginary => b"_Imaginary",
        Keyword::Noreturn => b"_Noreturn",
        Keyword::StaticAssert => b"_Static_assert",
        Keyword::ThreadLocal => b"_Thread_local",
        Keyword::Ptrauth => b"__ptrauth",
    }
}

/// How a punctuator is spelled.
pub fn punct_text(punct: Punct) -> &'static [u8]
    ensures { result.now ≡ texts.punct_text punct }
{
    match punct {
        Punct::LeftBracket => b"[",
        Punct::RightBracket => b"]",
        Punct::LeftParenthesis => b"(",
        Punct::RightParenthesis => b")",
        Punct::LeftBrace => b"{",
        Punct::RightBrace => b"}",
        Punct::Dot => b".",
        Punct::Arrow => b"->",
        Punct::Increment => b"++",
        Punct::Decrement => b"--",
        Punct::Ampersand => b"&",
        Punct::Star => b"*",
        Punct::Plus => b"+",
        Punct::Minus => b"-",
        Punct::Tilde => b"~",
        Punct::Exclamation => b"!",
        Punct::Slash => b"/",
        Punct::Percent => b"%",
        Punct::ShiftLeft => b"<<",
        Punct::ShiftRight => b">>",
        Punct::Less => b"<",
        Punct::Greater => b">",
        Punct::LessEqual => b"<=",
        Punct::GreaterEqual => b">=",
        Punct::Equal => b"==",
        Punct::NotEqual => b"!=",
        Punct::Caret => b"^",
        Punct::Bar => b"|",
        Punct::LogicalAnd => b"&&",
        Punct::LogicalOr => b"||",
        Punct::Question => b"?",
        Punct::Colon => b":",
        Punct::Semicolon => b";",
        Punct::Ellipsis => b"...",
        Punct::Assign => b"=",
        Punct::MultiplyAssign => b"*=",
        Punct::DivideAssign => b"/=",
        Punct::RemainderAssign => b"%=",
        Punct::AddAssign => b"+=",
        Punct::SubtractAssign => b"-=",
        Punct::ShiftLeftAssign => b"<<=",
        Punct::ShiftRightAssign => b">>=",
        Punct::AndAssign => b"&=",
        Punct::XorAssign => b"^=",
        Punct::OrAssign => b"|=",
        Punct::Comma => b",",
    }
}

/// How an include line is spelled.
pub fn include_text(include: Include) -> &'static [u8]
    ensures { result.now ≡ texts.include_text include }
{
    match include {
        Include::Stdio => b"#include <stdio.h>",
        Include::Stdint => b"#include <stdint.h>",
        Include::Ptrauth => b"#include <ptrauth.h>",
    }
}

/// The keywords that begin with this byte.
pub fn keywords_at(first: u8) -> &'static [Keyword]
    ensures { result.now ≡ texts.keywords_at first }
{
    match first {
        b'a' => &[Keyword::Auto],
        b'b' => &[Keyword::Break],
        b'c' => &[
            Keyword::Continue,
            Keyword::Const,
            Keyword::Case,
            Keyword::Char,
        ],
        b'd' => &[Keyword::Default, Keyword::Double, Keyword::Do],
        b'e' => &[Keyword::Extern, Keyword::Else, Keyword::Enum],
        b'f' => &[Keyword::Float, Keyword::For],
        b'g' => &[Keyword::Goto],
        b'i' => &[Keyword::Inline, Keyword::Int, Keyword::If],
        b'l' => &[Keyword::Long],
        b'r' => &[Keyword::Register, Keyword::Restrict, Keyword::Return],
        b's' => &[
            Keyword::Signed,
            Keyword::Sizeof,
            Keyword::Static,
            Keyword::Struct,
            Keyword::Switch,
            Keyword::Short,
        ],
        b't' => &[Keyword::Typedef],
        b'u' => &[Keyword::Unsigned, Keyword::Union],
        b'v' => &[Keyword::Volatile, Keyword::Void],
        b'w' => &[Keyword::While],
        b'_' => &[
            Keyword::StaticAssert,
            Keyword::ThreadLocal,
            Keyword::Imaginary,
            Keyword::Noreturn,
            Keyword::Ptrauth,
            Keyword::Alignas,
            Keyword::Alignof,
            Keyword::Complex,
            Keyword::Generic,
            Keyword::Atomic,
            Keyword::Bool,
        ],
        _ => &[],
    }
}

/// The punctuators that begin with this byte, the longer ones first.
pub fn puncts_at(first: u8) -> &'static [Punct]
    ensures { result.now ≡ texts.puncts_at first }
{
    match first {
        b'[' => &[Punct::LeftBracket],
        b']' => &[Punct::RightBracket],
        b'(' => &[Punct::LeftParenthesis],
        b')' => &[Punct::RightParenthesis],
        b'{' => &[Punct::LeftBrace],
        b'}' => &[Punct::RightBrace],
        b'.' => &[Punct::Ellipsis, Punct::Dot],
        b'-' => &[
            Punct::Arrow,
            Punct::Decrement,
            Punct::SubtractAssign,
            Punct::Minus,
        ],
        b'+' => &[Punct::Increment, Punct::AddAssign, Punct::Plus],
        b'&' => &[Punct::LogicalAnd, Punct::AndAssign, Punct::Ampersand],
        b'*' => &[Punct::MultiplyAssign, Punct::Star],
        b'~' => &[Punct::Tilde],
        b'!' => &[Punct::NotEqual, Punct::Exclamation],
        b'/' => &[Punct::DivideAssign, Punct::Slash],
        b'%' => &[Punct::RemainderAssign, Punct::Percent],
        b'<' => &[
            Punct::ShiftLeftAssign,
            Punct::ShiftLeft,
            Punct::LessEqual,
            Punct::Less,
        ],
        b'>' => &[
            Punct::ShiftRightAssign,
            Punct::ShiftRight,
            Punct::GreaterEqual,
            Punct::Greater,
        ],
        b'=' => &[Punct::Equal, Punct::Assign],
        b'^' => &[Punct::XorAssign, Punct::Caret],
        b'|' => &[Punct::LogicalOr, Punct::OrAssign, Punct::Bar],
        b'?' => &[Punct::Question],
        b':' => &[Punct::Colon],
        b';' => &[Punct::Semicolon],
        b',' => &[Punct::Comma],
        _ => &[],
    }
}
