use pa_num::{Bytes, Sequence};

/// The number of a name: how many stand before it in the list of the file's names (`Names`).
pub type NameNumber = u32;

/// A keyword of C11 (6.4.1), or `__ptrauth`.
#[derive(Clone, Copy, Debug, PartialEq, Eq)]
pub enum Keyword {
    Auto,
    Break,
    Case,
    Char,
    Const,
    Continue,
    Default,
    Do,
    Double,
    Else,
    Enum,
    Extern,
    Float,
    For,
    Goto,
    If,
    Inline,
    Int,
    Long,
    Register,
    Restrict,
    Return,
    Short,
    Signed,
    Sizeof,
    Static,
    Struct,
    Switch,
    Typedef,
    Union,
    Unsigned,
    Void,
    Volatile,
    While,
    Alignas,
    Alignof,
    Atomic,
    Bool,
    Complex,
    Generic,
    Imaginary,
    Noreturn,
    StaticAssert,
    ThreadLocal,
    Ptrauth,
}

/// A punctuator of C11 (6.4.6). Digraphs, `#` and `##` are none.
#[derive(Clone, Copy, Debug, PartialEq, Eq)]
pub enum Punct {
    LeftBracket,
    RightBracket,
    LeftParenthesis,
    RightParenthesis,
    LeftBrace,
    RightBrace,
    Dot,
    Arrow,
    Increment,
    Decrement,
    Ampersand,
    Star,
    Plus,
    Minus,
    Tilde,
    Exclamation,
    Slash,
    Percent,
    ShiftLeft,
    ShiftRight,
    Less,
    Greater,
    LessEqual,
    GreaterEqual,
    Equal,
    NotEqual,
    Caret,
    Bar,
    LogicalAnd,
    LogicalOr,
    Question,
    Colon,
    Semicolon,
    Ellipsis,
    Assign,
    MultiplyAssign,
    DivideAssign,
    RemainderAssign,
    AddAssign,
    SubtractAssign,
    ShiftLeftAssign,
    ShiftRightAssign,
    AndAssign,
    XorAssign,
    OrAssign,
    Comma,
}

/// A line that brings in the names of a header.
#[derive(Clone, Copy, Debug, PartialEq, Eq)]
pub enum Include {
    Stdio,
    Stdint,
    Ptrauth,
}

/// What a token is.
#[derive(Debug, Drop)]
pub enum Kind {
    /// An identifier (6.4.2) that is no keyword, of 1 to 255 bytes, by its number.
    Name(NameNumber),
    Keyword(Keyword),
    /// An integer constant (6.4.4.1). `decimal`: its base is 10. `unsigned`: it has a suffix `u`. `long`: it has a suffix
    /// `l` or `ll`.
    Integer {
        value: u64,
        decimal: bool,
        unsigned: bool,
        long: bool,
    },
    /// A character constant (6.4.4.4), as the value of a signed `char`.
    Character(i8),
    /// A string literal (6.4.5): its bytes with each escape replaced, without a final zero.
    Text(Bytes),
    Punct(Punct),
    Include(Include),
}

/// A token, whose text is the bytes of the file from `from` on up to `to`.
#[derive(Debug, Drop)]
pub struct Token {
    pub kind: Kind,
    pub from: u32,
    pub to: u32,
}

/// Tokens in order.
pub type Tokens = Sequence<Token>;

/// A rule that the bytes of a file can break.
#[derive(Clone, Copy, Debug, PartialEq, Eq)]
pub enum LexRule {
    /// A byte that begins no token, a literal with an escape that is none or is above 255, or a character constant of
    /// another count of characters than one.
    X1,
    /// A comment or a literal without its end.
    X2,
    /// An integer constant above 2^64 - 1.
    X3,
    /// A line that begins with `#` and is none of the lines of `Include`.
    X4,
    /// A name longer than 255 bytes.
    X5,
}
