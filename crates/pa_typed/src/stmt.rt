use crate::expr::{ExprType, TExpr};
use pa_num::Sequence;
use sqlite_items::{Boxed, Items};

/// What a part of a local object is given.
#[derive(Drop)]
pub enum Given {
    /// The value of an expression. The part is of a scalar type.
    Value { value: TExpr },
    /// The bytes of a string literal (C11 6.7.9p14), by its number among the texts of the unit or program, and zeros behind
    /// them; as many as the array has. The part is an array of characters.
    Text { text: u32 },
}

/// A part of a local object, at this offset in bytes, and what it is given.
#[derive(Drop)]
pub struct Initial {
    pub at: u64,
    pub of: ExprType,
    pub given: Given,
}

/// Parts of one object, ascending.
pub type Initials = Sequence<Initial>;

/// A name that a block declares. Its local lives from the entry of its block on (C11 6.2.4p6). Here the parts that its
/// initializer names are given their values, and all others zero (C11 6.7.9p21). None: it has no initializer, and nothing is
/// given.
#[derive(Drop)]
pub struct LocalInit {
    pub local: u32,
    pub initials: Option<Initials>,
}

/// Names in the order in which they are declared.
pub type LocalInits = Sequence<LocalInit>;

/// The first part of a `for` (C11 6.8.5.3).
#[derive(Drop)]
pub enum TForStart {
    /// The names that it declares.
    Declares { names: LocalInits },
    /// An expression or none.
    Evaluates { value: Option<TExpr> },
}

/// A statement of C (6.8) over typed expressions.
#[derive(Drop)]
pub enum TStmt {
    /// `{ items }`.
    Compound {
        items: Items<TStmt>,
    },
    /// A name that a block declares.
    InitLocal {
        name: LocalInit,
    },
    /// An expression or none.
    Expression {
        value: Option<TExpr>,
    },
    /// `if` without an `else`.
    If {
        test: TExpr,
        body: Boxed<TStmt>,
    },
    /// `if` with an `else`.
    IfElse {
        test: TExpr,
        when_true: Boxed<TStmt>,
        when_false: Boxed<TStmt>,
    },
    /// `while ( test ) body`.
    While {
        test: TExpr,
        body: Boxed<TStmt>,
    },
    /// `do body while ( test ) ;`.
    DoWhile {
        body: Boxed<TStmt>,
        test: TExpr,
    },
    /// `for ( start test ; step ) body`.
    For {
        start: TForStart,
        test: Option<TExpr>,
        step: Option<TExpr>,
        body: Boxed<TStmt>,
    },
    /// `switch ( value ) body`.
    Switch {
        value: TExpr,
        body: Boxed<TStmt>,
    },
    /// `case value : body`. The value is of the switch's promoted type `of`, in 64 bits of two's complement. It counts as one
    /// expression, a number.
    Case {
        value: u64,
        of: ExprType,
        body: Boxed<TStmt>,
    },
    /// `default : body`.
    Default {
        body: Boxed<TStmt>,
    },
    /// `break ;`.
    Break,
    /// `continue ;`.
    Continue,
    /// `return value ;`, or `return ;`.
    Return {
        value: Option<TExpr>,
    },
}
