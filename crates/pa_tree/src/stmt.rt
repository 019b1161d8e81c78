use crate::declaration::BlockDeclaration;
use crate::expr::Expr;
use sqlite_items::{Boxed, Items};

/// A statement (6.8).
#[cycle(statement)]
#[derive(Drop)]
pub enum Stmt {
    /// `{ items }` (6.8.2).
    Compound {
        items: Items<BlockItem>,
        from: u32,
        to: u32,
    },
    /// `value ;`, or `;` alone (6.8.3).
    Expression {
        value: Option<Expr>,
        from: u32,
        to: u32,
    },
    /// `if ( test ) when_true` without an `else` (6.8.4.1).
    If {
        test: Expr,
        when_true: Boxed<Stmt>,
        from: u32,
        to: u32,
    },
    /// `if ( test ) when_true else when_false` (6.8.4.1).
    IfElse {
        test: Expr,
        when_true: Boxed<Stmt>,
        when_false: Boxed<Stmt>,
        from: u32,
        to: u32,
    },
    /// `while ( test ) body` (6.8.5.1).
    While {
        test: Expr,
        body: Boxed<Stmt>,
        from: u32,
        to: u32,
    },
    /// `do body while ( test ) ;` (6.8.5.2).
    DoWhile {
        body: Boxed<Stmt>,
        test: Expr,
        from: u32,
        to: u32,
    },
    /// `for ( start test ; step ) body` (6.8.5.3), where the start has its own `;`.
    For {
        start: ForStart,
        test: Option<Expr>,
        step: Option<Expr>,
        body: Boxed<Stmt>,
        from: u32,
        to: u32,
    },
    /// `switch ( value ) body` (6.8.4.2).
    Switch {
        value: Expr,
        body: Boxed<Stmt>,
        from: u32,
        to: u32,
    },
    /// `case value : body` (6.8.1).
    Case {
        value: Expr,
        body: Boxed<Stmt>,
        from: u32,
        to: u32,
    },
    /// `default : body` (6.8.1).
    Default {
        body: Boxed<Stmt>,
        from: u32,
        to: u32,
    },
    /// `break ;` (6.8.6.3).
    Break {
        from: u32,
        to: u32,
    },
    /// `continue ;` (6.8.6.2).
    Continue {
        from: u32,
        to: u32,
    },
    /// `return value ;`, or `return ;` (6.8.6.4).
    Return {
        value: Option<Expr>,
        from: u32,
        to: u32,
    },
}

/// What a compound statement holds (6.8.2).
#[cycle(statement)]
#[derive(Drop)]
pub enum BlockItem {
    /// A declaration.
    DeclarationItem {
        declaration: BlockDeclaration,
        from: u32,
        to: u32,
    },
    /// A statement.
    StatementItem {
        statement: Boxed<Stmt>,
        from: u32,
        to: u32,
    },
}

/// The first part of a `for`, with its `;` (6.8.5.3).
#[derive(Drop)]
pub enum ForStart {
    /// A declaration.
    Declares {
        declaration: BlockDeclaration,
        from: u32,
        to: u32,
    },
    /// An expression or none.
    Evaluates {
        value: Option<Expr>,
        from: u32,
        to: u32,
    },
}
