//! Typed trees of C, units and programs, and what is counted on them.
#![tactic(auto)]

mod counts;
mod expr;
mod stmt;
mod unit;

pub use counts::{local_bytes, nodes, pend, weight};
pub use expr::{BinaryOperation, Comparison, ExprType, TExpr, UnaryOperation};
pub use stmt::{Given, Initial, Initials, LocalInit, LocalInits, TForStart, TStmt};
pub use unit::{
    CGlobal, CGlobals, CLocal, CLocals, Cell, Cells, Declared, Declareds, Function, Functions,
    Program, Texts, Unit,
};
