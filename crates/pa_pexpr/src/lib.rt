//! Expressions of C over the readers of their parts, each function equal to its part of the reading.
#![tactic(auto)]

mod arguments;
mod climb;
mod expr_rules;
mod infix;
mod operand;
mod piece;

pub use expr_rules::ExprRules;
