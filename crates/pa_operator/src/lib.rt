//! The typed forms of operators on values, or the rule that an operand breaks.
#![tactic(auto)]

mod arithmetic;
mod comparison;
mod unary;

pub use arithmetic::{on_integers, shift};
pub use comparison::{compared, order};
pub use unary::{negated, plus, with_sign};
