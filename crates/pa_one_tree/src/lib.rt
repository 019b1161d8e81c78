//! One tree of C at a place among tokens: an expression, specifiers, or a declarator.
#![tactic(auto)]

mod whole;

pub use pa_grammar::{Level, SynRule, TypeNames};
pub use whole::{MOST_LEVELS, declarator, expr, type_specs};
