//! The readers of expressions, specifiers and declarators of C, tied together.
#![tactic(auto)]

mod depth;

pub use depth::{read_declarator, read_expr, read_specs};
