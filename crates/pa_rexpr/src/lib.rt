//! Which typed form an expression of C has, or the first rule that it breaks and where.
#![tactic(auto)]

mod category;

pub use category::Category;
