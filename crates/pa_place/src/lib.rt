//! The typed forms of operators on places, of casts and of `sizeof`, or the rule that an operand breaks.
#![tactic(auto)]

mod casts;
mod members;
mod places;
mod texts;

pub use casts::cast;
pub use members::{arrow, member};
pub use places::{address, indirection, size_of, subscript};
pub use texts::string;

#[cfg(test)]
mod tests;
