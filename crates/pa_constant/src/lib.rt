//! The typed forms of names, of literals that are numbers, and of the discriminators of strings, or the rule that
//! they break.
#![tactic(auto)]

mod literal;
mod name;

pub use literal::{IntegerConstant, character, discriminator, integer_constant};
pub use name::named;

#[cfg(test)]
mod tests;
