//! The typed form of a call, or the rule that it breaks.
#![tactic(auto)]

mod arguments;
mod functions;
mod rules;

pub use arguments::Arguments;
pub use functions::called_function;

#[cfg(test)]
mod tests;
