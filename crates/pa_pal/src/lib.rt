//! The runtime image: what programs call to print a byte and to read one.
#![tactic(auto)]

mod runtime;
#[cfg(test)]
mod tests;

pub use runtime::pal;
