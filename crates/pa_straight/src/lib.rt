//! Programs of the first form, which only print bytes and return: their text.
#![tactic(auto)]

mod source;
#[cfg(test)]
mod tests;

pub use source::{Straight, read};
