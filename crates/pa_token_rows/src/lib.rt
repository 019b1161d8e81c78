//! Tokens, operators and first steps of readers by hand. The crate has tests alone.
#![tactic(auto)]

#[cfg(test)]
mod operators;
#[cfg(test)]
mod readers;
#[cfg(test)]
mod tokens;
