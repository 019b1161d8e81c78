//! Worked cases of the parser: each alternative of the grammar, and each kind of refusal. The crate has tests alone.
#![tactic(auto)]

#[cfg(test)]
mod bodies;
#[cfg(test)]
mod file_outline;
#[cfg(test)]
mod files;
#[cfg(test)]
mod tree_outline;
#[cfg(test)]
mod trees;
