//! Words of A64, lines of assembly and whole texts, with what they are to give. The crate has tests alone.
#![tactic(auto)]

#[cfg(test)]
mod assembly;
#[cfg(test)]
mod lines;
#[cfg(test)]
mod words;
