//! Worked cases of every row of the instruction table, run on the machine. The crate has tests alone.
#![tactic(auto)]

#[cfg(test)]
mod program;
#[cfg(test)]
mod signing;
#[cfg(test)]
mod tables;
#[cfg(test)]
mod tests;
