//! Worked runs of the machine. The crate has tests alone.
#![tactic(auto)]

#[cfg(test)]
mod tests;
