//! Programs beside scripts that attack them, run on the machine. The crate has tests alone.
#![tactic(auto)]

#[cfg(test)]
mod attacks;
#[cfg(test)]
mod program;
#[cfg(test)]
mod tests;
