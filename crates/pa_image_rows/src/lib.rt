//! Images of programs in assembly, checked and run beside scripts. The crate has tests alone.
#![tactic(auto)]

#[cfg(test)]
mod assembly;
#[cfg(test)]
mod program;
#[cfg(test)]
mod refusals;
#[cfg(test)]
mod reports;
