//! Reads, writes, copies and fetches of memory at the borders of its regions, and marks of the log. The crate has tests alone.
#![tactic(auto)]

#[cfg(test)]
mod logging;
#[cfg(test)]
mod memory;
