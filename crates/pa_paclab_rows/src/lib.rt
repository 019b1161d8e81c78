//! Words, files, sources and sinks, and what the top call answers and prints for them. The crate has tests alone.
#![tactic(auto)]

#[cfg(test)]
mod faults;
#[cfg(test)]
mod tests;
#[cfg(test)]
mod world;
