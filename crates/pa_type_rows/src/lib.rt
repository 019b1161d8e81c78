//! Types and counts by hand. The crate has tests alone.
#![tactic(auto)]

#[cfg(test)]
mod chain;
#[cfg(test)]
mod joined;
#[cfg(test)]
mod layouts;
#[cfg(test)]
mod sameness;
#[cfg(test)]
mod samples;
