//! A worked program of three objects, linked, written and read. The crate has tests alone.
#![tactic(auto)]

#[cfg(test)]
mod objects;
#[cfg(test)]
mod worked;
