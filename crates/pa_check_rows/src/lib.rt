//! Images that break a rule of the checker, and their neighbours that don't. The crate has tests alone.
#![tactic(auto)]

#[cfg(test)]
mod data;
#[cfg(test)]
mod library;
#[cfg(test)]
mod sample;
#[cfg(test)]
mod tests;
#[cfg(test)]
mod words;
