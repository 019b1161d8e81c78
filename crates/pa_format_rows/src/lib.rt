//! Worked images and their parts, read, written and loaded. The crate has tests alone.
#![tactic(auto)]

#[cfg(test)]
mod bytes;
#[cfg(test)]
mod chains;
#[cfg(test)]
mod fixups;
#[cfg(test)]
mod headers;
#[cfg(test)]
mod images;
#[cfg(test)]
mod loads;
#[cfg(test)]
mod slots;
#[cfg(test)]
mod symbols;
