//! Objects of code and data, linked to one image.
#![tactic(auto)]

mod fixes;
mod imports;
mod layout;
mod linking;
mod references;
mod section;
mod symbols;
mod text;

pub use linking::link;
