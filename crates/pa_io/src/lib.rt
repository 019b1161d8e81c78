//! The outside of the toolchain as three traits, a shelf of files, a source and a sink of bytes: what each tells of its
//! contents and how it counts its faults, with objects in memory, objects in memory that never fail, and the real ones.
#![tactic(auto)]

mod calls;
mod files;
mod memory;
mod moves;
mod outside;
mod real;
mod sure;
#[cfg(test)]
mod tests;

pub use calls::Calls;
pub use files::{MemFile, MemFiles};
pub use memory::{MemShelf, MemSink, MemSource};
pub use outside::{Failed, Shelf, ShelfFault, Sink, Source, read_all, write_all};
pub use real::{DiskShelf, StdinSource, StdoutSink};
pub use sure::{SureShelf, SureSink, SureSource};
