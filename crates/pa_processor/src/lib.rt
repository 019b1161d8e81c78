//! The registers, memory, input, output and log of the A64 machine, and what each instruction does to them.
#![tactic(auto)]

mod authentication;
mod branch;
mod compute;
mod execute;
mod input;
mod loaded;
mod memory_access;
mod processor;

pub use loaded::Loaded;
pub use processor::Processor;
