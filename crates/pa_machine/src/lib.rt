//! The A64 machine with pointer authentication: one step at a time, and its run.
#![tactic(auto)]

mod kept;
mod machine;
mod went;

pub use machine::Machine;
pub use pa_object::{End, Flags, Trap};
pub use pa_processor::Loaded;
pub use went::Went;
