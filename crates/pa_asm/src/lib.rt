//! From a program in assembly to an object.
#![tactic(auto)]

mod assembler;
mod assembly;
mod labels;
mod pieces;
mod rule;
mod settling;

pub use assembler::assemble;
pub use rule::AsmRule;
