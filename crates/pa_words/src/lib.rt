//! The command that the words of a command line spell, or the first rule of usage that they break.
#![tactic(auto)]

mod command;
mod given;
mod names;
mod spelled;
#[cfg(test)]
mod tests;
mod values;
mod word;

pub use command::{Command, Input, MeanOptions, RunOptions, UseFault, WordsFault};
pub use names::{CommandName, LogForm, OptionName, PacName};
pub use spelled::words;
pub use word::{Operands, Word};
