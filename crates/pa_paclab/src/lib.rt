//! The top call: from the words of a command line to what the command prints.
#![tactic(auto)]

mod command_line;
mod lines;
mod printed;
mod running;
mod top;

pub use command_line::command;
pub use pa_task::{Exit, MOST_BYTES, Refusal, Rule, ScriptRule, UseFault};
pub use top::paclab;
