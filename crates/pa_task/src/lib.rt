//! What a run is to do, read from a shelf and a source part by part, and the answers of a command.
#![tactic(auto)]

mod exit;
mod reading;
mod task;

pub use exit::{Exit, MOST_BYTES, Refusal, Rule};
pub use pa_script::ScriptRule;
pub use pa_words::UseFault;
pub use task::{Task, read_task};
