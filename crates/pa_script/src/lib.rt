//! Scripts: what a second writer does to data memory between the instructions of a run, as text.
#![tactic(auto)]

mod item;
mod number;
mod pieces;
mod reading;
mod rule;
mod script;
#[cfg(test)]
mod tests;

pub use pa_object::{Deed, Item, Items};
pub use reading::read_script;
pub use rule::ScriptRule;
pub use script::{Script, fits};
