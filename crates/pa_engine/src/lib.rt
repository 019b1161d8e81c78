//! All passes together, and the text that a run prints.
#![tactic(auto)]

mod fault;
mod image_run;
mod page;
mod reports;
#[cfg(test)]
mod tests;
mod text;

pub use fault::{EngineFault, Refusal, Rule};
pub use image_run::run_image;
pub use page::Page;
pub use reports::{Ran, report};
