//! Images in memory: a program loaded beside its runtime image, its slots filled and signed.
#![tactic(auto)]

mod exports;
mod filling;
mod loading;
mod rule;
mod segments;

pub use loading::load;
pub use pa_processor::Loaded;
pub use rule::LoadRule;
