//! What the rules of expressions, specifiers and declarators of C stand on: readers of their parts, and trees with their heights.
#![tactic(auto)]

mod at;
mod measured;
mod parts;
mod readers;

pub use at::At;
pub use measured::Measured;
pub use parts::Parts;
pub use readers::Readers;
