//! What the names of a file of C mean at a place of it, and the rules of types.
#![tactic(auto)]

mod rule;
mod scope;
mod tags;

pub use rule::TypeRule;
pub use scope::Scope;
pub use tags::Tags;
