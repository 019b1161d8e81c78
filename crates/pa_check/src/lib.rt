//! Which images keep their control flow whatever is written to their memory: one pass over the code, without memory.
#![tactic(auto)]

mod checker;
mod inside;
mod marks;
mod pass;
mod rows;
mod rule;
mod rules;
mod slots;
mod text;
mod window;
mod word;

pub use checker::check;
pub use rule::{CheckRule, Flaw, Verdict};
pub use window::{Opening, Window};
pub use word::Word;
