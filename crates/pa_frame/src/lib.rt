//! Where the locals and temporaries of a function in flat code lie in its stack frame.
#![tactic(auto)]

mod layout;
mod slots;
#[cfg(test)]
mod tests;

pub use layout::frame;
pub use slots::{Frame, Slots};
