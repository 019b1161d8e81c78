//! The slots of an image's `__DATA` over all its pages, and the bytes of its sections without them, read and written.
#![tactic(auto)]

mod reading;
mod slots;
mod writing;

pub use reading::read_slots;
pub use slots::{PAGE, Slots, SlotsAt};
pub use writing::{Written, slots_fit, write_slots};
