//! Objects of code, and what the machine is: its step and its runs as definitions.
#![tactic(auto)]

mod end;
mod flags;
mod object;
mod script;

pub use end::{End, Trap};
pub use flags::Flags;
pub use object::{
    Global, Globals, Mark, Marks, Object, Objects, Ref, RefKind, Refs, Slot, SlotValue, Slots,
};
pub use script::{Deed, Item, Items};
