//! Chained fixups of pointer format 1: slots, chains and the fixups' tables, read and written.
#![tactic(auto)]

mod bounds;
mod chain;
mod fixups;
mod imports;
mod kind;
mod slot;
mod tables;
mod write;

pub use bounds::Bounds;
pub use chain::read_chain;
pub use fixups::{imports_fit, put_fixups, read_fixups, write_fixups};
pub use kind::{Fix, FixKind, Fixes, Sig};
pub use slot::{read_slot, write_slot};
pub use tables::{DataAt, Fixups, Starts};
pub use write::{erase_slots, write_chain};
