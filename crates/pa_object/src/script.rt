//! What the second writer does to data memory while the program runs.

use pa_num::{Bytes, Sequence};

/// One thing that the second writer does.
#[derive(Debug, Drop)]
pub enum Deed {
    /// The bytes are written from the address on.
    Write { at: u64, bytes: Bytes },
    /// `count` bytes are read from one address on, and then written from another on.
    Copy { to: u64, from: u64, count: u32 },
}

/// A deed, and the number of the instruction before which it comes.
#[derive(Debug, Drop)]
pub struct Item {
    pub step: u32,
    pub deed: Deed,
}

/// Items in their order.
pub type Items = Sequence<Item>;
