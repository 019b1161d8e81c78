//! The memory of the guest: bytes by address, in regions with rights.
#![tactic(auto)]

mod access;
mod mapping;
mod space;

pub use access::{Abort, Rights, Size};
pub use mapping::Extent;
pub use space::{COPY_LIMIT, Space};
