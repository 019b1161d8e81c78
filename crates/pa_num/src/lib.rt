//! What every layer shares: lists that contracts see as lists, out of memory, the shape of a refusal, bits and fields.
#![tactic(auto)]

mod bit_fields;
mod fault;
mod sequence;

pub use bit_fields::{Field, sext, trunc};
pub use fault::{Fault, ImageRule, Memory};
pub use sequence::{Bytes, Name, Names, Sequence, Words};
