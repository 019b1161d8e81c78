//! What the instructions make of numbers of 64 bits, and the condition flags: no state, no memory.
#![tactic(auto)]

mod arithmetic;
mod flags;
#[cfg(test)]
mod tests;

pub use arithmetic::{
    bitfield, immediate, immediate_sum, logical, moved, multiplied, quotient, scaled, shifted_by,
};
pub use flags::{flags_of_difference, meets};
