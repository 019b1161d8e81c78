//! Numbers of C's integer types (C11 6.2.6.2), their conversions and their arithmetic.
#![tactic(auto)]

mod conversion;
mod operators;

pub use conversion::{of_bits, residue, wrapped};
pub use operators::{arithmetic, compares, complemented, negated};
