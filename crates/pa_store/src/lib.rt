//! Values, places and objects of a program that is run, of which only cells with a value are kept.
#![tactic(auto)]

mod comparisons;
mod finding;
mod objects;
mod operations;
mod pointers;
mod steps;
mod store;
mod value;

pub use comparisons::compared;
pub use finding::{Scalar, find_cell};
pub use objects::Object;
pub use operations::{binary, converted, of_truth, truth, unary};
pub use pointers::{difference, is_same_owner, ordered, place_of};
pub use steps::{moved, opposite, stepped};
pub use store::Objects;
pub use value::{Owner, Place, Value};
