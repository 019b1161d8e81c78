//! The ordinary names of the open blocks of a file of C, by number.
#![tactic(auto)]

mod declarations;
mod meant;

pub use declarations::Declarations;
pub use meant::Meant;
