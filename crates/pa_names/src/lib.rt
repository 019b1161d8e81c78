//! Keys of hash tables that are taken from the text whose names the tables keep.
#![tactic(auto)]

mod key;

pub use key::{TextDigest, TextKey};
