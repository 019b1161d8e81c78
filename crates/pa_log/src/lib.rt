//! The log of pointer authentication: signatures, accepted authentications with the mark whether they are known, and
//! indirect branches.
#![tactic(auto)]

mod log;
mod signing;

pub use log::Log;
pub use pa_pac::{Entry, Event, Way, When};
