//! Flat code of typed trees. Definitions stand in `specs/`.
#![tactic(auto)]

mod code;
mod operations;
mod room;
mod source;
mod ways;
