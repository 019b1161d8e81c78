//! Programs of several files. Definitions stand in `specs/`.
#![tactic(auto)]

mod declarations;
mod declared;
mod definitions;
mod known;
mod limits;
mod linked;
mod missing;
mod names;
mod numbered_expr;
mod numbered_stmt;
mod numbering;
mod parts;
mod rule;
mod uses;
mod whole;

pub use rule::{JoinFault, LinkFault, LinkRule};
