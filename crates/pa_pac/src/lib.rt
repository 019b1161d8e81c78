//! Signing and authenticating of code pointers under any function for the authentication code, schemas and their modifiers,
//! and what a log says of it.
#![tactic(auto)]

mod event;
mod key;
mod pac;
mod schema;
mod signing;

pub use event::{Entry, Event, Way, When};
pub use key::Key;
pub use pac::{FoldPac, Pac, PacRow, PacRows, SipPac, TablePac, ZeroPac};
pub use schema::{Schema, blend, modifier};
pub use signing::{NotCanonical, auth, canonical, sign};
