//! The headers of Mach-O images: the header, its load commands, and where the parts of an image stand, read and written.
#![tactic(auto)]

mod commands;
mod header;
mod loader;
mod places;
mod reading;
mod writing;

pub use header::{Header, Role};
pub use places::{FRONT, Places};
pub use reading::read_header;
pub use writing::{header_fits, write_header};
