//! Whole images, as data and as bytes, read and written.
#![tactic(auto)]

mod extent;
mod image;
mod parts;
mod reading;
mod sizes;
mod writing;

pub use extent::{is_small, places};
pub use image::Image;
pub use reading::read_image;
pub use writing::{legal, write_image};
