//! The image of a program of the first form, and what its run shows.
#![tactic(auto)]

mod code;
mod image;
mod loading;
#[cfg(test)]
mod tests;

pub use image::program_image;
pub use loading::load_program;
