//! The image of a disk as a space of bytes.
#![tactic(auto)]

mod fetching;
mod heading;
mod image;
mod laws;
mod opening;
mod putting;
mod state;
mod writing;

pub use image::Image;
pub use laws::{few_pages_differ, front_stays_stored, quiet_calls, writes_of_calls};
pub use state::{ImageFault, ImageState};

#[cfg(test)]
mod longest_tests;
#[cfg(test)]
mod tests;
