//! Sample images, for tests alone: 64 data blocks for contents, and room for 8 directories and 8 files. They are new,
//! or hold one file.
//!
//! They are written place by place from the format, apart from whatever makes images for use, so that tests can
//! compare the two.
#![tactic(auto)]

mod changes;
mod descriptors;
mod fields;
mod filesystem;
mod headers;
mod holes;
mod images;
mod partition;
mod trees;
mod which;

pub use changes::{change, change_table};
pub use descriptors::{EXTERNAL_DIFI, LONE_DIFI, LONG_DIFI};
pub use fields::put_digest;
pub use holes::{Hole, HoleSpace};
pub use images::sample;
pub use which::Sample;

#[cfg(test)]
mod change_tests;
#[cfg(test)]
mod hole_tests;
#[cfg(test)]
mod tests;
