//! Headers of DISA and DIFF images.
#![tactic(auto)]

mod fault;
mod header;
pub mod laws;
mod layout;
mod reading;
mod sector;

pub use fault::HeaderFault;
pub use header::{Header, Kind};
pub use save_bytes::Extent;

#[cfg(test)]
mod tests;
