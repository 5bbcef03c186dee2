//! The hash tree of a partition: a byte of its contents is lent only where each hash over it holds.
#![tactic(auto)]

mod clear;
mod hashing;
mod laws;
mod levels;
mod marks;
mod path;
mod prepare;
mod put;
mod seal;
mod state;
mod view;

pub use laws::paths_come_to;
pub use state::IvfcState;
pub use view::{IvfcView, Status};

#[cfg(test)]
mod seal_tests;
#[cfg(test)]
mod tests;
#[cfg(test)]
mod write_tests;
