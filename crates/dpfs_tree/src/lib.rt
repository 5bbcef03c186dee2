//! The double-copy tree of a partition: of each level there are two copies, and bits choose which one counts.
#![tactic(auto)]

mod bits;
mod blocks;
mod copy;
mod places;
mod seal;
mod state;
mod turns;
mod view;
mod write;

pub use state::DpfsState;
pub use view::DpfsView;

#[cfg(test)]
mod tests;
