//! Reading a file's contents along its chain.
#![tactic(auto)]

mod begin;
mod piece;
mod reading;

pub use begin::begin_reading;
pub use chain_nodes::{ChainFault, ChainInfo};
pub use piece::read_piece;
pub use reading::Reading;

#[cfg(test)]
mod tests;
