//! A space that shows the blocks of a chain once more behind its base.
#![tactic(auto)]

mod behind;
mod laid;
mod space;

pub use behind::ChainSpace;
pub use laid::BlocksSpace;

#[cfg(test)]
mod tests;
