//! Descriptors of a partition's levels: where its two copies of each level of the double-copy tree
//! lie, and where the levels of its hash tree lie in them.
#![tactic(auto)]

mod conditions;
mod descriptor;
mod fault;
mod fields;
mod places;

pub use descriptor::Difi;
pub use fault::DifiFault;
pub use places::LevelPlace;
pub use save_bytes::Extent as Extent2;

#[cfg(test)]
mod tests;
