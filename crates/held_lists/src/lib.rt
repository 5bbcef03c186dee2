//! Lists of allocation entries that are walked under a set of those that were met, so that no entry is taken for two.
#![tactic(auto)]

mod set;
mod walk;

pub use chain_nodes::{ChainFault, ChainInfo, Lead};
pub use set::EntrySet;
pub use walk::{HoldFault, hold_blocks, hold_list};
