//! Chains of data blocks: an allocation table links runs of them, in both directions.
#![tactic(auto)]

mod chain;
mod lists;
mod plan;
mod plan_places;
mod plan_runs;
mod swap;

pub use chain::Chain;
pub use chain_nodes::{ChainFault, ChainInfo, Cursor, Run};
pub use chain_space::ChainSpace;
pub use plan_places::PlanCursor;

#[cfg(test)]
mod counted;
#[cfg(test)]
mod hole_tests;
#[cfg(test)]
mod random_tests;
#[cfg(test)]
mod swap_tests;
#[cfg(test)]
mod tests;
