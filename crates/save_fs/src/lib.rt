//! A mounted SAVE: what stands in it, and the bytes of its files.
#![tactic(auto)]

mod fault;
mod getting;
mod laws;
mod listing;
mod lookup;
mod mounted;

pub use getting::Getting;
pub use laws::a_mount_stays_over_the_same_cells;
pub use mounted::SaveFs;
pub use save_mount::MountFault;
pub use tree_model::{FsFault, Listing, Refusal, Room};

#[cfg(test)]
mod failing_tests;
#[cfg(test)]
mod tests;
