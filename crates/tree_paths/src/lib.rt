//! What stands at a path of a tree: its parent directory, and the directory and the file of its last name.
#![tactic(auto)]

mod children;
mod descent;

pub use children::has_children;
pub use descent::{Standing, find_path};
pub use entry_tables::{EntryFault, TableInfo};
pub use save_bytes::Path;

#[cfg(test)]
mod tests;
