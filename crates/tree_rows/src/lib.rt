//! The rows of a tree, from its tables as they were read.
#![tactic(auto)]

mod paths;
mod rows;

pub use entry_audit::ReadTables;
pub use rows::rows_of;
pub use tree_model::{Row, TreeKind};

#[cfg(test)]
mod tests;
