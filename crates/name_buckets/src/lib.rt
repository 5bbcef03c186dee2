//! Directories as sets of named entries, which are found through buckets of their names.
#![tactic(auto)]

mod find;
mod free;
mod view;

pub use entry_tables::{Counts, EntryFault, EntryKind, FileFields, TableInfo, bucket};
pub use view::Entries;

#[cfg(test)]
mod add_tests;
#[cfg(test)]
mod map_tests;
#[cfg(test)]
mod tests;
