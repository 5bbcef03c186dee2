//! Whether the tables of directories and files and their buckets are as they should be, as a whole: all used entries
//! are read once, and each rule is tried on what was read.
#![tactic(auto)]

mod listed;
mod names;
mod owned;
mod placed;
mod read;
mod rules;
mod table;

pub use entry_tables::{Counts, EntryFault, EntryKind, TableInfo};
pub use names::{name_fault, named_of};
pub use placed::{entry_of, place_fault};
pub use read::read_tables;
pub use rules::rule_fault;
pub use table::{ReadEntry, ReadTable, ReadTables, RuleFault, TableFault};

#[cfg(test)]
mod listed_tests;
#[cfg(test)]
mod owned_tests;
#[cfg(test)]
mod read_tests;
