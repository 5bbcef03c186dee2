//! Mounting a filesystem: each of its rules is checked, and what is found is kept.
#![tactic(auto)]

mod audit;
mod beginning;
mod fault;
mod files;
mod laws;
mod lists;
mod mounting;
mod places;
mod structure;
mod tables;

pub use audit::{audit_tables, read_stored};
pub use beginning::{Begun, begin};
pub use fault::MountFault;
pub use files::hold_files;
pub use laws::a_held_tree_is_no_cause_of_refusal;
pub use lists::{FileFault, hold_file, hold_free, hold_table};
pub use mounting::{Mounted, mount};
pub use structure::Structure;
pub use tables::{Audited, table_infos};

#[cfg(test)]
mod files_tests;
#[cfg(test)]
mod mount_tests;
