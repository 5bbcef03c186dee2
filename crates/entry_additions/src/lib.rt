//! What changes in tables and buckets when an entry is added to them, and adding one.
#![tactic(auto)]

mod add;
mod entry;
mod image;
mod plan;
mod put;

pub use add::{add_in, ready_add_in};
pub use entry::NewEntry;
