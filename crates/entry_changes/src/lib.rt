//! What changes in tables and buckets when an entry is taken out of them: the lists that name it, and the laws of it.
#![tactic(auto)]

mod change;
mod list;
mod words;

pub use change::{ready_remove_in, removal, remove_in};
pub use list::{EntryList, word_before};
pub use words::{EntryWords, read_entry};

#[cfg(test)]
mod tests;
