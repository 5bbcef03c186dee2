//! The tables of directories and files and their buckets: what they hold, the rules of both, and reading them.
#![tactic(auto)]

mod fields;
mod hash;
mod reads;
mod table;
mod word;

pub use fields::{counts_in, fields_in, head_in, link_in, name_in, word_in};
pub use hash::bucket;
pub use reads::{Counts, entry_at, entry_bytes, entry_word, read_counts};
pub use table::{EntryFault, EntryKind, FileFields, TableInfo};
pub use word::{Edit, Word, info_for, read_word, ready_word, set_fields_in, set_word, set_words};

#[cfg(test)]
mod tests;
