//! The nodes of an allocation table's lists: what they are, and walks over them.
#![tactic(auto)]

mod fault;
mod info;
mod node;
mod shared;
mod walk;

pub use fault::ChainFault;
pub use info::{ChainInfo, Run};
pub use node::{Entry, FLAG, Lead, Link, Node, read_entry, read_node};
pub use walk::{Cursor, advance, list_len, seek};

#[cfg(test)]
mod tests;
