//! A session on an open container: what is called between its tree and the desk.
#![tactic(auto)]

mod saying;
mod store;
#[cfg(test)]
mod tests;

pub use saying::say_piece;
pub use store::{begin_get_store, get_piece_store, list_store, mount_store};
