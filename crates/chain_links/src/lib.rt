//! Writing the words of an allocation table: lists of nodes are linked and cut.
#![tactic(auto)]

mod links;
mod words;

pub use links::{give_back, take_front};
