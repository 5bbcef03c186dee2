//! What is said at a desk: texts, and the rows of a tree.
#![tactic(auto)]

mod rows;
#[cfg(test)]
mod tests;
mod voice;

pub use rows::say_rows;
pub use voice::say_all;
