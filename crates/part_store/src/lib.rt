//! A partition of an image: its hash tree over its double-copy tree.
#![tactic(auto)]

mod calls;
mod over;
mod part;
mod puts;
mod seal;
mod view;

pub use calls::lend;
pub use part::Part;
pub use view::PartView;

#[cfg(test)]
mod seal_tests;
#[cfg(test)]
mod tests;
