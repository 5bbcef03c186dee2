//! A tree as a plain map: what it is, what it answers to each command, and the texts of its refusals.
#![tactic(auto)]

mod command;
mod kind;
mod laws;
mod listing;
mod reading;
mod refusal;

pub use command::{Command, Room, Target};
pub use kind::TreeKind;
pub use laws::{
    acknowledged_commits_add_up, lines_stand_for_one_command, numbers_are_as_printed,
    words_stand_for_one_target,
};
pub use listing::{Listing, Row};
pub use reading::read_number;
pub use refusal::{FsFault, Full, Refusal};

#[cfg(test)]
mod tests;
