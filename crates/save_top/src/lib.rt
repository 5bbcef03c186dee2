//! The program over any desk and any signer.
#![tactic(auto)]

mod block;
mod failure;
mod form;
mod laws;
mod peek;
#[cfg(test)]
mod tests;
mod text;
#[cfg(test)]
mod text_tests;
mod top;
mod words;

pub use form::{Act, Order};
pub use laws::a_lone_reply_is_the_one_said;
pub use top::{DISK_FAULT, DONE, NO_MEMORY, REFUSED, SINK_FAULT, SOURCE_FAULT, USAGE, run};
pub use words::order;
