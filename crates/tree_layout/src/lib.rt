//! Where a filesystem lies in its store, and which condition on that fails first.
#![tactic(auto)]

mod faults;
mod reading;

pub use faults::{front_len, place_fault, places_of, table_fault};
pub use reading::{read_header, read_information};

#[cfg(test)]
mod tests;
