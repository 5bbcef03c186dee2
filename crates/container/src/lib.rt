//! An open image: its header, its parts, and a store of the cells of their level fours.
#![tactic(auto)]

mod abort;
mod copying;
mod facts;
mod fault;
mod front;
mod laws;
mod open;
mod over;
mod parts;
mod reading;
mod store;
mod table;
mod within;
mod writing;

pub use fault::OpenFault;
pub use laws::{
    an_opened_container_is_at_its_origin, opens_exactly_where_no_fault_is_found,
    spared_copies_are_held, spared_copies_are_the_origin, what_is_put_spares_the_chosen_copies,
    what_was_only_read_stays_open, what_was_written_stays_whole,
};
pub use open::Container;
pub use store::Store;

#[cfg(test)]
mod abort_tests;
#[cfg(test)]
mod copy_tests;
#[cfg(test)]
mod opens_tests;
#[cfg(test)]
mod store_tests;
#[cfg(test)]
mod tests;
#[cfg(test)]
mod write_tests;
