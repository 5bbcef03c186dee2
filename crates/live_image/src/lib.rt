//! What an open image stands on: its live places, and the sectors that a transaction may write.
#![tactic(auto)]

mod footprint;
mod laws;
mod stops;

pub use footprint::{
    a_commit_writes_where_it_may, a_put_writes_where_it_may, a_seal_writes_where_it_may,
    more_blocks_widen_the_footprint, places_that_may_be_written_are_in_the_footprint,
    what_may_be_written_is_not_live,
};
pub use laws::{
    containers_stay, contents_stay, external_blocks_stay, header_and_parts_stay,
    internal_level_four_stays, live_places_stay, opening_stays,
};
pub use stops::{a_commit_leaves_a_live_image, a_stop_leaves_a_live_image};

#[cfg(test)]
mod footprint_tests;
#[cfg(test)]
mod live_tests;
#[cfg(test)]
mod stop_tests;
