//! What lies outside: a disk that keeps sectors, a desk that is heard and spoken to, and signers of headers.
#![tactic(auto)]

mod calls;
mod disk;
mod file;
mod laws;
mod memory;
mod signer;
#[cfg(test)]
mod stop_tests;
#[cfg(test)]
mod tests;
mod trace;
mod window;

pub use calls::Call;
pub use disk::{Desk, Disk, Failed};
pub use file::FileDesk;
pub use laws::{
    a_commit_keeps_the_new_image, a_commit_leaves_old_or_new, a_commit_on_a_disk_leaves_old_or_new,
    a_stop_leaves_kept_places, a_sync_keeps_all, events_up_to_a_sync_stay, leaves_one_write_whole,
    leaves_start, leaves_synced, more_events_keep, writes_keep_the_length,
    writes_that_hold_are_safe,
};
pub use memory::MemDesk;
pub use signer::{PlainSigner, Signer, ZeroSigner};
