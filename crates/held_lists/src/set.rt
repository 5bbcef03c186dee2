//! A set of allocation entries.

ghost use Rattle.std.specs.Prelude.{◌≡◌, ◌≢◌, ℕ, ◌+◌, ◌^◌, ◌<◌, true, false, IfOk, IfNone, IfSome};
ghost use Rattle.held_lists.specs.Sets.{has_entry, HasRoomFor, TakesRun, IsInRun};

use std::alloc::{AllocError, Global};

/// Entries from 0 up to a bound, one bit for each.
#[derive(Debug, Drop)]
pub struct EntrySet {
    words: Vec<u64>,
}

impl EntrySet {
    /// The set of none of the entries from 0 up to `count`.
    pub fn new(alloc: Global, count: u32) -> Result<EntrySet, AllocError>
        ensures none { IfOk result (λ set. (entry : ℕ) → has_entry set entry ≡ false) }
        ensures room { IfOk result (λ set. HasRoomFor set count) }
    {
        let len = count as usize / 64 + 1;
        Ok(EntrySet {
            words: vec![in alloc; 0; len]?,
        })
    }

    /// Whether an entry is one of them.
    pub fn has(&self, entry: u32) -> bool
        requires { HasRoomFor self.now entry }
        ensures { result ≡ has_entry self.now entry }
    {
        (self.words[entry as usize / 64] >> (entry % 64)) & 1 == 1
    }

    /// Takes an entry in.
    pub fn insert(&mut self, entry: u32)
        requires { HasRoomFor self.old entry }
        ensures inserted { has_entry self.new entry ≡ true }
        ensures others { (other : ℕ) → other ≢ entry → has_entry self.new other ≡ has_entry self.old other }
        ensures room { (count : ℕ) → HasRoomFor self.old count → HasRoomFor self.new count }
    {
        let place = entry as usize / 64;
        self.words[place] = self.words[place] | 1 << (entry % 64);
    }
}

/// Takes the entries of a run in, none of which may be in the set: else it names the first that is.
pub(crate) fn take_run(held: &mut EntrySet, first: u32, len: u32) -> Option<u32>
    requires small { first + len < 2 ^ 32 }
    requires room { (entry : ℕ) → IsInRun first len entry → HasRoomFor held.old entry }
    ensures taken { IfNone result (TakesRun held.old held.new first len) }
    ensures met { IfSome result (λ entry. IsInRun first len entry) }
    ensures held { IfSome result (λ entry. has_entry held.old entry ≡ true) }
    ensures room { (count : ℕ) → HasRoomFor held.old count → HasRoomFor held.new count }
{
    for entry in first..first + len {
        if held.has(entry) {
            return Some(entry);
        }
        held.insert(entry);
    }
    None
}
