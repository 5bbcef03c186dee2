//! What a double-copy tree keeps between its views.

ghost use Rattle.std.specs.Prelude.{◌≡◌, ℕ, ◌<◌, length, IfOk};
ghost use Rattle.std.specs.Int.{div_ceil};
ghost use Rattle.difi.specs.Sound.{HasBlockSizes};
ghost use Rattle.difi.specs.declared.descriptor.Difi.{Difi};
ghost use Rattle.dpfs_tree.specs.Picks.{chosen};
ghost use Rattle.difi.specs.Contents.{view_size};
ghost use Rattle.dpfs_tree.specs.Marks.{is_marked, some_marked, place_of, IsFreshContents};
ghost use Rattle.dpfs_tree.specs.Puts.{IsMarked, IsSettled};
ghost use Rattle.dpfs_tree.specs.Seals.{has_mark};

use difi::Difi;
use std::alloc::{AllocError, Global};

/// Which copy of level 1 is chosen, and which blocks of level 3 are touched: those are read from the copy that
/// is not chosen.
#[derive(Drop)]
pub struct DpfsState {
    selector: u8,
    touched: Vec<bool>,
}

impl DpfsState {
    /// The state of a descriptor's tree in which no block is touched.
    ///
    /// # Errors
    ///
    /// Where memory runs out.
    pub fn new(alloc: Global, difi: &Difi) -> Result<DpfsState, AllocError>
        requires { HasBlockSizes difi.now }
        ensures fresh { IfOk result (IsFreshContents difi.now) }
        // The view that it gives has the chosen bytes of level 3, then those of external level four.
        ensures chosen { IfOk result (λ state. (bytes : ℕ → ℕ) (part_at x : ℕ) → x < view_size difi.now
            → bytes (place_of bytes part_at difi.now state x) ≡ chosen bytes part_at difi.now difi.now.selector x) }
    {
        let blocks = difi.dpfs3.size.div_ceil(1 << difi.dpfs3.log);
        let touched = vec![in alloc; false; blocks as usize]?;
        Ok(DpfsState {
            selector: difi.selector,
            touched,
        })
    }

    /// Whether a block of level 3 is touched; one past the last is not.
    pub fn touched(&self, block: u64) -> bool
        ensures { result ≡ is_marked self.now.touched.items block }
    {
        self.touched.get(block as usize).copied().unwrap_or(false)
    }

    /// Whether one of `n` blocks of level 3 from one on is touched.
    fn some_touched(&self, from: u64, n: u64) -> bool
        ensures { result ≡ some_marked (is_marked self.now.touched.items) from n }
    {
        let end = from.saturating_add(n).min(self.touched.len() as u64);
        for block in from..end {
            if self.touched(block) {
                return true;
            }
        }
        false
    }

    /// Whether a block of level 2, of so many bits, has that of a touched block.
    pub(crate) fn has_mark(&self, bits: u64, block: u64) -> bool
        ensures { result ≡ has_mark bits self.now block }
    {
        self.some_touched(bits.saturating_mul(block), bits)
    }

    /// How many 32-bit words have a bit for each block of level 3.
    pub(crate) fn words(&self) -> u64
        ensures { result ≡ div_ceil (length self.now.touched.items) 32 }
    {
        (self.touched.len() as u64).div_ceil(32)
    }

    /// Takes the selector that a seal answered, and clears each mark: so the view has the bytes that it chooses.
    pub fn settle(&mut self, selector: u8)
        requires { selector < 2 }
        ensures settled { IsSettled selector self.old self.new }
        ensures chosen { (bytes : ℕ → ℕ) (part_at x : ℕ) (difi : Difi)
            → bytes (place_of bytes part_at difi self.new x) ≡ chosen bytes part_at difi selector x }
    {
        self.clear(selector);
    }

    /// Clears each mark: so the view has the bytes that it had before the first put.
    pub fn drop_changes(&mut self)
        ensures settled { IsSettled self.old.selector self.old self.new }
        ensures chosen { (bytes : ℕ → ℕ) (part_at x : ℕ) (difi : Difi)
            → bytes (place_of bytes part_at difi self.new x) ≡ chosen bytes part_at difi self.old.selector x }
    {
        self.clear(self.selector);
    }

    fn clear(&mut self, selector: u8)
        ensures { IsSettled selector self.old self.new }
    {
        self.selector = selector;
        self.touched.fill(false);
    }

    pub(crate) fn selector(&self) -> u8
        ensures { result ≡ self.now.selector }
    {
        self.selector
    }

    pub(crate) fn mark(&mut self, block: u64)
        requires { block < length self.old.touched.items }
        ensures { IsMarked block self.old self.new }
    {
        self.touched[block as usize] = true;
    }
}
