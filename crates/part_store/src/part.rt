//! What a partition keeps between its views.

ghost use Rattle.std.specs.Prelude.{◌≡◌, ℕ, ◌<◌, List, IfOk};
ghost use Rattle.save_bytes.specs.Cells.{Cell};
ghost use Rattle.difi.specs.Contents.{view_size};
ghost use Rattle.difi.specs.Sound.{HasBlockSizes};
ghost use Rattle.dpfs_tree.specs.Picks.{chosen};
ghost use Rattle.save_bytes.specs.State.{Shape};
ghost use Rattle.dpfs_tree.specs.Marks.{place_of, IsMadeForContents, IsFreshContents};
ghost use Rattle.ivfc_tree.specs.Marks.{IsMadeFor, HasNoMarks};
ghost use Rattle.ivfc_tree.specs.Origins.{IsAtOrigin};
ghost use Rattle.ivfc_tree.specs.Paths.{IsStateOf, block_state};
ghost use Rattle.ivfc_tree.specs.Settles.{settled, dropped, TurnsMarks, SettlesHashed, RemembersOrigin};

use difi::Difi;
use dpfs_tree::DpfsState;
use ivfc_tree::IvfcState;
use std::alloc::{AllocError, Global};

/// A partition's number, its place in the image, its descriptor, and what a transaction changed in its two trees.
#[derive(Drop)]
pub struct Part {
    pub(crate) number: u8,
    pub(crate) at: u64,
    pub(crate) difi: Difi,
    pub(crate) dpfs: DpfsState,
    pub(crate) ivfc: IvfcState,
}

impl Part {
    ghost use Rattle.part_store.specs.Ends.{EndsPart, HasNoChanges, TellsSettled, TellsOrigin};
    ghost use Rattle.part_store.specs.Parts.{CanViewPart, HasNoMemory};

    /// The partition that begins at `part_at` in the image, with nothing changed.
    ///
    /// # Errors
    ///
    /// Where memory runs out.
    pub fn open(alloc: Global, number: u8, part_at: u64, difi: &Difi) -> Result<Part, AllocError>
        requires { HasBlockSizes difi.now }
        ensures number { IfOk result (λ part. part.number ≡ number) }
        ensures place { IfOk result (λ part. part.at ≡ part_at) }
        ensures descriptor { IfOk result (λ part. part.difi ≡ difi.now) }
        ensures untouched { IfOk result (λ part. IsFreshContents difi.now part.dpfs) }
        ensures made { IfOk result (λ part. IsMadeFor difi.now part.ivfc) }
        ensures unmarked { IfOk result (λ part. HasNoMarks part.ivfc) }
        // The contents are the chosen bytes of level 3, then those of external level four.
        ensures chosen { IfOk result (λ part. (bytes : ℕ → ℕ) (x : ℕ) → x < view_size difi.now
            → bytes (place_of bytes part_at difi.now part.dpfs x) ≡ chosen bytes part_at difi.now difi.now.selector x) }
        // A block is good exactly where it has a hash path, and is otherwise named by the topmost level that fails.
        ensures paths { IfOk result (λ part. (cells : ℕ → Cell) (master : List ℕ) (level block : ℕ)
            → IsStateOf cells master difi.now level block (block_state cells master difi.now part.ivfc level block)) }
        ensures told { IfOk result HasNoMemory }
        ensures origin { IfOk result (λ part. IsAtOrigin part.ivfc) }
    {
        Ok(Part {
            number,
            at: part_at,
            difi: *difi,
            dpfs: DpfsState::new(alloc, difi)?,
            ivfc: IvfcState::new(alloc, difi)?,
        })
    }

    /// Ends a transaction that was committed: the part takes the selector that its seal answered. A block that was put or
    /// cleared is known to be good by its hashes.
    pub fn settle(&mut self, selector: u8)
        requires { selector < 2 }
        ensures ends { EndsPart selector self.old self.new }
        ensures descriptor { self.new.difi ≡ record self.old.difi { selector = selector } }
        ensures fresh { IsMadeForContents self.old.difi self.old.dpfs → IsFreshContents self.new.difi self.new.dpfs }
        ensures view { (base : Shape) (table_len : ℕ) → CanViewPart base self.old table_len → CanViewPart base self.new table_len }
        ensures unchanged { HasNoChanges self.new }
        ensures turned { TurnsMarks settled self.old.ivfc self.new.ivfc }
        ensures settles { SettlesHashed self.old.ivfc self.new.ivfc }
        ensures tells { TellsSettled selector self.old self.new }
    {
        self.difi.selector = selector;
        self.dpfs.settle(selector);
        self.ivfc.settle();
    }

    /// Ends a transaction whose changes are dropped: so the part is as it was before the first put. A block that was put or
    /// cleared is not known any more.
    pub fn drop_changes(&mut self)
        ensures ends { EndsPart self.old.dpfs.selector self.old self.new }
        ensures descriptor { self.new.difi ≡ self.old.difi }
        ensures fresh { IsMadeForContents self.old.difi self.old.dpfs → self.old.dpfs.selector ≡ self.old.difi.selector
            → IsFreshContents self.new.difi self.new.dpfs }
        ensures view { (base : Shape) (table_len : ℕ) → CanViewPart base self.old table_len → CanViewPart base self.new table_len }
        ensures unchanged { HasNoChanges self.new }
        ensures turned { TurnsMarks dropped self.old.ivfc self.new.ivfc }
        ensures remembers { RemembersOrigin self.old.ivfc self.new.ivfc }
        ensures tells { TellsOrigin self.old self.new }
    {
        self.dpfs.drop_changes();
        self.ivfc.drop_changes();
    }

    /// The partition's descriptor.
    pub fn difi(&self) -> &Difi
        ensures { result.now ≡ self.now.difi }
    {
        &self.difi
    }
}
