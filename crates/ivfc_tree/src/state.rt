//! What a hash tree keeps between its views.

ghost use Rattle.std.specs.Prelude.{◌≡◌, ℕ, ◌<◌, List, length, IfOk, None};
ghost use Rattle.save_bytes.specs.Cells.{Cell};
ghost use Rattle.difi.specs.Sound.{HasBlockSizes};
ghost use Rattle.ivfc_tree.specs.Levels.{IsLevel};
ghost use Rattle.ivfc_tree.specs.Marks.{mark_at, is_marked, level_marks, IsMadeFor, HasNoMarks, IsEmpty, MarksBlock};
ghost use Rattle.ivfc_tree.specs.Marks.{IsSet};
ghost use Rattle.ivfc_tree.specs.Known.{recalled_by, mark_for, CountsHash};
ghost use Rattle.ivfc_tree.specs.Paths.{IsStateOf, block_state};
ghost use Rattle.difi.specs.declared.descriptor.Difi.{Difi};
ghost use Rattle.ivfc_tree.specs.Origins.{IsAtOrigin};
ghost use Rattle.ivfc_tree.specs.Settles.{settled, dropped, TurnsMarks, SettlesHashed, RemembersOrigin};

use crate::marks::{BlockMark, Marks};
use crate::path::BlockState;
use difi::Difi;
use std::alloc::{AllocError, Global};

/// Which blocks of each level were put or cleared in the present transaction, what is remembered of the others, and how
/// many were hashed.
#[derive(Drop)]
pub struct IvfcState {
    marks: Marks,
    hashed: u64,
}

impl IvfcState {
    /// The state of a descriptor's tree in which nothing was put or cleared, and nothing is remembered.
    ///
    /// # Errors
    ///
    /// Where memory runs out.
    pub fn new(alloc: Global, difi: &Difi) -> Result<IvfcState, AllocError>
        requires { HasBlockSizes difi.now }
        ensures made { IfOk result (IsMadeFor difi.now) }
        ensures unmarked { IfOk result HasNoMarks }
        ensures origin { IfOk result IsAtOrigin }
        ensures empty { IfOk result IsEmpty }
        ensures none { IfOk result (λ state. state.hashed ≡ 0) }
        // A block is good exactly where it has a hash path. Where it has none, it is named by the topmost level that
        // fails, as never written exactly where the entry there is 32 zero bytes.
        ensures paths { IfOk result (λ state. (cells : ℕ → Cell) (master : List ℕ) (level block : ℕ)
            → IsStateOf cells master difi.now level block (block_state cells master difi.now state level block)) }
    {
        Ok(IvfcState {
            marks: Marks::new(alloc, difi)?,
            hashed: 0,
        })
    }

    /// Whether a block was put or cleared in the present transaction.
    pub(crate) fn is_marked(&self, level: u8, block: u64) -> bool
        ensures { result ≡ is_marked self.now level block }
    {
        matches!(self.marks.get(level, block), BlockMark::Put)
    }

    /// Notes that a block was put or cleared.
    pub(crate) fn mark(&mut self, level: u8, block: u64)
        requires level { IsLevel level }
        requires block { block < length (level_marks self.old.marks level) }
        ensures { MarksBlock level block self.old self.new }
    {
        self.marks.set(level, block, BlockMark::Put);
    }

    /// How many blocks were hashed since the state was made; it stays at its last value.
    pub fn hashed(&self) -> u64
        ensures { result ≡ self.now.hashed }
    {
        self.hashed
    }

    /// What is remembered of a block itself: one that was put or cleared counts as good.
    pub(crate) fn recall(&self, level: u8, block: u64) -> Option<BlockState>
        ensures { result ≡ recalled_by (mark_at self.now level block) level block None }
    {
        match self.marks.get(level, block) {
            BlockMark::Unknown => None,
            BlockMark::Put | BlockMark::KnownGood => Some(BlockState::Good),
            BlockMark::KnownBlank => Some(BlockState::Blank { level, block }),
            BlockMark::KnownBad => Some(BlockState::Bad { level, block }),
        }
    }

    /// Counts a block that is hashed.
    pub(crate) fn count(&mut self)
        ensures { CountsHash self.old self.new }
    {
        self.hashed = self.hashed.saturating_add(1);
    }

    /// Notes what a block's path comes to, where it is the block itself that tells.
    pub(crate) fn note(&mut self, level: u8, block: u64, found: BlockState)
        requires level { IsLevel level }
        requires block { block < length (level_marks self.old.marks level) }
        ensures set { IsSet level block (mark_for found) self.old.marks self.new.marks }
        ensures hashed { self.new.hashed ≡ self.old.hashed }
    {
        let mark = match found {
            BlockState::Good => BlockMark::KnownGood,
            BlockState::Blank { .. } => BlockMark::KnownBlank,
            BlockState::Bad { .. } => BlockMark::KnownBad,
        };
        self.marks.set(level, block, mark);
    }
}

impl IvfcState {
    /// Ends a transaction that was sealed: the blocks that were put or cleared in it are good from then on by their
    /// hashes, and known to be so. No cell of a view changes where these hashes hold.
    pub fn settle(&mut self)
        ensures turned { TurnsMarks settled self.old self.new }
        ensures made { (difi : Difi) → IsMadeFor difi self.old → IsMadeFor difi self.new }
        ensures unmarked { HasNoMarks self.new }
        ensures origin { IsAtOrigin self.new }
        ensures settles { SettlesHashed self.old self.new }
    {
        self.marks.end(true);
    }

    /// Ends a transaction whose changes are dropped: the blocks that were put or cleared in it are not known any more.
    /// What is still remembered is true of the base as it was before them, whatever is now in those of level four.
    pub fn drop_changes(&mut self)
        ensures turned { TurnsMarks dropped self.old self.new }
        ensures made { (difi : Difi) → IsMadeFor difi self.old → IsMadeFor difi self.new }
        ensures unmarked { HasNoMarks self.new }
        ensures origin { IsAtOrigin self.new }
        ensures paths { (cells : ℕ → Cell) (master : List ℕ) (difi : Difi) (level block : ℕ)
            → IsStateOf cells master difi level block (block_state cells master difi self.new level block) }
        ensures remembers { RemembersOrigin self.old self.new }
    {
        self.marks.end(false);
    }
}
