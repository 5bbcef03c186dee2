//! What is kept of the blocks of a hash tree.

ghost use Rattle.std.specs.Prelude.{◌≡◌, ℕ, ◌≤◌, ◌<◌, List, map, replicate, length, IfOk};
ghost use Rattle.difi.specs.Places.{blocks_of};
ghost use Rattle.difi.specs.Sound.{HasBlockSizes};
ghost use Rattle.ivfc_tree.specs.Levels.{IsLevel};
ghost use Rattle.ivfc_tree.specs.Marks.{mark_in, level_marks, AreNew, IsSet};
ghost use Rattle.ivfc_tree.specs.Settles.{settled, dropped, ended};

use difi::{Difi, LevelPlace};
use std::alloc::{AllocError, Global};

/// What is kept of a block.
#[derive(Clone, Copy, Debug, PartialEq, Eq)]
pub(crate) enum BlockMark {
    /// Nothing.
    Unknown,
    /// It was put or cleared in the present transaction.
    Put,
    /// Its path holds.
    KnownGood,
    /// The path above it holds, and its entry is 32 zero bytes.
    KnownBlank,
    /// The path above it holds, and its entry is another digest than its own.
    KnownBad,
}

/// What is kept of the blocks of each level.
#[derive(Drop)]
pub(crate) struct Marks {
    level1: Vec<BlockMark>,
    level2: Vec<BlockMark>,
    level3: Vec<BlockMark>,
    level4: Vec<BlockMark>,
}

// A mark for each block of a level.
fn no_marks(alloc: Global, level: &LevelPlace) -> Result<Vec<BlockMark>, AllocError>
    requires { level.now.log ≤ 16 }
    ensures { IfOk result (λ marks. marks.items ≡ replicate (blocks_of level.now) BlockMark.Unknown) }
{
    let blocks = level.size.div_ceil(1 << level.log);
    vec![in alloc; BlockMark::Unknown; blocks as usize]
}

impl Marks {
    /// The marks of a descriptor's tree, of which nothing is kept.
    pub(crate) fn new(alloc: Global, difi: &Difi) -> Result<Marks, AllocError>
        requires { HasBlockSizes difi.now }
        ensures { IfOk result (AreNew difi.now) }
    {
        Ok(Marks {
            level1: no_marks(alloc, &difi.ivfc1)?,
            level2: no_marks(alloc, &difi.ivfc2)?,
            level3: no_marks(alloc, &difi.ivfc3)?,
            level4: no_marks(alloc, &difi.ivfc4)?,
        })
    }

    /// What is kept of a block; of one that is none it is nothing.
    #[tactic(auto, unfolding(crate::specs::Marks::mark_in))]
    pub(crate) fn get(&self, level: u8, block: u64) -> BlockMark
        ensures { result ≡ mark_in self.now level block }
    {
        let marks = match level {
            1 => &self.level1,
            2 => &self.level2,
            3 => &self.level3,
            4 => &self.level4,
            _ => return BlockMark::Unknown,
        };
        marks
            .get(block as usize)
            .copied()
            .unwrap_or(BlockMark::Unknown)
    }

    /// Keeps this of a block.
    pub(crate) fn set(&mut self, level: u8, block: u64, mark: BlockMark)
        requires level { IsLevel level }
        requires block { block < length (level_marks self.old level) }
        ensures { IsSet level block mark self.old self.new }
    {
        match level {
            1 => self.level1[block as usize] = mark,
            2 => self.level2[block as usize] = mark,
            3 => self.level3[block as usize] = mark,
            _ => self.level4[block as usize] = mark,
        }
    }
}

impl BlockMark {
    // What becomes of it where the transaction is committed.
    fn settled(self) -> BlockMark
        ensures { result ≡ settled self }
    {
        match self {
            BlockMark::Put => BlockMark::KnownGood,
            mark => mark,
        }
    }

    // What becomes of it where the changes of the transaction are dropped.
    fn dropped(self) -> BlockMark
        ensures { result ≡ dropped self }
    {
        match self {
            BlockMark::Put | BlockMark::KnownBlank => BlockMark::Unknown,
            mark => mark,
        }
    }

    fn ended(self, committed: bool) -> BlockMark
        ensures { result ≡ ended committed self }
    {
        if committed {
            self.settled()
        } else {
            self.dropped()
        }
    }
}

// Ends the transaction in the marks of a level.
fn end_level(marks: &mut [BlockMark], committed: bool)
    ensures { marks.new ≡ map (ended committed) marks.old }
{
    for mark in marks.iter_mut() {
        *mark = mark.ended(committed);
    }
}

impl Marks {
    /// Ends the transaction, in which the blocks that were put were hashed, or are as they were before.
    pub(crate) fn end(&mut self, committed: bool)
        ensures { (level : ℕ) → level_marks self.new level ≡ map (ended committed) (level_marks self.old level) }
    {
        end_level(&mut self.level1, committed);
        end_level(&mut self.level2, committed);
        end_level(&mut self.level3, committed);
        end_level(&mut self.level4, committed);
    }
}
