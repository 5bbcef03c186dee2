//! Where a reading stands.

ghost use Rattle.std.specs.Prelude.{◌≡◌, ℕ, ◌+◌, ◌-◌, ◌*◌, ◌≤◌, ◌<◌, ◌^◌, min, List};
ghost use Rattle.save_bytes.specs.Cells.{Cell};

use chain_nodes::{ChainInfo, Cursor, Run};

/// A place in a file's contents. Behind it lie bytes of a run of data blocks, which is in hand.
#[derive(Clone, Copy, Debug)]
pub struct Reading {
    pub(crate) info: ChainInfo,
    /// The place in the chain behind the run in hand.
    pub(crate) cursor: Cursor,
    /// Where the next byte lies, and how many bytes of the run lie from there on.
    pub(crate) at: u64,
    pub(crate) run: u64,
    /// How many bytes of the contents were not read.
    pub(crate) left: u64,
    ghost inside: { at + run ≤ info.region_at + info.count * info.block },
}

impl Reading {
    ghost use Rattle.file_reader.specs.Contents.{IsContentsList};
    ghost use Rattle.file_reader.specs.Reading.{IsReadingAt};

    /// How many bytes were not read yet.
    pub fn left(&self) -> u64
        ensures { result ≡ self.now.left }
    {
        self.left
    }

    // The place before the first of so many bytes, whose first data block is `start`.
    pub(crate) fn start(info: ChainInfo, start: u32, size: u64) -> Reading
        ensures stands { (table : ℕ → ℕ → Cell) (list : List ℕ) → info.count < 2 ^ 31
            → IsContentsList table info start size list → IsReadingAt table start size list 0 result }
        ensures info { result.info ≡ info }
        ensures left { result.left ≡ size }
    {
        Reading {
            info,
            cursor: Cursor::of_chain(start.saturating_add(1)),
            at: 0,
            run: 0,
            left: size,
        }
    }

    // The same place with another run in hand, behind which the chain goes on at a cursor.
    pub(crate) fn with_run(self, run: Run, behind: Cursor) -> Reading
        requires inside { run.block + run.len ≤ self.info.count }
        requires room { self.info.region_at + self.info.count * self.info.block < 2 ^ 64 }
        ensures info { result.info ≡ self.info }
        ensures cursor { result.cursor ≡ behind }
        ensures at { result.at ≡ self.info.region_at + run.block * self.info.block }
        ensures run { result.run ≡ run.len * self.info.block }
        ensures left { result.left ≡ self.left }
    {
        let block = u64::from(self.info.block);
        Reading {
            info: self.info,
            cursor: behind,
            at: self.info.region_at + u64::from(run.block) * block,
            run: u64::from(run.len) * block,
            left: self.left,
        }
    }

    // The place behind the next `n` bytes.
    pub(crate) fn behind(self, n: u64) -> Reading
        requires run { n ≤ self.run }
        requires left { n ≤ self.left }
        requires room { self.info.region_at + self.info.count * self.info.block < 2 ^ 64 }
        ensures info { result.info ≡ self.info }
        ensures cursor { result.cursor ≡ self.cursor }
        ensures at { result.at ≡ self.at + n }
        ensures run { result.run ≡ self.run - n }
        ensures left { result.left ≡ self.left - n }
    {
        Reading {
            info: self.info,
            cursor: self.cursor,
            at: self.at + n,
            run: self.run - n,
            left: self.left - n,
        }
    }
}
