//! Levels of blocks, and lists of ranges.

ghost use Rattle.std.specs.Prelude.{◌≡◌, ◌*◌, ◌^◌, ◌<◌, ◌≤◌};
ghost use Rattle.difi.specs.Places.{some_empty, some_outside, extent_of, copies_of, blocks_of, bitmap_size};

use save_bytes::Extent;

/// Where a level of blocks begins, how many bytes it has, and the binary logarithm of the bytes of
/// one block. Of a level with two copies it is the first copy.
#[derive(Clone, Copy, Debug, PartialEq, Eq)]
pub struct LevelPlace {
    pub at: u64,
    pub size: u64,
    pub log: u32,
}

pub(crate) fn some_empty(extents: &[Extent]) -> bool
    ensures { result ≡ some_empty extents.now }
{
    extents.iter().any(|extent| extent.size == 0)
}

/// Whether one of the extents does not lie inside 0 to an end.
pub(crate) fn some_outside(extents: &[Extent], end: u64) -> bool
    ensures { result ≡ some_outside extents.now end }
{
    extents.iter().any(|extent| !extent.lies_inside(0, end))
}

impl LevelPlace {
    pub(crate) fn extent(&self) -> Extent
        ensures { result ≡ extent_of self.now }
    {
        Extent {
            at: self.at,
            size: self.size,
        }
    }

    /// Both copies of the level as one extent: the second stands directly behind the first.
    pub(crate) fn copies(&self) -> Extent
        requires { 2 * self.now.size < 2 ^ 64 }
        ensures { result ≡ copies_of self.now }
    {
        Extent {
            at: self.at,
            size: 2 * self.size,
        }
    }

    /// How many blocks there are; the last may be shorter.
    pub(crate) fn blocks(&self) -> u64
        requires { self.now.log ≤ 16 }
        ensures { result ≡ blocks_of self.now }
    {
        self.size.div_ceil(1 << self.log)
    }

    /// The bytes of the 32-bit words with one bit for each block.
    pub(crate) fn bitmap_size(&self) -> u128
        requires { self.now.log ≤ 16 }
        ensures { result ≡ bitmap_size self.now }
    {
        4 * u128::from(self.blocks().div_ceil(32))
    }
}
