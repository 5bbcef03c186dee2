//! Both copies of a block of a level.

ghost use Rattle.std.specs.Prelude.{◌≡◌, ◌+◌, ◌*◌, ◌^◌, ◌<◌, ◌≤◌};
ghost use Rattle.dpfs_tree.specs.Puts.{AreCopiesAt};

use crate::bits::copy_start;
use difi::LevelPlace;

/// Where a block of a level lies in the base: in the copy that its bit chooses, and in the other one, which is written.
#[derive(Clone, Copy)]
pub(crate) struct BlockCopies {
    pub(crate) from: u64,
    pub(crate) to: u64,
    pub(crate) len: u64,
    /// How many bytes of the block lie before the place that was asked for.
    pub(crate) skipped: u64,
}

/// The bytes of a whole block.
pub(crate) fn block_size(log: u32) -> u64
    requires { log ≤ 16 }
    ensures { result ≡ 2 ^ log }
{
    1 << log
}

/// The block of a byte of a level, by the bit that chooses its copy.
pub(crate) fn block_copies(part_at: u64, level: &LevelPlace, chosen: u8, at: u64) -> BlockCopies
    requires log { level.now.log ≤ 16 }
    requires one_of_two { chosen < 2 }
    requires inside { at < level.now.size }
    requires fits { part_at + level.now.at + 2 * level.now.size < 2 ^ 64 }
    ensures { AreCopiesAt part_at level.now at chosen result }
{
    let size = block_size(level.log);
    let skipped = at % size;
    let begin = at - skipped;
    BlockCopies {
        from: copy_start(part_at, level, chosen) + begin,
        to: copy_start(part_at, level, 1 - chosen) + begin,
        len: size.min(level.size - begin),
        skipped,
    }
}
