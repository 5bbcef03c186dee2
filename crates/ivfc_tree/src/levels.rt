//! Where the levels of a hash tree and their blocks lie.

ghost use Rattle.std.specs.Prelude.{◌≡◌, ◌*◌, ◌^◌, ◌≤◌, ◌<◌};
ghost use Rattle.difi.specs.Places.{block_size};
ghost use Rattle.ivfc_tree.specs.Levels.{level_of, parent_of};

use difi::{Difi, LevelPlace};

/// Where a level lies in the base of a view.
#[tactic(auto, unfolding(crate::specs::Levels::level_of))]
pub(crate) fn level_of(difi: &Difi, level: u8) -> LevelPlace
    ensures { result ≡ level_of difi.now level }
{
    match level {
        1 => difi.ivfc1,
        2 => difi.ivfc2,
        3 => difi.ivfc3,
        _ if difi.external => LevelPlace {
            at: difi.dpfs3.size,
            ..difi.ivfc4
        },
        _ => difi.ivfc4,
    }
}

/// The block of a level in which the entry of a block of the next level lies.
pub(crate) fn parent_of(difi: &Difi, upper: u8, block: u64) -> u64
    requires log { (level_of difi.now upper).log ≤ 16 }
    requires fits { 32 * block < 2 ^ 64 }
    ensures { result ≡ parent_of difi.now upper block }
{
    32 * block / block_size(&level_of(difi, upper))
}

/// How many bytes the blocks of a level have; the last may be shorter.
pub(crate) fn block_size(level: &LevelPlace) -> u64
    requires { level.now.log ≤ 16 }
    ensures { result ≡ block_size level.now }
{
    1 << level.log
}
