//! A descriptor's fields, read from the bytes of a table.

ghost use Rattle.std.specs.Prelude.{◌≡◌, ◌+◌, ◌≤◌, length};
ghost use Rattle.difi.specs.Fields.{extent_at, level_at, ivfc_extent, dpfs_extent, ivfc_place, dpfs_place, fields};

use crate::descriptor::Difi;
use crate::places::LevelPlace;
use save_bytes::{Extent, u32_at, u64_at};

pub(crate) fn extent_at(table: &[u8], at: usize) -> Extent
    requires { at + 16 ≤ length table.now }
    ensures { result ≡ extent_at table.now at }
{
    Extent {
        at: u64_at(table, at),
        size: u64_at(table, at + 8),
    }
}

fn level_at(table: &[u8], at: usize) -> LevelPlace
    requires { at + 20 ≤ length table.now }
    ensures { result ≡ level_at table.now at }
{
    LevelPlace {
        at: u64_at(table, at),
        size: u64_at(table, at + 8),
        log: u32_at(table, at + 16),
    }
}

/// The fields, where the parts of which they are read lie in the table.
#[tactic(auto, unfolding(crate::specs::Fields::fields))]
pub(crate) fn fields_of(table: &[u8], place: usize) -> Difi
    requires difi { place + 0x44 ≤ length table.now }
    requires ivfc { ivfc_place table.now place + 0x78 ≤ length table.now }
    requires dpfs { dpfs_place table.now place + 0x50 ≤ length table.now }
    ensures fields { result ≡ fields table.now place }
    ensures ivfc { result.ivfc_at ≡ (ivfc_extent table.now place).at }
    ensures dpfs { result.dpfs_at ≡ (dpfs_extent table.now place).at }
{
    let ivfc_at = u64_at(table, place + 0x08);
    let dpfs_at = u64_at(table, place + 0x18);
    let ivfc = place + ivfc_at as usize;
    let dpfs = place + dpfs_at as usize;
    Difi {
        place: place as u64,
        ivfc_at,
        dpfs_at,
        master: extent_at(table, place + 0x28),
        external: table[place + 0x38] != 0,
        external_at: u64_at(table, place + 0x3C),
        selector: table[place + 0x39],
        ivfc1: level_at(table, ivfc + 0x10),
        ivfc2: level_at(table, ivfc + 0x28),
        ivfc3: level_at(table, ivfc + 0x40),
        ivfc4: level_at(table, ivfc + 0x58),
        dpfs1: level_at(table, dpfs + 0x08),
        dpfs2: level_at(table, dpfs + 0x20),
        dpfs3: level_at(table, dpfs + 0x38),
    }
}
