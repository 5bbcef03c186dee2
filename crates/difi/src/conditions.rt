//! The conditions of a descriptor, one test each, in the order in which a fault is named.

ghost use Rattle.std.specs.Prelude.{◌≡◌, ◌+◌, ◌≤◌, length, OnOk};
ghost use Rattle.std.specs.Bool.{OnFalse};
ghost use Rattle.difi.specs.Fields.{has_name, ivfc_extent, dpfs_extent};
ghost use Rattle.difi.specs.Conditions.{difi_tests, name_tests, level_tests, verdict, has_no_place, is_bad_part};
ghost use Rattle.save_bytes.specs.Extents.{is_outside};
ghost use Rattle.difi.specs.Conditions.{has_bad_log, has_bad_copies, has_short_bitmap};
ghost use Rattle.difi.specs.Conditions.{has_overlapping_copies, has_bad_level, has_overlapping_levels};
ghost use Rattle.difi.specs.Conditions.{has_bad_external, has_too_few_entries, hash_levels, inner_count, pairs};
ghost use Rattle.difi.specs.Conditions.{parts};
ghost use Rattle.save_bytes.specs.Extents.{some_overlap};
ghost use Rattle.difi.specs.Sound.{HasBlockSizes, CopiesFit};

use crate::descriptor::Difi;
use crate::fault::DifiFault;
use crate::fields::extent_at;
use crate::places::{LevelPlace, some_empty, some_outside};
use save_bytes::{Extent, some_overlap, u32_at};

/// The bytes of each part that are read.
const DIFI_SIZE: u64 = 0x44;

const IVFC_SIZE: u64 = 0x78;

const DPFS_SIZE: u64 = 0x50;

/// The bytes of one hash.
const ENTRY_SIZE: u64 = 32;

fn has_name(table: &[u8], at: usize, name: &[u8]) -> bool
    requires { at + 4 ≤ length table.now }
    ensures { result ≡ has_name table.now at name.now }
{
    &table[at..at + 4] == name
}

/// Whether a part does not lie inside a descriptor of a size, or is shorter than what is read of it.
fn is_bad_part(part: &Extent, least: u64, size: u64) -> bool
    ensures exact { result ≡ is_bad_part part.now least size }
    ensures holds { OnFalse result (part.now.at + least ≤ size) }
{
    !part.lies_inside(0, size) || part.size < least
}

impl LevelPlace {
    fn has_bad_log(&self, low: u32) -> bool
        ensures { result ≡ is_outside low 16 self.now.log }
    {
        !(low..=16).contains(&self.log)
    }

    /// Whether it is empty, or its copies do not lie inside a partition of a length.
    fn has_no_place(&self, part_len: u64) -> bool
        ensures { result ≡ has_no_place self.now part_len }
    {
        let end = u128::from(self.at) + 2 * u128::from(self.size);
        self.size == 0 || end > u128::from(part_len)
    }
}

fn parts_overlap(ivfc_at: u64, dpfs_at: u64, master: Extent) -> bool
    ensures { result ≡ some_overlap (parts ivfc_at dpfs_at master) }
{
    some_overlap(&[
        Extent {
            at: 0,
            size: DIFI_SIZE,
        },
        Extent {
            at: ivfc_at,
            size: IVFC_SIZE,
        },
        Extent {
            at: dpfs_at,
            size: DPFS_SIZE,
        },
        master,
    ])
}

/// The conditions on DIFI itself.
#[tactic(auto, unfolding(crate::specs::Conditions::difi_tests))]
pub(crate) fn check_difi(table: &[u8], place: usize, size: u64) -> Result<(), DifiFault>
    requires inside { place + size ≤ length table.now }
    requires long { 0x44 ≤ size }
    ensures exact { result ≡ verdict (difi_tests table.now place size) }
    ensures ivfc { OnOk result ((ivfc_extent table.now place).at + 0x78 ≤ size) }
    ensures dpfs { OnOk result ((dpfs_extent table.now place).at + 0x50 ≤ size) }
{
    if !has_name(table, place, b"DIFI") {
        return Err(DifiFault::Magic { which: 1 });
    }
    if u32_at(table, place + 4) != 0x10000 {
        return Err(DifiFault::Version { which: 1 });
    }
    let ivfc = extent_at(table, place + 0x08);
    let dpfs = extent_at(table, place + 0x18);
    let master = extent_at(table, place + 0x28);
    if is_bad_part(&ivfc, IVFC_SIZE, size) {
        return Err(DifiFault::Layout { condition: 1 });
    }
    if is_bad_part(&dpfs, DPFS_SIZE, size) {
        return Err(DifiFault::Layout { condition: 2 });
    }
    if !master.lies_inside(0, size) {
        return Err(DifiFault::Layout { condition: 3 });
    }
    if parts_overlap(ivfc.at, dpfs.at, master) {
        return Err(DifiFault::Layout { condition: 4 });
    }
    if table[place + 0x39] > 1 {
        return Err(DifiFault::Layout { condition: 5 });
    }
    Ok(())
}

/// The names and versions of the other two parts.
#[tactic(auto, unfolding(crate::specs::Conditions::name_tests))]
pub(crate) fn check_names(table: &[u8], ivfc: usize, dpfs: usize) -> Result<(), DifiFault>
    requires ivfc { ivfc + 8 ≤ length table.now }
    requires dpfs { dpfs + 8 ≤ length table.now }
    ensures { result ≡ verdict (name_tests table.now ivfc dpfs) }
{
    if !has_name(table, ivfc, b"IVFC") {
        return Err(DifiFault::Magic { which: 2 });
    }
    if u32_at(table, ivfc + 4) != 0x20000 {
        return Err(DifiFault::Version { which: 2 });
    }
    if !has_name(table, dpfs, b"DPFS") {
        return Err(DifiFault::Magic { which: 3 });
    }
    if u32_at(table, dpfs + 4) != 0x10000 {
        return Err(DifiFault::Version { which: 3 });
    }
    Ok(())
}

impl Difi {
    #[tactic(auto, unfolding(crate::specs::Conditions::has_bad_log))]
    fn has_bad_log(&self) -> bool
        ensures exact { result ≡ has_bad_log self.now }
        ensures sizes { OnFalse result (HasBlockSizes self.now) }
    {
        self.dpfs2.has_bad_log(7)
            || self.dpfs3.has_bad_log(7)
            || self.ivfc1.has_bad_log(9)
            || self.ivfc2.has_bad_log(9)
            || self.ivfc3.has_bad_log(9)
            || self.ivfc4.has_bad_log(9)
    }

    #[tactic(auto, unfolding(crate::specs::Conditions::has_bad_copies))]
    fn has_bad_copies(&self, part_len: u64) -> bool
        ensures exact { result ≡ has_bad_copies self.now part_len }
        ensures fit { OnFalse result (CopiesFit self.now) }
    {
        self.dpfs1.has_no_place(part_len)
            || self.dpfs2.has_no_place(part_len)
            || self.dpfs3.has_no_place(part_len)
    }

    #[tactic(auto, unfolding(crate::specs::Conditions::has_short_bitmap))]
    fn has_short_bitmap(&self) -> bool
        requires { HasBlockSizes self.now }
        ensures { result ≡ has_short_bitmap self.now }
    {
        u128::from(self.dpfs1.size) < self.dpfs2.bitmap_size()
            || u128::from(self.dpfs2.size) < self.dpfs3.bitmap_size()
    }

    fn pairs(&self) -> [Extent; 3]
        requires { CopiesFit self.now }
        ensures { result ≡ pairs self.now }
    {
        [
            self.dpfs1.copies(),
            self.dpfs2.copies(),
            self.dpfs3.copies(),
        ]
    }

    #[tactic(auto, unfolding(crate::specs::Conditions::has_overlapping_copies))]
    fn has_overlapping_copies(&self) -> bool
        requires { CopiesFit self.now }
        ensures { result ≡ has_overlapping_copies self.now }
    {
        some_overlap(&self.pairs())
    }

    fn hash_levels(&self) -> [Extent; 4]
        ensures { result ≡ hash_levels self.now }
    {
        [
            self.ivfc1.extent(),
            self.ivfc2.extent(),
            self.ivfc3.extent(),
            self.ivfc4.extent(),
        ]
    }

    /// How many of the hash tree's levels lie in DPFS level 3.
    fn inner_count(&self) -> usize
        ensures { result ≡ inner_count self.now }
    {
        if self.external { 3 } else { 4 }
    }

    #[tactic(auto, unfolding(crate::specs::Conditions::has_bad_level))]
    fn has_bad_level(&self) -> bool
        ensures { result ≡ has_bad_level self.now }
    {
        let levels = self.hash_levels();
        some_empty(&levels) || some_outside(&levels[..self.inner_count()], self.dpfs3.size)
    }

    #[tactic(auto, unfolding(crate::specs::Conditions::has_overlapping_levels))]
    fn has_overlapping_levels(&self) -> bool
        ensures { result ≡ has_overlapping_levels self.now }
    {
        some_overlap(&self.hash_levels()[..self.inner_count()])
    }

    #[tactic(auto, unfolding(crate::specs::Conditions::has_bad_external))]
    fn has_bad_external(&self, part_len: u64) -> bool
        requires { CopiesFit self.now }
        ensures { result ≡ has_bad_external self.now part_len }
    {
        let level = Extent {
            at: self.external_at,
            size: self.ivfc4.size,
        };
        self.external && (!level.lies_inside(0, part_len) || level.overlaps_any(&self.pairs()))
    }

    #[tactic(auto, unfolding(crate::specs::Conditions::has_too_few_entries))]
    fn has_too_few_entries(&self) -> bool
        requires { HasBlockSizes self.now }
        ensures { result ≡ has_too_few_entries self.now }
    {
        self.master.size / ENTRY_SIZE < self.ivfc1.blocks()
            || self.ivfc1.size / ENTRY_SIZE < self.ivfc2.blocks()
            || self.ivfc2.size / ENTRY_SIZE < self.ivfc3.blocks()
            || self.ivfc3.size / ENTRY_SIZE < self.ivfc4.blocks()
    }

    /// The conditions on the levels, for a partition of a length.
    #[tactic(auto, unfolding(crate::specs::Conditions::level_tests))]
    pub(crate) fn check_levels(&self, part_len: u64) -> Result<(), DifiFault>
        ensures { result ≡ verdict (level_tests self.now part_len) }
    {
        if self.has_bad_log() {
            return Err(DifiFault::Layout { condition: 6 });
        }
        if self.has_bad_copies(part_len) {
            return Err(DifiFault::Layout { condition: 7 });
        }
        if self.has_short_bitmap() {
            return Err(DifiFault::Layout { condition: 8 });
        }
        if self.has_overlapping_copies() {
            return Err(DifiFault::Layout { condition: 9 });
        }
        if self.has_bad_level() {
            return Err(DifiFault::Layout { condition: 10 });
        }
        if self.has_overlapping_levels() {
            return Err(DifiFault::Layout { condition: 11 });
        }
        if self.has_bad_external(part_len) {
            return Err(DifiFault::Layout { condition: 12 });
        }
        if self.has_too_few_entries() {
            return Err(DifiFault::Layout { condition: 13 });
        }
        Ok(())
    }
}
