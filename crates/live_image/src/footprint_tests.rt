//! Which places of an image a change to one block of level 4 may write: what is asked here is the definition's
//! answer, and the rows are worked out by hand.

ghost use Rattle.std.specs.Prelude.{◌≡◌, ◌==◌, ℕ, ◌+◌, ◌-◌, ◌*◌, ◌/◌, ◌^◌, ◌<◌, ◌≤◌, length, slice_index, true};
ghost use Rattle.std.specs.Prelude.{if◌then◌else◌};
ghost use Rattle.std.specs.Bool.{Decides};
ghost use Rattle.difi.specs.Places.{block_size, blocks_of};
ghost use Rattle.difi.specs.Sound.{HasBlockSizes, HasHashLevels};
ghost use Rattle.ivfc_tree.specs.Levels.{IsLevel, level_of};
ghost use Rattle.ivfc_tree.specs.Paths.{block_above};
ghost use Rattle.dpfs_tree.specs.Picks.{copy_place};
ghost use Rattle.container_header.specs.Sound.{IsHeaderOf};
ghost use Rattle.difi.specs.declared.descriptor.Difi.{Difi as Descriptor};
ghost use Rattle.container.specs.Openings.{partition_of};
ghost use Rattle.live_image.specs.Live.{copy1, copy2, copy3};
ghost use Rattle.live_image.specs.Same.{LiesInImage, HasPart};
ghost use Rattle.live_image.specs.Footprint.{MeetsPath, HasPathBit, MayWriteIn, MayWrite, write_footprint};

use crate::live_tests::{
    copy_start, header_of, level2_copy, level3_copy, lies_from, places_of, set_bytes, table_of,
};
use container_header::Header;
use difi::{Difi, LevelPlace};
use save_bytes::{Extent, set_u64};
use save_samples::{Sample, sample};
use std::alloc::{AllocError, Global};
use std::test::Fail;

/// A level of the hash tree by its number, as it lies in the contents.
#[tactic(auto, unfolding(ivfc_tree::specs::Levels::level_of))]
fn level_place(difi: &Difi, level: u64) -> LevelPlace
    requires { IsLevel level }
    ensures { result ≡ level_of difi.now level }
{
    if level == 1 {
        difi.ivfc1
    } else if level == 2 {
        difi.ivfc2
    } else if level == 3 {
        difi.ivfc3
    } else if difi.external {
        LevelPlace {
            at: difi.dpfs3.size,
            size: difi.ivfc4.size,
            log: difi.ivfc4.log,
        }
    } else {
        difi.ivfc4
    }
}

/// The block of a level that lies above a block of level 4.
#[tactic(auto, unfolding(ivfc_tree::specs::Levels::level_of, ivfc_tree::specs::Paths::block_above))]
fn above(difi: &Difi, block: u64, level: u64) -> u64
    requires level { IsLevel level }
    requires small { block < 2 ^ 32 }
    requires logs { (difi.now.ivfc1.log ≤ 16) × (difi.now.ivfc2.log ≤ 16) × (difi.now.ivfc3.log ≤ 16) }
    ensures { result ≡ block_above difi.now 4 block level }
{
    if level == 4 {
        return block;
    }
    let third = (32 * block) >> difi.ivfc3.log;
    if level == 3 {
        return third;
    }
    let second = (32 * third) >> difi.ivfc2.log;
    if level == 2 {
        return second;
    }
    (32 * second) >> difi.ivfc1.log
}

/// Whether byte `y` of a level lies in a block of it, and in a block of the double-copy tree's level 3.
fn lies_in_both(difi: &Difi, place: &LevelPlace, of_level: u64, y: u64, block: u64) -> bool
    requires fits { place.now.at + y < 2 ^ 64 }
    requires logs { (place.now.log ≤ 16) × (difi.now.dpfs3.log ≤ 16) }
    ensures { Decides result ((y / block_size place.now ≡ of_level) × ((place.now.at + y < difi.now.dpfs3.size)
        × ((place.now.at + y) / 2 ^ difi.now.dpfs3.log ≡ block))) }
{
    y >> place.log == of_level
        && place.at + y < difi.dpfs3.size
        && (place.at + y) >> difi.dpfs3.log == block
}

/// Whether a block of a level meets a block of the double-copy tree's level 3.
fn meets(difi: &Difi, place: &LevelPlace, of_level: u64, block: u64) -> bool
    requires fits { place.now.at + place.now.size < 2 ^ 64 }
    requires logs { (place.now.log ≤ 16) × (difi.now.dpfs3.log ≤ 16) }
    ensures { Decides result ((y : ℕ) × ((y < place.now.size) × ((y / block_size place.now ≡ of_level)
        × ((place.now.at + y < difi.now.dpfs3.size) × ((place.now.at + y) / 2 ^ difi.now.dpfs3.log ≡ block))))) }
{
    for y in 0..place.size {
        if lies_in_both(difi, place, of_level, y, block) {
            return true;
        }
    }
    false
}

/// Whether a block of the double-copy tree's level 3 meets a block of level 4, or one above it.
fn meets_one(difi: &Difi, touched: u64, block: u64) -> bool
    requires levels { HasHashLevels difi.now }
    requires sizes { HasBlockSizes difi.now }
    requires small { (difi.now.dpfs3.size ≤ 67108864) × (difi.now.ivfc4.size ≤ 67108864) }
    requires touched { touched < blocks_of difi.now.ivfc4 }
    ensures { Decides result (MeetsPath difi.now (λ n. n == touched) block) }
{
    for level in 1..5 {
        let place = level_place(difi, level);
        if meets(difi, &place, above(difi, touched, level), block) {
            return true;
        }
    }
    false
}

/// How many blocks a level has.
fn block_count(level: &LevelPlace) -> u64
    requires { level.now.log ≤ 16 }
    ensures { result ≡ blocks_of level.now }
{
    level.size.div_ceil(1 << level.log)
}

/// The same; where there is no such block of level 4, none is met.
fn is_met(difi: &Difi, touched: u64, block: u64) -> bool
    requires levels { HasHashLevels difi.now }
    requires sizes { HasBlockSizes difi.now }
    requires small { (difi.now.dpfs3.size ≤ 67108864) × (difi.now.ivfc4.size ≤ 67108864) }
    ensures { Decides result (MeetsPath difi.now (λ n. n == touched) block) }
{
    if touched >= block_count(&difi.ivfc4) {
        return false;
    }
    meets_one(difi, touched, block)
}

/// Whether a block of level 2 has the bit of such a block of level 3.
fn has_met_bit(difi: &Difi, touched: u64, block: u64) -> bool
    requires levels { HasHashLevels difi.now }
    requires sizes { HasBlockSizes difi.now }
    requires small { (difi.now.dpfs3.size ≤ 67108864) × (difi.now.ivfc4.size ≤ 67108864) }
    ensures { Decides result (HasPathBit difi.now (λ n. n == touched) block) }
{
    for bit in 0..(difi.dpfs3.size >> difi.dpfs3.log) + 1 {
        if (4 * (bit / 32)) >> difi.dpfs2.log == block && is_met(difi, touched, bit) {
            return true;
        }
    }
    false
}

/// Whether a place lies in the copy of level 1 that is not chosen.
fn in_other1(partition: &Extent, difi: &Difi, place: u64) -> bool
    requires fits { partition.now.at + difi.now.dpfs1.at + 2 * difi.now.dpfs1.size < 2 ^ 64 }
    requires selector { difi.now.selector < 2 }
    ensures { Decides result ((x : ℕ) × ((x < difi.now.dpfs1.size)
        × (place ≡ copy_place partition.now.at difi.now.dpfs1 (1 - copy1 difi.now x) x))) }
{
    let start = copy_start(partition, &difi.dpfs1, 1 - difi.selector);
    lies_from(start, difi.dpfs1.size, place)
}

/// Whether a place lies in a copy of level 2 that is not chosen, in a block that has the bit of a block that is met.
fn in_other2(
    image: &[u8],
    partition: &Extent,
    difi: &Difi,
    touched: u64,
    copy: u8,
    place: u64,
) -> bool
    requires placed { LiesInImage (length image.now) partition.now difi.now }
    requires small { length image.now ≤ 67108864 }
    requires copy { copy < 2 }
    ensures { Decides result ((x : ℕ) × ((x < difi.now.dpfs2.size)
        × ((copy ≡ 1 - copy2 (λ y. slice_index image.now y) partition.now.at difi.now x)
        × (HasPathBit difi.now (λ n. n == touched) (x / 2 ^ difi.now.dpfs2.log)
        × (place ≡ copy_place partition.now.at difi.now.dpfs2 copy x))))) }
{
    let start = copy_start(partition, &difi.dpfs2, copy);
    if !lies_from(start, difi.dpfs2.size, place) {
        return false;
    }
    let block = (place - start) >> difi.dpfs2.log;
    level2_copy(image, partition, difi, block) == 1 - copy && has_met_bit(difi, touched, block)
}

/// Whether a place lies in a copy of level 3 that is not chosen, in a block that is met.
fn in_other3(
    image: &[u8],
    partition: &Extent,
    difi: &Difi,
    touched: u64,
    copy: u8,
    place: u64,
) -> bool
    requires placed { LiesInImage (length image.now) partition.now difi.now }
    requires small { length image.now ≤ 67108864 }
    requires copy { copy < 2 }
    ensures { Decides result ((x : ℕ) × ((x < difi.now.dpfs3.size)
        × ((copy ≡ 1 - copy3 (λ y. slice_index image.now y) partition.now.at difi.now x)
        × (MeetsPath difi.now (λ n. n == touched) (x / 2 ^ difi.now.dpfs3.log)
        × (place ≡ copy_place partition.now.at difi.now.dpfs3 copy x))))) }
{
    let start = copy_start(partition, &difi.dpfs3, copy);
    if !lies_from(start, difi.dpfs3.size, place) {
        return false;
    }
    let block = (place - start) >> difi.dpfs3.log;
    level3_copy(image, partition, difi, block) == 1 - copy && is_met(difi, touched, block)
}

/// Whether a place lies in a block of external level four.
fn in_external(partition: &Extent, difi: &Difi, touched: u64, place: u64) -> bool
    requires fits { difi.now.external ≡ true
        → partition.now.at + difi.now.external_at + difi.now.ivfc4.size < 2 ^ 63 }
    requires log { difi.now.ivfc4.log ≤ 16 }
    ensures { Decides result ((x : ℕ) × ((difi.now.external ≡ true) × ((x < difi.now.ivfc4.size)
        × ((x / block_size difi.now.ivfc4 ≡ touched)
        × (place ≡ partition.now.at + difi.now.external_at + x))))) }
{
    if !difi.external {
        return false;
    }
    let start = partition.at + difi.external_at;
    if !lies_from(start, difi.ivfc4.size, place) {
        return false;
    }
    (place - start) >> difi.ivfc4.log == touched
}

/// Whether a place of a part may be written, where one block of its level 4 is touched.
fn may_write_in(
    image: &[u8],
    header: &Header,
    number: u8,
    difi: &Difi,
    touched: u64,
    place: u64,
) -> bool
    requires placed { LiesInImage (length image.now) (partition_of header.now number) difi.now }
    requires small { length image.now ≤ 67108864 }
    ensures { Decides result (MayWriteIn image.now header.now number difi.now (λ n. n == touched) place) }
{
    let partition = places_of(header, number).1;
    let level1 = in_other1(&partition, difi, place);
    let level2 = in_other2(image, &partition, difi, touched, 0, place)
        | in_other2(image, &partition, difi, touched, 1, place);
    let level3 = in_other3(image, &partition, difi, touched, 0, place)
        | in_other3(image, &partition, difi, touched, 1, place);
    level1 | (level2 | (level3 | in_external(&partition, difi, touched, place)))
}

/// The same, by the descriptor that the table has.
fn may_write_part(image: &[u8], header: &Header, number: u8, touched: u64, place: u64) -> bool
    requires header { IsHeaderOf header.now image.now }
    requires number { number < header.now.parts }
    ensures { Decides result ((difi : Descriptor) × (HasPart image.now header.now number difi
        × MayWriteIn image.now header.now number difi (λ n. n == touched) place)) }
{
    let table = table_of(image, header);
    let (descriptor, partition) = places_of(header, number);
    match Difi::read(table, descriptor.at, descriptor.size, partition.size) {
        Ok(difi) => may_write_in(image, header, number, &difi, touched, place),
        Err(_) => false,
    }
}

/// The same of part 1, where there is one.
fn may_write_second(image: &[u8], header: &Header, touched: u64, place: u64) -> bool
    requires { IsHeaderOf header.now image.now }
    ensures { Decides result ((header.now.parts ≡ 2) × ((difi : Descriptor) × (HasPart image.now header.now 1 difi
        × MayWriteIn image.now header.now 1 difi (λ n. n == touched) place))) }
{
    if header.parts != 2 {
        return false;
    }
    may_write_part(image, header, 1, touched, place)
}

/// Whether a place may be written under a header, where one block of each part's level 4 is touched.
fn may_write_behind(image: &[u8], header: &Header, touched: (u64, u64), place: u64) -> bool
    requires header { IsHeaderOf header.now image.now }
    requires behind { 512 ≤ place }
    ensures { Decides result (MayWrite image.now (λ part n. n == (if part == 0 then touched.0 else touched.1)) place) }
{
    let table = lies_from(header.inactive_table(), header.table_size, place);
    let first = may_write_part(image, header, 0, touched.0, place);
    table | (first | may_write_second(image, header, touched.1, place))
}

/// Whether a place may be written.
fn may_write(image: &[u8], touched: (u64, u64), place: u64) -> bool
    requires { 512 ≤ length image.now }
    ensures { Decides result (MayWrite image.now (λ part n. n == (if part == 0 then touched.0 else touched.1)) place) }
{
    if place < 512 {
        return true;
    }
    match header_of(image) {
        Ok(header) => may_write_behind(image, &header, touched, place),
        Err(_) => false,
    }
}

/// Whether a place lies in a sector, and may be written.
fn may_write_there(image: &[u8], grain: u64, touched: (u64, u64), sector: u64, place: u64) -> bool
    requires long { 512 ≤ length image.now }
    requires grain { 1 ≤ grain }
    ensures { Decides result ((place / grain ≡ sector)
        × MayWrite image.now (λ part n. n == (if part == 0 then touched.0 else touched.1)) place) }
{
    place / grain == sector && may_write(image, touched, place)
}

/// Whether a sector is in the footprint.
fn in_footprint(image: &[u8], grain: u64, touched: (u64, u64), sector: u64) -> bool
    requires long { 512 ≤ length image.now }
    requires grain { 1 ≤ grain }
    ensures { Decides result
        (write_footprint grain image.now (λ part n. n == (if part == 0 then touched.0 else touched.1)) sector) }
{
    for place in 0..image.len() as u64 {
        if may_write_there(image, grain, touched, sector, place) {
            return true;
        }
    }
    false
}

/// Stands for no block of a part's level 4: there is none of this number.
const NONE: u64 = 99;

/// Whether a place may be written once some bytes of a new image are changed.
fn may_write_with(
    alloc: Global,
    bytes: &[(usize, u8)],
    touched: u64,
    place: u64,
) -> Result<bool, AllocError> {
    let mut image = sample(alloc, Sample::Single)?;
    set_bytes(&mut image, bytes);
    Ok(may_write(&image, (touched, NONE), place))
}

// The lone partition lies at 4,096: level 1 has copies of 4 bytes at 0, level 2 copies of 128 bytes at 4,096, and
// level 3 copies of 49,152 bytes at 8,192. In level 3, whose blocks have 4,096 bytes, blocks 0, 1 and 2 have the hash
// levels 1, 2 and 3, and block 3 + n has block n of level 4. The table at 512, of 300 bytes, is not active.
#[test]
fn other_copies_may_be_written(rt: HostRuntime) -> Result<(), Fail> {
    let alloc = rt.alloc();
    let rows: [(&[(usize, u8)], u64, u64, bool); 36] = [
        (&[], 2, 0, true),
        (&[], 2, 511, true),
        (&[], 2, 512, true),
        (&[], 2, 811, true),
        (&[], 2, 812, false),
        (&[], 2, 1024, false),
        (&[], 2, 4099, false),
        (&[], 2, 4100, true),
        (&[], 2, 4103, true),
        (&[], 2, 4104, false),
        (&[], 2, 8192, false),
        (&[], 2, 8320, true),
        (&[], 2, 8447, true),
        (&[], 2, 8448, false),
        (&[], 2, 12_288, false),
        (&[], 2, 61_440, true),
        (&[], 2, 65_536, true),
        (&[], 2, 73_727, true),
        (&[], 2, 73_728, false),
        (&[], 2, 81_919, false),
        (&[], 2, 81_920, true),
        (&[], 2, 86_015, true),
        (&[], 2, 86_016, false),
        (&[], 2, 110_592, false),
        (&[], 8, 81_920, false),
        (&[], 8, 110_591, true),
        (&[], NONE, 4100, true),
        (&[], NONE, 8320, false),
        (&[], NONE, 61_440, false),
        // By the other selector, bit 0 of level 1, and bit 5 of level 2.
        (&[(1081, 1)], 2, 4099, true),
        (&[(1081, 1)], 2, 4100, false),
        (&[(4099, 0x80)], 2, 8192, true),
        (&[(4099, 0x80)], 2, 8320, false),
        (&[(8195, 0x04)], 2, 32_768, true),
        (&[(8195, 0x04)], 2, 81_920, false),
        (&[(8195, 0x04)], 2, 61_440, true),
    ];
    for (bytes, touched, place, may) in rows {
        assert_eq!(rt;
            may_write_with(alloc, bytes, touched, place)?,
            may,
            "at {place}"
        );
    }
    Ok(())
}

/// The bytes of a sector.
fn grain_of(wide: bool) -> u64
    ensures { 1 ≤ result }
{
    if wide { 4096 } else { 512 }
}

#[test]
fn a_footprint_has_sectors_of_each_kind(rt: HostRuntime) -> Result<(), Fail> {
    let image = sample(rt.alloc(), Sample::Single)?;
    let rows = [
        (false, 0, true),
        (false, 1, true),
        (false, 2, false),
        (false, 8, true),
        (false, 9, false),
        (false, 16, true),
        (false, 17, false),
        (false, 24, false),
        (false, 119, false),
        (false, 120, true),
        (false, 143, true),
        (false, 144, false),
        (false, 159, false),
        (false, 160, true),
        (false, 167, true),
        (false, 168, false),
        (false, 216, false),
        (true, 0, true),
        (true, 1, true),
        (true, 2, true),
        (true, 3, false),
        (true, 14, false),
        (true, 15, true),
        (true, 17, true),
        (true, 18, false),
        (true, 20, true),
        (true, 21, false),
        (true, 27, false),
    ];
    for (wide, sector, there) in rows {
        assert_eq!(rt;
            in_footprint(&image, grain_of(wide), (2, NONE), sector),
            there,
            "sector {sector}"
        );
    }
    Ok(())
}

// The table at 512, of 604 bytes, is not active. Part 0 lies at 4,096, with second copies at 4,100, 8,320 and, of
// 16,384 bytes, at 28,672; all its four blocks of level 3 are met. Part 1 lies at 45,056, with second copies at
// 45,060, 49,280 and, of 12,288 bytes, at 65,536, which are met by any block of level 4; that is external, from
// 77,824 on.
#[test]
fn a_footprint_has_sectors_of_both_parts(rt: HostRuntime) -> Result<(), Fail> {
    let image = sample(rt.alloc(), Sample::Dual)?;
    let rows = [
        ((NONE, 7), 1, true),
        ((NONE, 7), 2, true),
        ((NONE, 7), 3, false),
        ((NONE, 7), 8, true),
        ((NONE, 7), 16, false),
        ((NONE, 7), 56, false),
        ((NONE, 7), 88, true),
        ((NONE, 7), 96, true),
        ((NONE, 7), 104, false),
        ((NONE, 7), 128, true),
        ((NONE, 7), 151, true),
        ((NONE, 7), 152, false),
        ((NONE, 7), 207, false),
        ((NONE, 7), 208, true),
        ((NONE, 7), 215, true),
        ((0, NONE), 16, true),
        ((0, NONE), 24, false),
        ((0, NONE), 56, true),
        ((0, NONE), 87, true),
        ((0, NONE), 88, true),
        ((0, NONE), 96, false),
        ((0, NONE), 128, false),
        ((0, NONE), 208, false),
        ((0, 0), 87, true),
        ((0, 0), 96, true),
        ((0, 0), 152, true),
        ((0, 0), 160, false),
    ];
    for (touched, sector, there) in rows {
        assert_eq!(rt;
            in_footprint(&image, 512, touched, sector),
            there,
            "sector {sector}"
        );
    }
    Ok(())
}

// External level four has 32,668 bytes, 100 fewer than in a new image, and the image ends with it. Its last block is 7.
#[test]
fn a_short_last_sector_is_in_a_footprint(rt: HostRuntime) -> Result<(), Fail> {
    let mut image = sample(rt.alloc(), Sample::Dual)?;
    image.truncate(110_492);
    set_u64(&mut image, 0x160, 65_436);
    set_u64(&mut image, 2004, 32_668);
    let rows = [
        (false, 7, 207, false),
        (false, 7, 208, true),
        (false, 7, 215, true),
        (false, 7, 216, false),
        (false, 6, 207, true),
        (false, 6, 215, false),
        (true, 7, 25, false),
        (true, 7, 26, true),
        (true, 7, 27, false),
        (true, 6, 26, false),
    ];
    for (wide, touched, sector, there) in rows {
        assert_eq!(rt;
            in_footprint(&image, grain_of(wide), (NONE, touched), sector),
            there,
            "sector {sector}"
        );
    }
    Ok(())
}
