//! Which places of an image are live: what is asked here is the definition's answer, and the rows are worked out by
//! hand.

ghost use Rattle.std.specs.Prelude.{◌≡◌, ◌+◌, ◌*◌, ◌/◌, ◌^◌, ◌<◌, ◌≤◌, length, slice_index, Ok, IfOk};
ghost use Rattle.container_header.specs.Conditions.{reading as header_reading};
ghost use Rattle.container_header.specs.Sound.{IsHeaderOf};
ghost use Rattle.difi.specs.Places.{blocks_of};
ghost use Rattle.dpfs_tree.specs.Picks.{bit_of, pick1, pick2};
ghost use Rattle.container.specs.Openings.{active_table, descriptor_of, partition_of};
ghost use Rattle.live_image.specs.Live.{lies_from, in_chosen_copy, live_level, copy1, copy2, copy3, live_tree};
ghost use Rattle.live_image.specs.Live.{live_part, live_of, live_behind, live_places};
ghost use Rattle.live_image.specs.Same.{LiesInImage};

use container_header::{Extent, Header, HeaderFault};
use difi::{Difi, LevelPlace};
use save_bytes::{set_u64, u32_at};
use save_samples::{Sample, sample};
use std::alloc::{AllocError, Global};
use std::test::Fail;

/// Whether a place is one of `size` from `at` on.
pub(crate) fn lies_from(at: u64, size: u64, place: u64) -> bool
    requires { at + size < 2 ^ 64 }
    ensures { result ≡ lies_from at size place }
{
    at <= place && place < at + size
}

/// Where a copy of a level begins in the image.
pub(crate) fn copy_start(partition: &Extent, level: &LevelPlace, copy: u8) -> u64
    requires fits { partition.now.at + level.now.at + 2 * level.now.size < 2 ^ 64 }
    requires copy { copy < 2 }
    ensures { result ≡ partition.now.at + level.now.at + copy * level.now.size }
{
    let skipped = if copy == 0 { 0 } else { level.size };
    partition.at + level.at + skipped
}

/// Bit `k` of the words that begin at `from`.
fn bit_at(image: &[u8], from: u64, k: u64) -> u8
    requires { from + 4 * (k / 32) + 4 ≤ length image.now }
    ensures bit { result ≡ bit_of (λ x. slice_index image.now (from + x)) k }
    ensures one_of_two { result < 2 }
{
    let word = u32_at(image, (from + 4 * (k / 32)) as usize);
    let low = (31 - k % 32) as u32;
    ((word >> low) % 2) as u8
}

/// The copy of a block of level 2 that is chosen.
pub(crate) fn level2_copy(image: &[u8], partition: &Extent, difi: &Difi, block: u64) -> u8
    requires placed { LiesInImage (length image.now) partition.now difi.now }
    requires block { block < blocks_of difi.now.dpfs2 }
    ensures bit { result ≡ bit_of
        (pick1 (λ x. slice_index image.now x) partition.now.at difi.now difi.now.selector) block }
    ensures one_of_two { result < 2 }
{
    bit_at(
        image,
        copy_start(partition, &difi.dpfs1, difi.selector),
        block,
    )
}

/// The copy of a block of level 3 that is chosen.
pub(crate) fn level3_copy(image: &[u8], partition: &Extent, difi: &Difi, block: u64) -> u8
    requires placed { LiesInImage (length image.now) partition.now difi.now }
    requires block { block < blocks_of difi.now.dpfs3 }
    ensures bit { result ≡ bit_of
        (pick2 (λ x. slice_index image.now x) partition.now.at difi.now difi.now.selector) block }
    ensures one_of_two { result < 2 }
{
    let copy = level2_copy(image, partition, difi, (4 * (block / 32)) >> difi.dpfs2.log);
    bit_at(image, copy_start(partition, &difi.dpfs2, copy), block)
}

/// Whether a place lies in a copy of level 1 that is the chosen one.
fn in_copy1(partition: &Extent, difi: &Difi, copy: u8, place: u64) -> bool
    requires fits { partition.now.at + difi.now.dpfs1.at + 2 * difi.now.dpfs1.size < 2 ^ 64 }
    requires copy { copy < 2 }
    ensures { result ≡ in_chosen_copy partition.now.at difi.now.dpfs1 (copy1 difi.now) copy place }
{
    let start = copy_start(partition, &difi.dpfs1, copy);
    lies_from(start, difi.dpfs1.size, place) && difi.selector == copy
}

/// Whether a place lies in a copy of level 2, at a byte of a block that is read from it.
fn in_copy2(image: &[u8], partition: &Extent, difi: &Difi, copy: u8, place: u64) -> bool
    requires placed { LiesInImage (length image.now) partition.now difi.now }
    requires copy { copy < 2 }
    ensures { result ≡ in_chosen_copy partition.now.at difi.now.dpfs2
        (copy2 (λ x. slice_index image.now x) partition.now.at difi.now) copy place }
{
    let start = copy_start(partition, &difi.dpfs2, copy);
    lies_from(start, difi.dpfs2.size, place)
        && level2_copy(image, partition, difi, (place - start) >> difi.dpfs2.log) == copy
}

/// Whether a place lies in a copy of level 3, at a byte of a block that is read from it.
fn in_copy3(image: &[u8], partition: &Extent, difi: &Difi, copy: u8, place: u64) -> bool
    requires placed { LiesInImage (length image.now) partition.now difi.now }
    requires copy { copy < 2 }
    ensures { result ≡ in_chosen_copy partition.now.at difi.now.dpfs3
        (copy3 (λ x. slice_index image.now x) partition.now.at difi.now) copy place }
{
    let start = copy_start(partition, &difi.dpfs3, copy);
    lies_from(start, difi.dpfs3.size, place)
        && level3_copy(image, partition, difi, (place - start) >> difi.dpfs3.log) == copy
}

/// Whether a place is live in a partition.
#[tactic(auto, unfolding(crate::specs::Live::live_level))]
fn is_live_tree(image: &[u8], partition: &Extent, difi: &Difi, place: u64) -> bool
    requires { LiesInImage (length image.now) partition.now difi.now }
    ensures { result ≡ live_tree (λ x. slice_index image.now x) partition.now.at difi.now place }
{
    let level1 = in_copy1(partition, difi, 0, place) | in_copy1(partition, difi, 1, place);
    let level2 = in_copy2(image, partition, difi, 0, place)
        | in_copy2(image, partition, difi, 1, place);
    let level3 = in_copy3(image, partition, difi, 0, place)
        | in_copy3(image, partition, difi, 1, place);
    level1 | (level2 | level3)
}

/// The header of an image.
pub(crate) fn header_of(image: &[u8]) -> Result<Header, HeaderFault>
    requires { 512 ≤ length image.now }
    ensures exact { result ≡ header_reading image.now }
    ensures header { IfOk result (λ header. IsHeaderOf header image.now) }
{
    let mut sector = [0; 512];
    sector.copy_from_slice(&image[..512]);
    Header::read(&sector, image.len() as u64)
}

/// The active table of an image.
pub(crate) fn table_of<'a>(image: &'a [u8], header: &Header) -> &'a [u8]
    requires { IsHeaderOf header.now image.now }
    ensures { result.now ≡ active_table image.now header.now }
{
    let at = header.active_table() as usize;
    &image[at..][..header.table_size as usize]
}

/// Where a part's descriptor stands in the table, and its partition in the image.
pub(crate) fn places_of(header: &Header, number: u8) -> (Extent, Extent)
    ensures descriptor { result.0 ≡ descriptor_of header.now number }
    ensures partition { result.1 ≡ partition_of header.now number }
{
    if number == 0 {
        (header.desc_a, header.part_a)
    } else {
        (header.desc_b, header.part_b)
    }
}

/// Whether a place is live in a part.
fn is_live_of(image: &[u8], header: &Header, number: u8, place: u64) -> bool
    requires header { IsHeaderOf header.now image.now }
    requires number { number < header.now.parts }
    ensures { result ≡ live_of image.now header.now number place }
{
    let table = table_of(image, header);
    let (descriptor, partition) = places_of(header, number);
    match Difi::read(table, descriptor.at, descriptor.size, partition.size) {
        Ok(difi) => is_live_tree(image, &partition, &difi, place),
        Err(_) => false,
    }
}

/// Whether a place is live under a header.
fn is_live_behind(image: &[u8], header: &Header, place: u64) -> bool
    requires header { IsHeaderOf header.now image.now }
    ensures { result ≡ live_behind image.now (Ok header.now) place }
{
    let table = lies_from(header.active_table(), header.table_size, place);
    let first = is_live_of(image, header, 0, place);
    table | (first | (header.parts == 2 && is_live_of(image, header, 1, place)))
}

/// Whether a place of an image is live.
#[tactic(auto, unfolding(crate::specs::Live::live_places))]
fn is_live(image: &[u8], place: u64) -> bool
    requires { 512 ≤ length image.now }
    ensures { result ≡ live_places image.now place }
{
    if place < 512 {
        return true;
    }
    match header_of(image) {
        Ok(header) => is_live_behind(image, &header, place),
        Err(_) => false,
    }
}

/// How many places of a sector are live, of those that lie in the image.
fn live_in_sector(image: &[u8], grain: u64, sector: u64) -> u64
    requires { 512 ≤ length image.now }
{
    let mut count = 0;
    for place in 0..image.len() as u64 {
        if place.checked_div(grain) == Some(sector) && is_live(image, place) {
            count += 1;
        }
    }
    count
}

/// Puts a byte at each of these places.
pub(crate) fn set_bytes(image: &mut [u8], bytes: &[(usize, u8)])
    ensures { length image.new ≡ length image.old }
{
    for (at, byte) in bytes {
        if *at < image.len() {
            image[*at] = *byte;
        }
    }
}

// The table at 1,536 is active, the one at 512 is not. Part 0 lies at 4,096 and part 1 at 45,056: in each, level 1 has
// copies of 4 bytes at 0, level 2 copies of 128 bytes at 4,096, and level 3 copies at 8,192, of 16,384 bytes in part
// 0 and of 12,288 in part 1. The selectors and all bits are 0. Part 1's level four is external, from 77,824 to the
// image's end.
#[test]
fn first_copies_are_live_in_a_new_image(rt: HostRuntime) -> Result<(), Fail> {
    let image = sample(rt.alloc(), Sample::Dual)?;
    let rows = [
        (0, true),
        (15, true),
        (511, true),
        (512, false),
        (1115, false),
        (1535, false),
        (1536, true),
        (2139, true),
        (2140, false),
        (4095, false),
        (4096, true),
        (4099, true),
        (4100, false),
        (4103, false),
        (8191, false),
        (8192, true),
        (8319, true),
        (8320, false),
        (8447, false),
        (12_287, false),
        (12_288, true),
        (28_671, true),
        (28_672, false),
        (45_055, false),
        (45_056, true),
        (45_059, true),
        (45_060, false),
        (49_152, true),
        (49_279, true),
        (49_280, false),
        (53_247, false),
        (53_248, true),
        (65_535, true),
        (65_536, false),
        (77_823, false),
        (77_824, false),
        (110_591, false),
        (110_592, false),
    ];
    for (place, live) in rows {
        assert_eq!(rt; is_live(&image, place), live, "at {place}");
    }
    Ok(())
}

/// Whether a place is live once some bytes of a new image are changed.
fn is_live_with(
    alloc: Global,
    which: Sample,
    bytes: &[(usize, u8)],
    place: u64,
) -> Result<bool, AllocError> {
    let mut image = sample(alloc, which)?;
    set_bytes(&mut image, bytes);
    Ok(is_live(&image, place))
}

// The selector of part 0 is byte 1,593, that of part 1 byte 1,897. Bit 0 of a word is the highest of its last byte,
// bit 31 the lowest of its first byte. Of level 2 there is one block; of level 3 a block has 4,096 bytes.
#[test]
fn selectors_and_bits_choose_what_is_live(rt: HostRuntime) -> Result<(), Fail> {
    let alloc = rt.alloc();
    let rows: [(&[(usize, u8)], u64, bool); 36] = [
        // The other copy of level 1, and its bits, which are 0.
        (&[(1593, 1)], 4096, false),
        (&[(1593, 1)], 4100, true),
        (&[(1593, 1)], 8192, true),
        (&[(1593, 1)], 45_056, true),
        (&[(1593, 1), (4099, 0x80)], 8192, true),
        (&[(1593, 1), (4103, 0x80)], 8192, false),
        (&[(1593, 1), (4103, 0x80)], 8320, true),
        (&[(1897, 1)], 45_056, false),
        (&[(1897, 1)], 45_060, true),
        (&[(1897, 1)], 4096, true),
        // The other copy of level 2, by bit 0 alone.
        (&[(4099, 0x80)], 8192, false),
        (&[(4099, 0x80)], 8319, false),
        (&[(4099, 0x80)], 8320, true),
        (&[(4099, 0x80)], 8447, true),
        (&[(4099, 0x80)], 12_288, true),
        (&[(4099, 0x40)], 8192, true),
        (&[(4096, 0x01)], 8192, true),
        // The other copy of block 1 of level 3, and of no other block.
        (&[(8195, 0x40)], 16_383, true),
        (&[(8195, 0x40)], 16_384, false),
        (&[(8195, 0x40)], 20_479, false),
        (&[(8195, 0x40)], 20_480, true),
        (&[(8195, 0x40)], 32_767, false),
        (&[(8195, 0x40)], 32_768, true),
        (&[(8195, 0x40)], 36_863, true),
        (&[(8195, 0x40)], 36_864, false),
        (&[(8323, 0x40)], 16_384, true),
        (&[(4099, 0x80), (8323, 0x40)], 16_384, false),
        (&[(4099, 0x80), (8323, 0x40)], 32_768, true),
        (&[(4099, 0x80), (8195, 0x40)], 16_384, true),
        // Block 2 of part 1.
        (&[(49_155, 0x20)], 61_439, true),
        (&[(49_155, 0x20)], 61_440, false),
        (&[(49_155, 0x20)], 73_728, true),
        (&[(49_155, 0x20)], 77_823, true),
        (&[(49_155, 0x20)], 77_824, false),
        // The other table, which has no descriptor.
        (&[(0x168, 1)], 512, true),
        (&[(0x168, 1)], 4096, false),
    ];
    for (bytes, place, live) in rows {
        assert_eq!(rt;
            is_live_with(alloc, Sample::Dual, bytes, place)?,
            live,
            "at {place}"
        );
    }
    Ok(())
}

// What has no header has its first 512 bytes alone, and what has one partition has no second one. The lone partition's
// level 3 has copies of 49,152 bytes, and the active table stands at 1,024.
#[test]
fn headers_say_which_parts_are_live(rt: HostRuntime) -> Result<(), Fail> {
    let alloc = rt.alloc();
    let rows: [(Sample, &[(usize, u8)], u64, bool); 14] = [
        (Sample::Dual, &[(0x100, 0)], 511, true),
        (Sample::Dual, &[(0x100, 0)], 1536, false),
        (Sample::Dual, &[(0x100, 0)], 4096, false),
        (Sample::Dual, &[(0x108, 1)], 4096, true),
        (Sample::Dual, &[(0x108, 1)], 45_056, false),
        (Sample::Dual, &[(1840, 0)], 4096, true),
        (Sample::Dual, &[(1840, 0)], 45_056, false),
        (Sample::Single, &[], 1023, false),
        (Sample::Single, &[], 1024, true),
        (Sample::Single, &[], 1323, true),
        (Sample::Single, &[], 1324, false),
        (Sample::Single, &[], 61_439, true),
        (Sample::Single, &[], 61_440, false),
        (Sample::Vsxe, &[], 1323, true),
    ];
    for (which, bytes, place, live) in rows {
        assert_eq!(rt;
            is_live_with(alloc, which, bytes, place)?,
            live,
            "at {place}"
        );
    }
    Ok(())
}

#[test]
fn sectors_have_live_and_dead_bytes(rt: HostRuntime) -> Result<(), Fail> {
    let image = sample(rt.alloc(), Sample::Dual)?;
    let rows = [
        (512, 0, 512),
        (512, 1, 0),
        (512, 2, 0),
        (512, 3, 512),
        (512, 4, 92),
        (512, 5, 0),
        (512, 8, 4),
        (512, 16, 128),
        (512, 24, 512),
        (512, 55, 512),
        (512, 56, 0),
        (512, 152, 0),
        (4096, 0, 1116),
        (4096, 1, 4),
        (4096, 2, 128),
        (4096, 3, 4096),
        (4096, 6, 4096),
        (4096, 7, 0),
        (4096, 11, 4),
        (4096, 12, 128),
        (4096, 15, 4096),
        (4096, 16, 0),
        (4096, 19, 0),
        (4096, 27, 0),
    ];
    for (grain, sector, live) in rows {
        assert_eq!(rt;
            live_in_sector(&image, grain, sector),
            live,
            "sector {sector} of {grain}"
        );
    }
    Ok(())
}

// Level 3 of the lone partition has 49,052 bytes, 100 fewer than in a new image, and so its second copy lies from
// 61,340 to 110,391, where the image ends. Its last block, of 3,996 bytes, is number 11, and is read from that copy.
#[test]
fn a_short_last_sector_has_the_live_bytes_that_there_are(rt: HostRuntime) -> Result<(), Fail> {
    let mut image = sample(rt.alloc(), Sample::Single)?;
    image.truncate(110_392);
    set_u64(&mut image, 0x150, 106_296);
    set_u64(&mut image, 1276, 49_052);
    set_bytes(&mut image, &[(8194, 0x10)]);
    let rows = [
        (512, 112, 0),
        (512, 207, 100),
        (512, 208, 512),
        (512, 214, 512),
        (512, 215, 312),
        (512, 216, 0),
        (4096, 14, 0),
        (4096, 25, 100),
        (4096, 26, 3896),
        (4096, 27, 0),
    ];
    for (grain, sector, live) in rows {
        assert_eq!(rt;
            live_in_sector(&image, grain, sector),
            live,
            "sector {sector} of {grain}"
        );
    }
    Ok(())
}
