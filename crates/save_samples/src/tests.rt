ghost use Rattle.std.specs.Prelude.{◌≡◌, length};

use super::*;
use difi::Difi;
use save_bytes::u64_at;
use sha2::{Digest, Sha256};
use std::process::Abort;
use std::test::Fail;

/// Part 0's level four: the partition at 4,096, level 3 of its double-copy tree at 8,192 in it, level four at 12,288
/// in that.
const LEVEL_FOUR: usize = 4096 + 8192 + 12_288;

/// That these numbers of 64 bits stand so far behind `start`. A shorter field is read with what follows it.
pub(crate) fn assert_numbers(rt: &impl Abort, image: &[u8], start: usize, fields: &[(usize, u64)])
    requires { length image.now ≡ 110592 }
{
    assert!(rt; start <= 100_000);
    for &(field, value) in fields {
        assert!(rt; field <= 10_000);
        assert_eq!(rt;
            u64_at(image, start + field),
            value,
            "at {start} and {field}"
        );
    }
}

/// That the digest of the bytes of each block stands at its entry: a block's place and size, and the entry's place.
pub(crate) fn assert_digests(rt: &impl Abort, image: &[u8], blocks: &[(usize, usize, usize)])
    requires { length image.now ≡ 110592 }
{
    for &(at, size, entry) in blocks {
        assert!(rt; at <= 100_000 && entry <= 100_000);
        assert!(rt; size <= 10_000);
        let digest = Sha256::digest(&image[at..at + size]);
        assert!(rt; image[entry..].starts_with(&digest), "at {entry}");
    }
}

// The digests are those of images that were made once in another language, from the format alone.
#[test]
fn every_byte_is_that_of_a_second_writing_of_the_format(rt: HostRuntime) -> Result<(), Fail> {
    let single =
        b"\x5a\xdd\x5e\xe2\x29\x00\x43\xc0\x55\x6f\x26\x9c\x79\xbd\xf0\x18\x7a\x73\x67\x5c\x76\x4c\x83\x72\xa2\xc6\xd3\x35\x65\x61\xe7\x50";
    let dual =
        b"\xe0\xf2\x83\x88\x7a\xa0\x90\xe9\x0e\x6e\x6e\x3c\xce\xad\xca\xd7\xeb\xe0\xf8\xb4\x53\xcf\x43\x6b\x9c\x3a\xa3\xf6\xa6\x9e\xef\x0a";
    let vsxe =
        b"\x79\xda\xd1\xcc\xa5\xb6\x31\x6c\x8c\xee\x0e\x67\x01\xc2\x7d\x8a\x37\xd4\xf0\xcd\x56\x07\x85\x4e\x23\xa2\x71\x56\x71\x2c\x4b\xd8";
    for (which, want) in [
        (Sample::Single, single),
        (Sample::Dual, dual),
        (Sample::Vsxe, vsxe),
    ] {
        let image = sample(rt.alloc(), which)?;
        assert_eq!(rt; image.len(), 110_592);
        assert_eq!(rt; &Sha256::digest(image.as_slice()), want);
    }
    Ok(())
}

#[test]
fn single_has_its_header(rt: HostRuntime) -> Result<(), Fail> {
    let image = sample(rt.alloc(), Sample::Single)?;
    assert!(rt; image[0x100..].starts_with(b"DISA\x00\x00\x04\x00\x01\x00\x00\x00"));
    assert!(rt; image[0x110..].starts_with(b"\x00\x02\x00\x00\x00\x00\x00\x00"));
    assert!(rt; image[0x118..].starts_with(b"\x00\x04\x00\x00\x00\x00\x00\x00"));
    assert!(rt; image[0x120..].starts_with(b"\x2c\x01\x00\x00\x00\x00\x00\x00"));
    assert!(rt; image[0x148..].starts_with(b"\x00\x10\x00\x00\x00\x00\x00\x00"));
    assert!(rt; image[0x150..].starts_with(b"\x00\xa0\x01\x00\x00\x00\x00\x00"));
    assert_eq!(rt; image[0x168], 0);
    Ok(())
}

#[test]
fn single_has_the_places_of_its_levels(rt: HostRuntime) -> Result<(), Fail> {
    let image = sample(rt.alloc(), Sample::Single)?;
    let hash_levels = [
        (0x10, 0),
        (0x18, 32),
        (0x28, 4096),
        (0x30, 32),
        (0x40, 8192),
        (0x48, 288),
        (0x58, 12_288),
        (0x60, 34_816),
    ];
    assert_numbers(&rt, &image, 1024 + 0x44, &hash_levels);
    let copied_levels = [
        (0x08, 0),
        (0x10, 4),
        (0x20, 4096),
        (0x28, 128),
        (0x38, 8192),
        (0x40, 49_152),
    ];
    assert_numbers(&rt, &image, 1024 + 0xBC, &copied_levels);
    Ok(())
}

#[test]
fn single_has_its_filesystem(rt: HostRuntime) -> Result<(), Fail> {
    let image = sample(rt.alloc(), Sample::Single)?;
    let level = &image[LEVEL_FOUR..];
    assert!(rt; level.starts_with(b"SAVE\x00\x00\x04\x00\x20\x00\x00\x00\x00\x00\x00\x00"));
    assert!(rt;
        level[16..].starts_with(b"\xd8\x00\x00\x00\x00\x00\x00\x00\x00\x02\x00\x00\x00\x00\x00\x00")
    );
    let information = [
        (0x08, 136),
        (0x10, 9),
        (0x18, 172),
        (0x20, 9),
        (0x28, 208),
        (0x30, 66),
        (0x38, 1024),
        (0x40, 66),
        (0x48, 0x1_0000_0000),
        (0x50, 8),
        (0x58, 0x1_0000_0001),
        (0x60, 8),
    ];
    assert_numbers(&rt, &image, LEVEL_FOUR + 0x20, &information);
    // The root stands in bucket 0 of 9, and all other buckets are empty.
    assert_numbers(&rt, &image, LEVEL_FOUR + 136, &[(0, 1), (8, 0), (32, 0)]);
    // Two entries used with room for ten, one with room for nine.
    assert_numbers(
        &rt,
        &image,
        LEVEL_FOUR,
        &[(1024, 0xA_0000_0002), (1536, 0x9_0000_0001)],
    );
    Ok(())
}

#[test]
fn single_has_its_allocation_entries(rt: HostRuntime) -> Result<(), Fail> {
    let image = sample(rt.alloc(), Sample::Single)?;
    let table = &image[LEVEL_FOUR + 208..];
    assert!(rt; table.starts_with(b"\x00\x00\x00\x00\x03\x00\x00\x00"));
    assert!(rt; table[8..].starts_with(b"\x00\x00\x00\x80\x00\x00\x00\x00"));
    assert!(rt; table[16..].starts_with(b"\x00\x00\x00\x80\x00\x00\x00\x00"));
    assert!(rt; table[24..].starts_with(b"\x00\x00\x00\x00\x00\x00\x00\x80"));
    assert!(rt; table[32..].starts_with(b"\x03\x00\x00\x80\x42\x00\x00\x00"));
    assert!(rt; table[8 * 66..].starts_with(b"\x03\x00\x00\x80\x42\x00\x00\x00"));
    Ok(())
}

#[test]
fn single_is_hashed_level_by_level(rt: HostRuntime) -> Result<(), Fail> {
    let image = sample(rt.alloc(), Sample::Single)?;
    let level_one = 4096 + 8192;
    let blocks = [
        (LEVEL_FOUR, 4096, level_one + 8192),
        (level_one + 8192, 4096, level_one + 4096),
        (level_one + 4096, 512, level_one),
        (level_one, 512, 1024 + 0x10C),
        (1024, 300, 0x16C),
    ];
    assert_digests(&rt, &image, &blocks);
    // The other eight blocks of level four were never written.
    assert!(rt; image[level_one + 8192 + 32..].starts_with(&[0u8; 256]));
    Ok(())
}

#[test]
fn dual_has_two_partitions(rt: HostRuntime) -> Result<(), Fail> {
    let image = sample(rt.alloc(), Sample::Dual)?;
    let header = [
        (0x08, 2),
        (0x10, 512),
        (0x18, 1536),
        (0x20, 604),
        (0x28, 0),
        (0x30, 300),
        (0x38, 304),
        (0x40, 300),
        (0x48, 4096),
        (0x50, 40_960),
        (0x58, 45_056),
        (0x60, 65_536),
    ];
    assert_numbers(&rt, &image, 0x100, &header);
    // Level four and level 3 of the double-copy tree: 1,560 and 16,384 bytes in part 0.
    assert_numbers(&rt, &image, 1536, &[(0xA4, 1560), (0xFC, 16_384)]);
    // Part 1's level four lies outside, and its master hash is zeros.
    assert_eq!(rt; image[1840 + 0x38], 1);
    assert_numbers(
        &rt,
        &image,
        1840,
        &[(0x3C, 32_768), (0xA4, 32_768), (0xFC, 12_288)],
    );
    assert!(rt; image[1840 + 0x10C..].starts_with(&[0u8; 32]));
    assert_digests(
        &rt,
        &image,
        &[(LEVEL_FOUR, 4096, 20_480), (1536, 604, 0x16C)],
    );
    Ok(())
}

#[test]
fn dual_has_its_tables_in_part_0(rt: HostRuntime) -> Result<(), Fail> {
    let image = sample(rt.alloc(), Sample::Dual)?;
    let information = [
        (0x28, 208),
        (0x30, 64),
        (0x38, 0),
        (0x40, 64),
        (0x48, 728),
        (0x50, 8),
        (0x58, 1128),
        (0x60, 8),
    ];
    assert_numbers(&rt, &image, LEVEL_FOUR + 0x20, &information);
    assert_numbers(
        &rt,
        &image,
        LEVEL_FOUR,
        &[(728, 0xA_0000_0002), (1128, 0x9_0000_0001)],
    );
    // One free node of the entries 1 to 64.
    let table = [
        (0, 0x1_0000_0000),
        (8, 0x8000_0000_0000_0000),
        (16, 0x40_8000_0001),
        (512, 0x40_8000_0001),
    ];
    assert_numbers(&rt, &image, LEVEL_FOUR + 208, &table);
    Ok(())
}

#[test]
fn loose_is_dual_with_its_partitions_turned(rt: HostRuntime) -> Result<(), Fail> {
    let image = sample(rt.alloc(), Sample::Loose)?;
    let places = [
        (0x08, 2),
        (0x10, 512),
        (0x18, 1536),
        (0x20, 604),
        (0x28, 304),
        (0x30, 300),
        (0x38, 0),
        (0x40, 300),
        (0x48, 45_056),
        (0x50, 65_536),
        (0x58, 4096),
        (0x60, 40_960),
    ];
    assert_numbers(&rt, &image, 0x100, &places);
    let dual = sample(rt.alloc(), Sample::Dual)?;
    assert!(rt; image[0x168..].starts_with(&dual[0x168..]));
    Ok(())
}

#[test]
fn single_has_its_descriptor(rt: HostRuntime) -> Result<(), Fail> {
    let image = sample(rt.alloc(), Sample::Single)?;
    let table = &image[1024..1324];
    assert_eq!(rt; Difi::read(table, 0, 300, 106_496), Ok(LONE_DIFI));
    Ok(())
}

#[test]
fn vsxe_has_its_header_and_filesystem(rt: HostRuntime) -> Result<(), Fail> {
    let image = sample(rt.alloc(), Sample::Vsxe)?;
    assert!(rt; image[0x100..].starts_with(b"DIFF\x00\x00\x03\x00"));
    let header = [
        (0x08, 512),
        (0x10, 1024),
        (0x18, 300),
        (0x20, 4096),
        (0x28, 106_496),
        (0x54, 0),
    ];
    assert_numbers(&rt, &image, 0x100, &header);
    assert!(rt; image[LEVEL_FOUR..].starts_with(b"VSXE\x00\x00\x03\x00\x38\x01\x00\x00"));
    let information = [
        (0x08, 416),
        (0x18, 452),
        (0x28, 488),
        (0x30, 66),
        (0x38, 1024),
    ];
    assert_numbers(&rt, &image, LEVEL_FOUR + 0x138, &information);
    assert_digests(
        &rt,
        &image,
        &[(LEVEL_FOUR, 4096, 20_480), (1024, 300, 0x134)],
    );
    Ok(())
}
