//! Tests of the images that hold a file, and of changes.

use super::*;
use crate::tests::{assert_digests, assert_numbers};
use sha2::{Digest, Sha256};
use std::test::Fail;

/// Part 0's level four, where the tables are chains.
const LEVEL_FOUR: usize = 24_576;

// The digests are those of images that were made once in another language, from the format alone.
#[test]
fn tree_and_holes_are_those_of_a_second_writing(rt: HostRuntime) -> Result<(), Fail> {
    let tree =
        b"\x9f\x4a\x7c\x37\x8a\xec\x5e\xb0\x17\x28\xde\x21\xbd\x0a\x52\xf7\x48\xcf\xbf\xc6\xfc\x9b\x46\x3c\x53\x08\x04\x7a\xd2\x2b\x6c\x33";
    let holes =
        b"\x52\x4b\x49\x08\x81\x8e\xd6\x37\xd1\x40\xa1\xb0\xb1\x13\x2c\xc3\x34\x8c\x7e\xe0\x36\x88\xea\x14\x5f\x89\x53\x7a\x21\x07\x5b\x42";
    for (which, want) in [(Sample::Tree, tree), (Sample::Holes, holes)] {
        let image = sample(rt.alloc(), which)?;
        assert_eq!(rt; &Sha256::digest(image.as_slice()), want);
    }
    Ok(())
}

#[test]
fn tree_has_its_directory_and_its_file(rt: HostRuntime) -> Result<(), Fail> {
    let image = sample(rt.alloc(), Sample::Tree)?;
    let level = &image[LEVEL_FOUR..];
    // Bucket 6 of the directories has entry 2, and bucket 5 of the files entry 1.
    assert!(rt;
        level[136..].starts_with(b"\x01\0\0\0\0\0\0\0\0\0\0\0\0\0\0\0\0\0\0\0\0\0\0\0\x02\0\0\0")
    );
    assert!(rt; level[172..].starts_with(b"\0\0\0\0\0\0\0\0\0\0\0\0\0\0\0\0\0\0\0\0\x01\0\0\0"));
    // Entry 3 is a chain of its own, and 4 to 66 are free.
    assert!(rt; level[208..].starts_with(b"\0\0\0\0\x04\0\0\0"));
    assert!(rt;
        level[232..].starts_with(b"\0\0\0\x80\0\0\0\0\0\0\0\0\0\0\0\x80\x04\0\0\x80\x42\0\0\0")
    );
    assert!(rt; level[736..].starts_with(b"\x04\0\0\x80\x42\0\0\0"));
    assert!(rt; level[1104..].starts_with(b"\x01\0\0\0a\0"));
    assert!(rt; level[1584..].starts_with(b"\x02\0\0\0x\0"));
    assert!(rt; level[2048..].starts_with(b"xyz\0"));
    // Entries up to 2 and up to 1 are used. The root has directory 2, which has file 1, which begins with block 2.
    let fields = [
        (1024, 0xA_0000_0003),
        (1536, 0x9_0000_0002),
        (1088, 2),
        (1132, 1),
        (1612, 0x3_0000_0002),
    ];
    assert_numbers(&rt, &image, LEVEL_FOUR, &fields);
    Ok(())
}

#[test]
fn holes_has_a_file_that_was_never_written(rt: HostRuntime) -> Result<(), Fail> {
    let image = sample(rt.alloc(), Sample::Holes)?;
    let level = &image[LEVEL_FOUR..];
    // Entries 3 to 20 and 23 to 66 are free, and 21 and 22 a chain.
    assert!(rt; level[208..].starts_with(b"\0\0\0\0\x03\0\0\0"));
    assert!(rt; level[232..].starts_with(b"\0\0\0\0\x17\0\0\x80\x03\0\0\x80\x14\0\0\0"));
    assert!(rt;
        level[368..].starts_with(
            b"\x03\0\0\x80\x14\0\0\0\0\0\0\x80\0\0\0\x80\x15\0\0\x80\x16\0\0\0"
        )
    );
    assert!(rt; level[392..].starts_with(b"\x03\0\0\0\0\0\0\x80\x17\0\0\x80\x42\0\0\0"));
    assert!(rt; level[736..].starts_with(b"\x17\0\0\x80\x42\0\0\0"));
    assert!(rt; level[1584..].starts_with(b"\x01\0\0\0u\0"));
    // The root has file 1, which begins with block 20 and has 1,000 bytes. Block 2 of level four has no digest.
    let fields = [(1092, 1), (1612, 1000 << 32 | 20), (180, 1)];
    assert_numbers(&rt, &image, LEVEL_FOUR, &fields);
    assert!(rt; image[20_480 + 32..].starts_with(&[0u8; 256]));
    Ok(())
}

#[test]
fn the_changes_that_make_tree_of_single_make_tree(rt: HostRuntime) -> Result<(), Fail> {
    let changes: [(u64, &[u8]); 14] = [
        (160, &[2]),
        (192, &[1]),
        (212, &[4]),
        (235, &[128, 0, 0, 0, 0]),
        (240, &[0, 0, 0, 0, 0, 0, 0, 128, 4, 0, 0, 128, 66]),
        (736, &[4]),
        (1024, &[3]),
        (1088, &[2]),
        (1104, &[1, 0, 0, 0, 97]),
        (1132, &[1]),
        (1536, &[2]),
        (1584, &[2, 0, 0, 0, 120]),
        (1612, &[2, 0, 0, 0, 3]),
        (2048, b"xyz"),
    ];
    let mut image = sample(rt.alloc(), Sample::Single)?;
    for (at, bytes) in changes {
        assert!(rt; at <= 2048 && bytes.len() <= 16);
        change(&mut image, at, bytes);
    }
    let tree = sample(rt.alloc(), Sample::Tree)?;
    assert!(rt; image.as_slice() == tree.as_slice());
    Ok(())
}

#[test]
fn a_change_over_two_blocks_writes_both(rt: HostRuntime) -> Result<(), Fail> {
    let mut image = sample(rt.alloc(), Sample::Holes)?;
    change(&mut image, 12_287, &[7, 8]);
    change(&mut image, 34_815, &[9]);
    assert_eq!(rt; image[LEVEL_FOUR + 12_287], 7);
    assert_eq!(rt; image[LEVEL_FOUR + 12_288], 8);
    assert_eq!(rt; image[LEVEL_FOUR + 34_815], 9);
    let blocks = [
        (LEVEL_FOUR, 4096, 20_480),
        (LEVEL_FOUR + 8192, 4096, 20_544),
        (LEVEL_FOUR + 12_288, 4096, 20_576),
        (LEVEL_FOUR + 32_768, 4096, 20_736),
        (20_480, 4096, 16_384),
        (16_384, 512, 12_288),
        (12_288, 512, 1024 + 0x10C),
        (1024, 300, 0x16C),
    ];
    assert_digests(&rt, &image, &blocks);
    // Block 1, and those from 4 to 7, were never written.
    assert!(rt; image[20_512..].starts_with(&[0u8; 32]));
    assert!(rt; image[20_608..].starts_with(&[0u8; 128]));
    Ok(())
}

#[test]
fn each_kind_is_changed_where_its_part_0_lies(rt: HostRuntime) -> Result<(), Fail> {
    let mut vsxe = sample(rt.alloc(), Sample::Vsxe)?;
    change(&mut vsxe, 0, b"W");
    assert_digests(
        &rt,
        &vsxe,
        &[
            (LEVEL_FOUR, 4096, 20_480),
            (12_288, 512, 1024 + 0x10C),
            (1024, 300, 0x134),
        ],
    );
    let mut dual = sample(rt.alloc(), Sample::Dual)?;
    change(&mut dual, 1559, &[1, 2]);
    assert!(rt; dual[LEVEL_FOUR + 1559..].starts_with(&[1, 0]));
    assert_digests(
        &rt,
        &dual,
        &[
            (LEVEL_FOUR, 4096, 20_480),
            (12_288, 512, 1536 + 0x10C),
            (1536, 604, 0x16C),
        ],
    );
    let mut loose = sample(rt.alloc(), Sample::Loose)?;
    change(&mut loose, 24_575, &[3]);
    assert_eq!(rt; loose[102_399], 3);
    assert_digests(
        &rt,
        &loose,
        &[
            (77_824 + 20_480, 4096, 61_440 + 160),
            (61_440, 4096, 57_344),
            (57_344, 512, 53_248),
            (53_248, 512, 1840 + 0x10C),
            (1536, 604, 0x16C),
        ],
    );
    Ok(())
}

#[test]
fn a_changed_table_has_its_digest(rt: HostRuntime) -> Result<(), Fail> {
    for (which, at, size, digest) in [
        (Sample::Tree, 1024, 300, 0x16C),
        (Sample::Dual, 1536, 604, 0x16C),
        (Sample::Vsxe, 1024, 300, 0x134),
    ] {
        let mut image = sample(rt.alloc(), which)?;
        change_table(&mut image, 0xDC, &[0; 8]);
        change_table(&mut image, 298, &[5; 306]);
        assert!(rt; image[at + 0xDC..].starts_with(&[0; 8]));
        assert_eq!(rt; image[at + size - 1], 5);
        assert_eq!(rt; image[at + size], 0);
        assert_digests(&rt, &image, &[(at, size, digest)]);
    }
    Ok(())
}

#[test]
fn what_lies_behind_the_end_is_left_out(rt: HostRuntime) -> Result<(), Fail> {
    let dual = sample(rt.alloc(), Sample::Dual)?;
    let mut image = sample(rt.alloc(), Sample::Dual)?;
    change(&mut image, 1560, &[1; 4096]);
    change(&mut image, 0, &[]);
    assert!(rt; image.as_slice() == dual.as_slice());
    Ok(())
}
