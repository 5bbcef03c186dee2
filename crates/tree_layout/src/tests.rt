//! The layout of made filesystems, each condition just met and just not, and reading a header.

use super::*;
use entry_tables::Counts;
use save_bytes::{Bad, MemSpace};
use save_samples::{Sample, sample};
use std::test::Fail;
use tree_rules::{Information, TableFields, TreeKind};

/// The made filesystem of 64 data blocks of 512 bytes, 8 directories and 8 files, in one part of 34,816 bytes.
const SINGLE: Information = Information {
    at: 0x20,
    block: 512,
    dirs: TableFields {
        buckets_at: 136,
        buckets: 9,
        table_at: 0x1_0000_0000,
        first: 0,
        blocks: 1,
    },
    files: TableFields {
        buckets_at: 172,
        buckets: 9,
        table_at: 0x1_0000_0001,
        first: 1,
        blocks: 1,
    },
    chain_at: 208,
    count: 66,
    region_at: 1024,
};

const SINGLE_SIZE: u64 = 34_816;

/// The same in two parts: the first has 1,560 bytes, the second 64 data blocks.
const DUAL: Information = Information {
    at: 0x20,
    block: 512,
    dirs: TableFields {
        buckets_at: 136,
        buckets: 9,
        table_at: 728,
        first: 728,
        blocks: 0,
    },
    files: TableFields {
        buckets_at: 172,
        buckets: 9,
        table_at: 1128,
        first: 1128,
        blocks: 0,
    },
    chain_at: 208,
    count: 64,
    region_at: 0,
};

const DUAL_SPLIT: u64 = 1560;

const DUAL_SIZE: u64 = 34_328;

const DIRS: Counts = Counts { count: 2, most: 10 };

const FILES: Counts = Counts { count: 1, most: 9 };

/// The first condition on the beginning of things that fails, in one part.
fn in_one(info: &Information) -> Option<u8> {
    place_fault(TreeKind::Save, None, SINGLE_SIZE, info)
}

/// The same in two parts.
fn in_two(info: &Information) -> Option<u8> {
    place_fault(TreeKind::Save, Some(DUAL_SPLIT), DUAL_SIZE, info)
}

/// The first condition on the tables that fails, in one part.
fn tables_in_one(info: &Information, dirs: Counts, files: Counts) -> Option<u8> {
    table_fault(TreeKind::Save, None, SINGLE_SIZE, info, dirs, files)
}

fn tables_in_two(info: &Information, dirs: Counts, files: Counts) -> Option<u8> {
    table_fault(
        TreeKind::Save,
        Some(DUAL_SPLIT),
        DUAL_SIZE,
        info,
        dirs,
        files,
    )
}

#[test]
fn made_filesystems_meet_each_condition(rt: HostRuntime) -> Result<(), Fail> {
    assert_eq!(rt; in_one(&SINGLE), None);
    assert_eq!(rt; tables_in_one(&SINGLE, DIRS, FILES), None);
    assert_eq!(rt; in_two(&DUAL), None);
    assert_eq!(rt; tables_in_two(&DUAL, DIRS, FILES), None);
    Ok(())
}

#[test]
fn information_lies_behind_the_header_in_the_first_part(rt: HostRuntime) -> Result<(), Fail> {
    for (at, want) in [
        (0x1f, Some(1)),
        (0x20, None),
        (SINGLE_SIZE - 0x68, None),
        (SINGLE_SIZE - 0x67, Some(1)),
        (u64::MAX, Some(1)),
    ] {
        assert_eq!(rt; in_one(&Information { at, ..SINGLE }), want);
    }
    for (at, want) in [(DUAL_SPLIT - 0x68, None), (DUAL_SPLIT - 0x67, Some(1))] {
        assert_eq!(rt; in_two(&Information { at, ..DUAL }), want);
    }
    Ok(())
}

#[test]
fn data_block_has_a_power_of_two(rt: HostRuntime) -> Result<(), Fail> {
    for (block, want) in [
        (0, Some(2)),
        (256, Some(2)),
        (511, Some(2)),
        (512, None),
        (513, Some(2)),
        (768, Some(2)),
        (1024, Some(5)),
        (65_536, Some(5)),
        (131_072, Some(2)),
    ] {
        assert_eq!(rt; in_one(&Information { block, ..SINGLE }), want);
    }
    Ok(())
}

#[test]
fn counts_have_limits(rt: HostRuntime) -> Result<(), Fail> {
    for (buckets, want) in [
        (0, Some(3)),
        (1, None),
        (32_768, Some(5)),
        (32_769, Some(3)),
    ] {
        let dirs = TableFields {
            buckets,
            ..SINGLE.dirs
        };
        assert_eq!(rt; in_one(&Information { dirs, ..SINGLE }), want);
        let files = TableFields {
            buckets,
            ..SINGLE.files
        };
        assert_eq!(rt; in_one(&Information { files, ..SINGLE }), want);
    }
    for (count, want) in [
        (0, Some(4)),
        (65, None),
        (67, Some(5)),
        (131_072, Some(5)),
        (131_073, Some(4)),
    ] {
        assert_eq!(rt; in_one(&Information { count, ..SINGLE }), want);
    }
    Ok(())
}

#[test]
fn beginnings_lie_inside(rt: HostRuntime) -> Result<(), Fail> {
    for (buckets_at, want) in [(SINGLE_SIZE - 36, None), (SINGLE_SIZE - 35, Some(5))] {
        let dirs = TableFields {
            buckets_at,
            ..SINGLE.dirs
        };
        assert_eq!(rt; in_one(&Information { dirs, ..SINGLE }), want);
        let files = TableFields {
            buckets_at,
            ..SINGLE.files
        };
        assert_eq!(rt; in_one(&Information { files, ..SINGLE }), want);
    }
    // 67 entries of 8 bytes.
    for (chain_at, want) in [(SINGLE_SIZE - 536, None), (SINGLE_SIZE - 535, Some(5))] {
        assert_eq!(rt; in_one(&Information { chain_at, ..SINGLE }), want);
    }
    for (region_at, want) in [(1024, None), (1025, Some(5))] {
        assert_eq!(rt;
            in_one(&Information {
                region_at,
                ..SINGLE
            }),
            want
        );
        // In two parts the field is not looked at.
        assert_eq!(rt; in_two(&Information { region_at, ..DUAL }), None);
    }
    Ok(())
}

#[test]
fn tables_begin_inside(rt: HostRuntime) -> Result<(), Fail> {
    for (first, blocks, want) in [
        (65, 1, None),
        (66, 1, Some(5)),
        (0, 0, Some(5)),
        (0, 66, None),
        (0, 67, Some(5)),
    ] {
        let dirs = TableFields {
            first,
            blocks,
            ..SINGLE.dirs
        };
        assert_eq!(rt; in_one(&Information { dirs, ..SINGLE }), want);
        let files = TableFields {
            first,
            blocks,
            ..SINGLE.files
        };
        assert_eq!(rt; in_one(&Information { files, ..SINGLE }), want);
    }
    for (table_at, want) in [(DUAL_SPLIT - 0x28, None), (DUAL_SPLIT - 0x27, Some(5))] {
        let dirs = TableFields {
            table_at,
            ..DUAL.dirs
        };
        assert_eq!(rt; in_two(&Information { dirs, ..DUAL }), want);
    }
    for (table_at, want) in [(DUAL_SPLIT - 0x30, None), (DUAL_SPLIT - 0x2f, Some(5))] {
        let files = TableFields {
            table_at,
            ..DUAL.files
        };
        assert_eq!(rt; in_two(&Information { files, ..DUAL }), want);
    }
    Ok(())
}

#[test]
fn most_entries_have_limits_and_room(rt: HostRuntime) -> Result<(), Fail> {
    // Twelve entries of 40 bytes have room in a block of 512, thirteen have not.
    for (most, want) in [
        (1, Some(6)),
        (2, None),
        (12, None),
        (13, Some(7)),
        (8194, Some(7)),
        (8195, Some(6)),
    ] {
        let dirs = Counts { count: 2, most };
        assert_eq!(rt; tables_in_one(&SINGLE, dirs, FILES), want);
    }
    // Ten entries of 48 bytes.
    for (most, want) in [
        (0, Some(6)),
        (1, None),
        (10, None),
        (11, Some(7)),
        (8193, Some(7)),
        (8194, Some(6)),
    ] {
        let files = Counts { count: 1, most };
        assert_eq!(rt; tables_in_one(&SINGLE, DIRS, files), want);
    }
    // In two parts the files' table goes up to the first part's end: nine entries from 1,128 on.
    for (most, want) in [(9, None), (10, Some(7))] {
        let files = Counts { count: 1, most };
        assert_eq!(rt; tables_in_two(&DUAL, DIRS, files), want);
    }
    Ok(())
}

#[test]
fn no_more_entries_were_used_than_there_can_be(rt: HostRuntime) -> Result<(), Fail> {
    for (count, want) in [(1, Some(8)), (2, None), (10, None), (11, Some(8))] {
        let dirs = Counts { count, most: 10 };
        assert_eq!(rt; tables_in_one(&SINGLE, dirs, FILES), want);
    }
    for (count, want) in [(0, Some(8)), (1, None), (9, None), (10, Some(8))] {
        let files = Counts { count, most: 9 };
        assert_eq!(rt; tables_in_one(&SINGLE, DIRS, files), want);
    }
    Ok(())
}

#[test]
fn nothing_overlaps(rt: HostRuntime) -> Result<(), Fail> {
    // The information ends at 136, the allocation table at 744.
    for (buckets_at, want) in [(135, Some(9)), (136, None), (137, Some(9))] {
        let dirs = TableFields {
            buckets_at,
            ..SINGLE.dirs
        };
        let info = Information { dirs, ..SINGLE };
        assert_eq!(rt; tables_in_one(&info, DIRS, FILES), want);
    }
    for (region_at, want) in [(743, Some(9)), (744, None)] {
        let info = Information {
            region_at,
            ..SINGLE
        };
        assert_eq!(rt; tables_in_one(&info, DIRS, FILES), want);
    }
    // In two parts the allocation table ends at 728, and the directories' table at 1,128.
    for (table_at, want) in [(727, Some(9)), (728, None), (729, Some(9))] {
        let dirs = TableFields {
            table_at,
            ..DUAL.dirs
        };
        let info = Information { dirs, ..DUAL };
        assert_eq!(rt; tables_in_two(&info, DIRS, FILES), want);
    }
    Ok(())
}

#[test]
fn header_and_information_are_read(rt: HostRuntime) -> Result<(), Fail> {
    let mut image = sample(rt.alloc(), Sample::Single)?;
    // The first copy of the only part's level four.
    let contents = &mut image[24_576..59_392];
    let mut space = MemSpace::new(contents, 512);
    assert_eq!(rt; read_header(&mut space, TreeKind::Save), Ok(Some(0x20)));
    assert_eq!(rt; read_header(&mut space, TreeKind::Vsxe), Ok(None));
    assert_eq!(rt; read_information(&mut space, 0x20), Ok(SINGLE));
    Ok(())
}

/// What the header of these bytes says.
fn header_of(bytes: &mut [u8], kind: TreeKind) -> Result<Option<u64>, Bad> {
    let mut space = MemSpace::new(bytes, 512);
    read_header(&mut space, kind)
}

#[test]
fn other_beginnings_are_no_filesystem(rt: HostRuntime) -> Result<(), Fail> {
    let mut bytes = *b"SAVE\x00\x00\x04\x00\x20\x00\x00\x00\x00\x00\x00\x00________________";
    assert_eq!(rt; header_of(&mut bytes, TreeKind::Save), Ok(Some(0x20)));
    let mut short = *b"SAVE\x00\x00\x04\x00\x20\x00\x00\x00\x00\x00\x00\x00_______________";
    assert_eq!(rt; header_of(&mut short, TreeKind::Save), Ok(None));
    let mut version = *b"SAVE\x00\x00\x03\x00\x20\x00\x00\x00\x00\x00\x00\x00________________";
    assert_eq!(rt; header_of(&mut version, TreeKind::Save), Ok(None));
    let mut other = *b"VSXE\x00\x00\x03\x00\x38\x01\x00\x00\x00\x00\x00\x00________________";
    assert_eq!(rt; header_of(&mut other, TreeKind::Vsxe), Ok(Some(0x138)));
    assert_eq!(rt; header_of(&mut other, TreeKind::Save), Ok(None));
    Ok(())
}
