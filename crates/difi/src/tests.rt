ghost use Rattle.std.specs.Prelude.{◌+◌, ◌≤◌, length};

use super::*;
use save_bytes::{Extent, set_u64};
use std::process::Abort;
use std::test::Fail;

const PART_LEN: u64 = 106_496;

/// The descriptor of a new image for 64 blocks, 8 directories and 8 files: the eight bytes at each
/// offset. A name and a version make one such field, and a logarithm and the bytes behind it.
const SINGLE: [(usize, u64); 31] = [
    (0x00, 0x0001_0000_4946_4944),
    (0x08, 0x44),
    (0x10, 0x78),
    (0x18, 0xBC),
    (0x20, 0x50),
    (0x28, 0x10C),
    (0x30, 32),
    (0x44, 0x0002_0000_4346_5649),
    (0x4C, 32),
    (0x54, 0),
    (0x5C, 32),
    (0x64, 9),
    (0x6C, 4096),
    (0x74, 32),
    (0x7C, 9),
    (0x84, 8192),
    (0x8C, 288),
    (0x94, 12),
    (0x9C, 12288),
    (0xA4, 34816),
    (0xAC, 12),
    (0xB4, 0x78),
    (0xBC, 0x0001_0000_5346_5044),
    (0xC4, 0),
    (0xCC, 4),
    (0xDC, 4096),
    (0xE4, 128),
    (0xEC, 7),
    (0xF4, 8192),
    (0xFC, 49152),
    (0x104, 12),
];

const EXTERNAL_PART_LEN: u64 = 65_536;

/// What a descriptor has instead whose level four of 64 blocks is external, from 32,768 on.
const EXTERNAL: [(usize, u64); 6] = [
    (0x38, 1),
    (0x3C, 32768),
    (0x8C, 256),
    (0x9C, 0),
    (0xA4, 32768),
    (0xFC, 12288),
];

fn put(rt: &impl Abort, table: &mut [u8], place: usize, fields: &[(usize, u64)])
    requires { place + 300 ≤ length table.old }
{
    for &(offset, value) in fields {
        assert!(rt; offset <= 292);
        set_u64(table, place + offset, value);
    }
}

fn changed(rt: &impl Abort, part_len: u64, changes: &[(usize, u64)]) -> Result<Difi, DifiFault> {
    let mut table = [0u8; 300];
    put(rt, &mut table, 0, &SINGLE);
    put(rt, &mut table, 0, changes);
    Difi::read(&table, 0, 300, part_len)
}

fn level(at: u64, size: u64, log: u32) -> LevelPlace {
    LevelPlace { at, size, log }
}

/// What a made descriptor says.
fn made() -> Difi {
    Difi {
        place: 0,
        ivfc_at: 0x44,
        dpfs_at: 0xBC,
        master: Extent {
            at: 0x10C,
            size: 32,
        },
        external: false,
        external_at: 0,
        selector: 0,
        ivfc1: level(0, 32, 9),
        ivfc2: level(4096, 32, 9),
        ivfc3: level(8192, 288, 12),
        ivfc4: level(12288, 34816, 12),
        dpfs1: level(0, 4, 0),
        dpfs2: level(4096, 128, 7),
        dpfs3: level(8192, 49152, 12),
    }
}

#[test]
fn a_made_descriptor_is_read(rt: HostRuntime) {
    assert_eq!(rt; changed(&rt, PART_LEN, &[]), Ok(made()));
}

#[test]
fn a_second_descriptor_with_external_level_four_is_read(rt: HostRuntime) {
    let mut table = [0xFFu8; 604];
    put(&rt, &mut table, 304, &SINGLE);
    put(&rt, &mut table, 304, &EXTERNAL);
    let expected = Difi {
        place: 304,
        external: true,
        external_at: 32768,
        ivfc3: level(8192, 256, 12),
        ivfc4: level(0, 32768, 12),
        dpfs1: level(0, 4, 0xFFFF_FFFF),
        dpfs3: level(8192, 12288, 12),
        ..made()
    };
    assert_eq!(rt;
        Difi::read(&table, 304, 300, EXTERNAL_PART_LEN),
        Ok(expected)
    );
}

/// A fault for each condition, in their order. Each change leaves the conditions before it as they are.
const FAULTS: [(usize, u64, DifiFault); 19] = [
    (0x00, 0x0001_0000_4946_4945, DifiFault::Magic { which: 1 }),
    (0x04, 0x0000_0044_0001_0001, DifiFault::Version { which: 1 }),
    (0x10, 0x77, DifiFault::Layout { condition: 1 }),
    (0x20, 0x4F, DifiFault::Layout { condition: 2 }),
    (0x30, 64, DifiFault::Layout { condition: 3 }),
    (0x28, 0x10B, DifiFault::Layout { condition: 4 }),
    (0x39, 2, DifiFault::Layout { condition: 5 }),
    (0x44, 0x0002_0000_4346_5648, DifiFault::Magic { which: 2 }),
    (0x48, 0x0001_0000, DifiFault::Version { which: 2 }),
    (0xBC, 0x0001_0000_5246_5044, DifiFault::Magic { which: 3 }),
    (0xC0, 0x0002_0000, DifiFault::Version { which: 3 }),
    (0xEC, 6, DifiFault::Layout { condition: 6 }),
    (0xCC, 0, DifiFault::Layout { condition: 7 }),
    (0xE4, 3, DifiFault::Layout { condition: 8 }),
    (0xDC, 0, DifiFault::Layout { condition: 9 }),
    (0x5C, 0, DifiFault::Layout { condition: 10 }),
    (0x84, 4096, DifiFault::Layout { condition: 11 }),
    (0x31, 1 << 56, DifiFault::Layout { condition: 12 }),
    (0x74, 1, DifiFault::Layout { condition: 13 }),
];

#[test]
fn each_fault_is_named_before_those_behind_it(rt: HostRuntime) {
    for first in 0..FAULTS.len() {
        let (at, value, fault) = FAULTS[first];
        assert_eq!(rt; changed(&rt, PART_LEN, &[(at, value)]), Err(fault), "alone");
        let mut table = [0u8; 300];
        put(&rt, &mut table, 0, &SINGLE);
        for (at, value, _) in &FAULTS[first..] {
            put(&rt, &mut table, 0, &[(*at, *value)]);
        }
        assert_eq!(rt;
            Difi::read(&table, 0, 300, PART_LEN),
            Err(fault),
            "with all behind it"
        );
    }
}

const MAX: u64 = u64::MAX;

/// Changes that leave every condition as it is, up to its edge.
const HOLD: [(usize, u64); 14] = [
    (0x10, 232),
    (0x20, 112),
    (0x39, 1),
    (0xEC, 16),
    (0x104, 16),
    (0x64, 16),
    (0x7C, 16),
    (0x94, 16),
    (0xAC, 16),
    (0xD4, 0xFFFF_FFFF),
    (0xE4, 4),
    (0xDC, 8),
    (0xDC, 7936),
    (0xA4, 36864),
];

/// Changes past an edge, and the condition of the layout that they break.
const BREAK: [(u8, usize, u64); 51] = [
    (1, 0x10, 233),
    (1, 0x10, MAX),
    (1, 0x08, MAX - 0x77),
    (2, 0x20, 113),
    (2, 0x18, MAX - 0x4F),
    (3, 0x30, 33),
    (3, 0x28, MAX - 31),
    (4, 0x08, 0x43),
    (4, 0x18, 0xBB),
    (4, 0x28, 0x10B),
    (5, 0x39, 255),
    (6, 0xEC, 6),
    (6, 0xEC, 17),
    (6, 0x104, 6),
    (6, 0x104, 17),
    (6, 0x64, 8),
    (6, 0x64, 17),
    (6, 0x7C, 8),
    (6, 0x7C, 17),
    (6, 0x94, 8),
    (6, 0x94, 17),
    (6, 0xAC, 8),
    (6, 0xAC, 17),
    (6, 0xAC, 0xFFFF_FFFF),
    (7, 0xCC, 0),
    (7, 0xE4, 0),
    (7, 0xFC, 0),
    (7, 0xFC, 49153),
    (7, 0xE4, 1 << 63),
    (7, 0xF4, MAX - 98303),
    (8, 0xCC, 3),
    (8, 0xE4, 3),
    (9, 0xDC, 7),
    (9, 0xDC, 7937),
    (10, 0x5C, 0),
    (10, 0x74, 0),
    (10, 0x8C, 0),
    (10, 0xA4, 0),
    (10, 0xA4, 36865),
    (10, 0x54, MAX),
    (10, 0x6C, 49121),
    (10, 0x84, 48865),
    (10, 0x9C, MAX - 34815),
    (11, 0x6C, 31),
    (11, 0x84, 4127),
    (11, 0x9C, 8479),
    (13, 0x30, 31),
    (13, 0x5C, 31),
    (13, 0x74, 31),
    (13, 0x8C, 287),
    (13, 0x8C, 256),
];

#[test]
fn each_condition_holds_up_to_its_edge(rt: HostRuntime) {
    for (at, value) in HOLD {
        let read = changed(&rt, PART_LEN, &[(at, value)]);
        assert!(rt; read.is_ok(), "{value} at {at}");
    }
    for (condition, at, value) in BREAK {
        let read = changed(&rt, PART_LEN, &[(at, value)]);
        assert_eq!(rt;
            read,
            Err(DifiFault::Layout { condition }),
            "{value} at {at}"
        );
    }
    assert_eq!(rt;
        changed(&rt, PART_LEN - 1, &[]),
        Err(DifiFault::Layout { condition: 7 })
    );
}

#[test]
fn an_empty_master_hash_overlaps_nothing(rt: HostRuntime) {
    let read = changed(&rt, PART_LEN, &[(0x28, 0x50), (0x30, 0)]);
    assert_eq!(rt; read, Err(DifiFault::Layout { condition: 13 }));
}

#[test]
fn bits_fill_whole_words(rt: HostRuntime) {
    for (blocks_size, bits_size, fits) in [
        (49152, 48, true),
        (49152, 47, false),
        (49153, 52, true),
        (49153, 51, false),
    ] {
        let read = changed(
            &rt,
            PART_LEN + 2,
            &[(0x104, 7), (0xFC, blocks_size), (0xE4, bits_size)],
        );
        if fits {
            assert!(rt; read.is_ok(), "{bits_size}");
        } else {
            assert_eq!(rt;
                read,
                Err(DifiFault::Layout { condition: 8 }),
                "{bits_size}"
            );
        }
    }
}

#[test]
fn external_level_four_lies_in_the_partition(rt: HostRuntime) {
    for (at, value, part_len, holds) in [
        (0x9C, MAX, EXTERNAL_PART_LEN, true),
        (0x9C, 0, EXTERNAL_PART_LEN - 1, false),
        (0x3C, 32767, EXTERNAL_PART_LEN, false),
        (0x3C, 32769, EXTERNAL_PART_LEN, false),
        (0x3C, 32769, EXTERNAL_PART_LEN + 1, true),
        (0x3C, MAX - 32767, EXTERNAL_PART_LEN, false),
    ] {
        let mut table = [0u8; 300];
        put(&rt, &mut table, 0, &SINGLE);
        put(&rt, &mut table, 0, &EXTERNAL);
        put(&rt, &mut table, 0, &[(at, value)]);
        let read = Difi::read(&table, 0, 300, part_len);
        if holds {
            assert!(rt; read.is_ok(), "{value} at {at}");
        } else {
            assert_eq!(rt;
                read,
                Err(DifiFault::Layout { condition: 12 }),
                "{value} at {at}"
            );
        }
    }
}

#[test]
fn a_patch_changes_the_selector_alone(rt: HostRuntime) -> Result<(), Fail> {
    let mut table = [0u8; 604];
    put(&rt, &mut table, 304, &SINGLE);
    let mut expected = table;
    expected[304 + 0x39] = 1;
    let difi = Difi::read(&table, 304, 300, PART_LEN)?;
    assert_eq!(rt; difi.place, 304);
    difi.patch(&mut table, 1);
    assert_eq!(rt; table, expected);
    let patched = Difi {
        selector: 1,
        ..difi
    };
    assert_eq!(rt; Difi::read(&table, 304, 300, PART_LEN), Ok(patched));
    Ok(())
}
