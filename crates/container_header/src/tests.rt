use super::*;
use save_bytes::{set_u32, set_u64};
use std::process::Abort;
use std::test::Fail;

/// The length of each of the images below.
const LEN: u64 = 110_592;

/// The largest number of 64 bits.
const TOP: u64 = 0xFFFF_FFFF_FFFF_FFFF;

/// An offset in the header, and the number of 64 bits that stands there.
type Field = (usize, u64);

/// A field of unused bytes.
const NONE: Field = (0xF8, 0);

/// Four fields that differ from the base, the image's length, and the condition that fails, 0 for
/// none.
type Row = (Field, Field, Field, Field, u64, u8);

fn with(rt: &impl Abort, sector: [u8; 512], fields: &[Field; 4]) -> [u8; 512] {
    let mut sector = sector;
    for i in 0..4 {
        let (offset, number) = fields[i];
        assert!(rt; offset <= 0xF8);
        set_u64(&mut sector, 0x100 + offset, number);
    }
    sector
}

/// A DISA with one partition.
fn single(rt: &impl Abort) -> [u8; 512] {
    let mut sector = [0; 512];
    sector[0x100..0x104].copy_from_slice(b"DISA");
    set_u32(&mut sector, 0x104, 0x40000);
    set_u32(&mut sector, 0x108, 1);
    let sector = with(
        rt,
        sector,
        &[(0x10, 512), (0x18, 1024), (0x20, 300), (0x30, 300)],
    );
    with(rt, sector, &[(0x48, 4096), (0x50, 106_496), NONE, NONE])
}

/// A DISA with two partitions.
fn dual(rt: &impl Abort) -> [u8; 512] {
    let mut sector = single(rt);
    set_u32(&mut sector, 0x108, 2);
    let sector = with(
        rt,
        sector,
        &[(0x18, 1536), (0x20, 604), (0x38, 304), (0x40, 300)],
    );
    with(
        rt,
        sector,
        &[(0x50, 40_960), (0x58, 45_056), (0x60, 65_536), NONE],
    )
}

/// A DIFF.
fn diff(rt: &impl Abort) -> [u8; 512] {
    let mut sector = [0; 512];
    sector[0x100..0x104].copy_from_slice(b"DIFF");
    set_u32(&mut sector, 0x104, 0x30000);
    let sector = with(
        rt,
        sector,
        &[(0x08, 512), (0x10, 1024), (0x18, 300), (0x20, 4096)],
    );
    with(rt, sector, &[(0x28, 106_496), NONE, NONE, NONE])
}

fn layout(condition: u8) -> Option<HeaderFault> {
    if condition == 0 {
        None
    } else {
        Some(HeaderFault::Layout { condition })
    }
}

fn reads_as(rt: &impl Abort, base: [u8; 512], rows: &[Row]) {
    for (a, b, c, d, len, condition) in rows {
        let fields = [*a, *b, *c, *d];
        let sector = with(rt, base, &fields);
        let fault = Header::read(&sector, *len).err();
        assert_eq!(rt; fault, layout(*condition), "{fields:?} in {len} bytes");
    }
}

static TABLES: [Row; 20] = [
    (NONE, NONE, NONE, NONE, LEN, 0),
    // The length.
    (NONE, NONE, NONE, NONE, 67_108_864, 0),
    (NONE, NONE, NONE, NONE, 67_108_865, 1),
    // The number of partitions.
    ((0x08, 0), NONE, NONE, NONE, LEN, 2),
    ((0x08, 3), NONE, NONE, NONE, LEN, 2),
    ((0x08, 257), NONE, NONE, NONE, LEN, 2),
    // The active byte.
    ((0x68, 1), NONE, NONE, NONE, LEN, 0),
    ((0x68, 2), NONE, NONE, NONE, LEN, 3),
    ((0x68, 255), NONE, NONE, NONE, LEN, 3),
    // The size of a table.
    ((0x20, 0x44), (0x30, 0x44), NONE, NONE, LEN, 0),
    ((0x20, 0x43), (0x30, 0x43), NONE, NONE, LEN, 4),
    (
        (0x20, 65_536),
        (0x18, 66_048),
        (0x48, 131_584),
        NONE,
        238_080,
        0,
    ),
    (
        (0x20, 65_537),
        (0x18, 66_049),
        (0x48, 131_586),
        NONE,
        238_082,
        4,
    ),
    // The primary table.
    ((0x18, 110_592), NONE, NONE, NONE, 110_892, 0),
    ((0x18, 110_592), NONE, NONE, NONE, 110_891, 5),
    ((0x18, 512), (0x10, 1024), NONE, NONE, LEN, 0),
    ((0x18, 511), (0x10, 1024), NONE, NONE, LEN, 5),
    // The secondary table.
    ((0x10, 110_592), NONE, NONE, NONE, 110_892, 0),
    ((0x10, 110_592), NONE, NONE, NONE, 110_891, 6),
    ((0x10, 511), NONE, NONE, NONE, LEN, 6),
];

#[test]
fn tables_are_held_to_their_bounds(rt: HostRuntime) {
    reads_as(&rt, single(&rt), &TABLES);
}

static DESCRIPTORS: [Row; 4] = [
    ((0x30, 0x44), NONE, NONE, NONE, LEN, 0),
    ((0x30, 0x43), NONE, NONE, NONE, LEN, 7),
    ((0x28, 232), (0x30, 68), NONE, NONE, LEN, 0),
    ((0x28, 233), (0x30, 68), NONE, NONE, LEN, 7),
];

static TWO_DESCRIPTORS: [Row; 10] = [
    (NONE, NONE, NONE, NONE, LEN, 0),
    ((0x38, 536), (0x40, 68), NONE, NONE, LEN, 0),
    ((0x38, 537), (0x40, 68), NONE, NONE, LEN, 8),
    ((0x38, 304), (0x40, 0x43), NONE, NONE, LEN, 8),
    // The two touch; overlap by a byte; B in A, A in B, and B before A.
    ((0x38, 300), NONE, NONE, NONE, LEN, 0),
    ((0x38, 299), NONE, NONE, NONE, LEN, 9),
    ((0x38, 100), (0x40, 68), NONE, NONE, LEN, 9),
    ((0x28, 100), (0x30, 68), (0x38, 0), (0x40, 604), LEN, 9),
    ((0x28, 300), (0x38, 0), (0x40, 300), NONE, LEN, 0),
    ((0x28, 299), (0x38, 0), (0x40, 300), NONE, LEN, 9),
];

#[test]
fn descriptors_are_held_to_their_bounds(rt: HostRuntime) {
    reads_as(&rt, single(&rt), &DESCRIPTORS);
    reads_as(&rt, dual(&rt), &TWO_DESCRIPTORS);
}

static PARTITIONS: [Row; 14] = [
    ((0x50, 1), NONE, NONE, NONE, LEN, 0),
    ((0x50, 0), NONE, NONE, NONE, LEN, 10),
    (NONE, NONE, NONE, NONE, LEN - 1, 10),
    (
        (0x48, 512),
        (0x50, 3584),
        (0x10, 4096),
        (0x18, 4396),
        LEN,
        0,
    ),
    (
        (0x48, 511),
        (0x50, 3584),
        (0x10, 4096),
        (0x18, 4396),
        LEN,
        10,
    ),
    // The tables touch, overlap by a byte, and are one.
    ((0x18, 812), NONE, NONE, NONE, LEN, 0),
    ((0x18, 811), NONE, NONE, NONE, LEN, 12),
    ((0x18, 512), NONE, NONE, NONE, LEN, 12),
    // A table touches the partition, reaches into it, and lies in it.
    ((0x18, 3796), NONE, NONE, NONE, LEN, 0),
    ((0x18, 3797), NONE, NONE, NONE, LEN, 12),
    ((0x18, 5000), NONE, NONE, NONE, LEN, 12),
    ((0x10, 3796), NONE, NONE, NONE, LEN, 0),
    ((0x10, 3797), NONE, NONE, NONE, LEN, 12),
    ((0x10, 5000), NONE, NONE, NONE, LEN, 12),
];

static TWO_PARTITIONS: [Row; 11] = [
    ((0x60, 1), NONE, NONE, NONE, LEN, 0),
    ((0x60, 0), NONE, NONE, NONE, LEN, 11),
    (NONE, NONE, NONE, NONE, LEN - 1, 11),
    ((0x58, 511), (0x60, 1), NONE, NONE, LEN, 11),
    // B overlaps A by a byte, lies in it, and contains it.
    ((0x58, 45_055), NONE, NONE, NONE, LEN, 12),
    ((0x58, 8192), (0x60, 4096), NONE, NONE, LEN, 12),
    (
        (0x48, 8192),
        (0x50, 4096),
        (0x58, 4096),
        (0x60, 106_496),
        LEN,
        12,
    ),
    // B on the secondary table's first byte, between the tables, and on a byte of either.
    ((0x58, 512), (0x60, 1), NONE, NONE, LEN, 12),
    ((0x58, 1116), (0x60, 420), NONE, NONE, LEN, 0),
    ((0x58, 1115), (0x60, 1), NONE, NONE, LEN, 12),
    ((0x58, 1116), (0x60, 421), NONE, NONE, LEN, 12),
];

#[test]
fn partitions_are_held_to_their_bounds(rt: HostRuntime) {
    reads_as(&rt, single(&rt), &PARTITIONS);
    reads_as(&rt, dual(&rt), &TWO_PARTITIONS);
}

static AT_THE_TOP: [Row; 9] = [
    ((0x20, TOP), NONE, NONE, NONE, LEN, 4),
    ((0x18, TOP), NONE, NONE, NONE, LEN, 5),
    ((0x18, TOP - 299), NONE, NONE, NONE, LEN, 5),
    ((0x10, TOP - 299), NONE, NONE, NONE, LEN, 6),
    ((0x28, TOP - 67), (0x30, 68), NONE, NONE, LEN, 7),
    ((0x28, 1), (0x30, TOP), NONE, NONE, LEN, 7),
    ((0x48, TOP), (0x50, 4096), NONE, NONE, LEN, 10),
    ((0x50, TOP), NONE, NONE, NONE, LEN, 10),
    ((0x50, TOP - 4095), NONE, NONE, NONE, LEN, 10),
];

static SECOND_AT_THE_TOP: [Row; 3] = [
    ((0x38, TOP - 299), NONE, NONE, NONE, LEN, 8),
    ((0x58, TOP - 65_535), NONE, NONE, NONE, LEN, 11),
    ((0x60, TOP), NONE, NONE, NONE, LEN, 11),
];

#[test]
fn offsets_do_not_wrap(rt: HostRuntime) {
    reads_as(&rt, single(&rt), &AT_THE_TOP);
    reads_as(&rt, dual(&rt), &SECOND_AT_THE_TOP);
}

static TWO_FAIL: [Row; 8] = [
    ((0x08, 3), NONE, NONE, NONE, 67_108_865, 1),
    ((0x08, 3), (0x68, 2), NONE, NONE, LEN, 2),
    ((0x68, 2), (0x20, 0x43), NONE, NONE, LEN, 3),
    ((0x20, 0x43), (0x18, 511), NONE, NONE, LEN, 4),
    ((0x18, 511), (0x10, 511), NONE, NONE, LEN, 5),
    ((0x10, 511), (0x30, 0), NONE, NONE, LEN, 6),
    ((0x30, 0), (0x50, 0), NONE, NONE, LEN, 7),
    ((0x50, 0), (0x18, 512), NONE, NONE, LEN, 10),
];

static TWO_FAIL_OF_TWO: [Row; 5] = [
    ((0x30, 0), (0x40, 0), NONE, NONE, LEN, 7),
    ((0x38, 0), (0x40, 605), NONE, NONE, LEN, 8),
    ((0x38, 0), (0x50, 0), NONE, NONE, LEN, 9),
    ((0x50, 0), (0x60, 0), NONE, NONE, LEN, 10),
    ((0x58, 0), (0x18, 512), NONE, NONE, LEN, 11),
];

#[test]
fn lower_condition_is_named(rt: HostRuntime) {
    reads_as(&rt, single(&rt), &TWO_FAIL);
    reads_as(&rt, dual(&rt), &TWO_FAIL_OF_TWO);
}

#[test]
fn kind_and_version_come_first(rt: HostRuntime) {
    let disa = single(&rt);
    assert_eq!(rt; Header::read(&disa, 511).err(), Some(HeaderFault::NotImage));
    assert_eq!(rt;
        Header::read(&[0; 512], LEN).err(),
        Some(HeaderFault::NotImage)
    );
    // No image of so few bytes has one here; the bytes are read as they are.
    let mut sector = disa;
    sector[511] = 1;
    assert_eq!(rt;
        Header::read(&sector, 511).err(),
        Some(HeaderFault::NotImage)
    );
    assert_eq!(rt;
        Header::read(&sector, 300).err(),
        Some(HeaderFault::NotImage)
    );
    // At 512 bytes it is an image, whose tables do not fit.
    assert_eq!(rt; Header::read(&disa, 512).err(), layout(5));
    for version in [0x40001, 0x30000, 0] {
        let mut sector = disa;
        set_u32(&mut sector, 0x104, version);
        assert_eq!(rt;
            Header::read(&sector, LEN).err(),
            Some(HeaderFault::Version)
        );
    }
    let mut sector = diff(&rt);
    set_u32(&mut sector, 0x104, 0x40000);
    assert_eq!(rt;
        Header::read(&sector, 67_108_865).err(),
        Some(HeaderFault::Version)
    );
    sector[0x103] = b'A';
    assert_eq!(rt;
        Header::read(&sector, LEN).err(),
        Some(HeaderFault::NotImage)
    );
}

fn at(at: u64, size: u64) -> Extent {
    Extent { at, size }
}

/// The header of `single`, but for its bytes and its hash of sevens.
fn single_header(raw: [u8; 256]) -> Header {
    Header {
        kind: Kind::Disa,
        parts: 1,
        secondary: 512,
        primary: 1024,
        table_size: 300,
        desc_a: at(0, 300),
        desc_b: at(0, 0),
        part_a: at(4096, 106_496),
        part_b: at(0, 0),
        active: 0,
        hash: [7; 32],
        unique: 0,
        raw,
    }
}

fn raw_of(sector: &[u8; 512]) -> [u8; 256] {
    let mut raw = [0; 256];
    raw.copy_from_slice(&sector[0x100..]);
    raw
}

#[test]
fn fields_of_a_disa_are_read(rt: HostRuntime) {
    // What is said of a second partition is not looked at where there is one.
    let mut sector = with(&rt, single(&rt), &[(0x38, 7), (0x40, 7), (0x58, 7), NONE]);
    sector[0x16C..0x18C].fill(7);
    let header = single_header(raw_of(&sector));
    assert_eq!(rt; Header::read(&sector, LEN), Ok(header));
    assert_eq!(rt; header.active_table(), 1024);
    assert_eq!(rt; header.inactive_table(), 512);

    let mut sector = dual(&rt);
    sector[0x16C..0x18C].fill(7);
    let header = Header {
        parts: 2,
        primary: 1536,
        table_size: 604,
        desc_b: at(304, 300),
        part_a: at(4096, 40_960),
        part_b: at(45_056, 65_536),
        ..single_header(raw_of(&sector))
    };
    assert_eq!(rt; Header::read(&sector, LEN), Ok(header));
}

#[test]
fn fields_of_a_diff_are_read(rt: HostRuntime) {
    // Of the active field the first byte alone is looked at, and the others are kept.
    let odd = [
        (0x30, 0x03EE_DD01),
        (0x54, 0x1122_3344_5566_7788),
        NONE,
        NONE,
    ];
    let mut sector = with(&rt, diff(&rt), &odd);
    sector[0x134..0x154].fill(7);
    let header = Header {
        kind: Kind::Diff,
        active: 1,
        unique: 0x1122_3344_5566_7788,
        ..single_header(raw_of(&sector))
    };
    assert_eq!(rt; Header::read(&sector, LEN), Ok(header));
    assert_eq!(rt; header.active_table(), 512);
    assert_eq!(rt; header.inactive_table(), 1024);
}

/// Of the header's bytes a flip sets the one at `place`, and the hash four bytes behind it.
fn flips_at(rt: &impl Abort, base: [u8; 512], place: usize) -> Result<(), HeaderFault> {
    let unused = [
        (0x90, 0x9192_9394_9596_9798),
        (0xF8, 0xF1F2_F3F4_F5F6_F7F8),
        NONE,
        NONE,
    ];
    let header = Header::read(&with(rt, base, &unused), LEN)?;
    let flipped = header.flip(&[7; 32]);
    assert_eq!(rt; (flipped.active, flipped.hash), (1, [7; 32]));
    assert_eq!(rt; flipped.active_table(), header.inactive_table());

    assert!(rt; place < 0xE0 - 4);
    let mut raw = header.raw;
    raw[place] = 1;
    raw[place + 4..place + 36].copy_from_slice(&[7; 32]);
    assert_eq!(rt; flipped.raw, raw);

    let mut sector = [0; 512];
    sector[0x100..].copy_from_slice(&flipped.write());
    assert_eq!(rt; Header::read(&sector, LEN)?, flipped);
    assert_eq!(rt; flipped.flip(&header.hash), header);
    Ok(())
}

#[test]
fn flip_changes_the_active_byte_and_the_hash(rt: HostRuntime) -> Result<(), Fail> {
    flips_at(&rt, single(&rt), 0x68)?;
    flips_at(&rt, dual(&rt), 0x68)?;
    let odd = with(&rt, diff(&rt), &[(0x30, 0x03EE_DD00), NONE, NONE, NONE]);
    flips_at(&rt, odd, 0x30)?;
    Ok(())
}
