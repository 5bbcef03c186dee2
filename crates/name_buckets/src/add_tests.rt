//! Tests of adding entries.

ghost use Rattle.std.specs.Prelude.{◌≡◌, ◌≤◌, length};

use super::*;
use save_bytes::{Bad, MemSpace, Name, set_u32, set_u64, u32_at};
use save_samples::{Hole, HoleSpace};

/// Names of one byte. As names of the root's files the last three are of one bucket.
const A: Name = Name(*b"a\0\0\0\0\0\0\0\0\0\0\0\0\0\0\0");

const X: Name = Name(*b"x\0\0\0\0\0\0\0\0\0\0\0\0\0\0\0");

const D: Name = Name(*b"d\0\0\0\0\0\0\0\0\0\0\0\0\0\0\0");

const J: Name = Name(*b"j\0\0\0\0\0\0\0\0\0\0\0\0\0\0\0");

const P: Name = Name(*b"p\0\0\0\0\0\0\0\0\0\0\0\0\0\0\0");

const FIVE: FileFields = FileFields { start: 5, wide: 6 };

/// Where the tables stand: room for 10 directories and 9 files.
const DIRS: TableInfo = TableInfo {
    buckets_at: 136,
    buckets: 9,
    table_at: 1024,
};

const FILES: TableInfo = TableInfo {
    buckets_at: 172,
    buckets: 9,
    table_at: 1536,
};

/// The tables of a tree with a directory `/a`, entry 2, and a file `/a/x`, entry 1. Bytes of entries that were never
/// used are not zero.
fn tree() -> [u8; 1968] {
    let mut bytes = [0; 1968];
    set_u32(&mut bytes, 1168, 0xEEEE_EEEE);
    set_u32(&mut bytes, 1172, 0xEEEE_EEEE);
    set_u32(&mut bytes, 1176, 0xEEEE_EEEE);
    set_u32(&mut bytes, 1656, 0xEEEE_EEEE);
    set_u32(&mut bytes, 1672, 0xEEEE_EEEE);
    set_u32(&mut bytes, 136, 1);
    set_u32(&mut bytes, 160, 2);
    set_u32(&mut bytes, 192, 1);
    set_u32(&mut bytes, 1024, 3);
    set_u32(&mut bytes, 1028, 10);
    set_u32(&mut bytes, 1088, 2);
    set_u32(&mut bytes, 1104, 1);
    bytes[1108] = b'a';
    set_u32(&mut bytes, 1132, 1);
    set_u32(&mut bytes, 1536, 2);
    set_u32(&mut bytes, 1540, 9);
    set_u32(&mut bytes, 1584, 2);
    bytes[1588] = b'x';
    set_u32(&mut bytes, 1612, 2);
    set_u64(&mut bytes, 1616, 3);
    bytes
}

/// Adds an entry to the tables in these bytes.
fn add_to(
    bytes: &mut [u8],
    kind: EntryKind,
    parent: u32,
    name: Name,
    fields: FileFields,
) -> Result<u32, EntryFault>
    requires { 1584 ≤ length bytes.old }
{
    let mut space = MemSpace::new(bytes, 512);
    let mut entries = Entries::new(&mut space, DIRS, FILES);
    entries.add(kind, parent, &name, fields)
}

/// Asks whether it may be added.
fn ready_in(bytes: &mut [u8], kind: EntryKind, parent: u32, name: Name) -> Result<(), EntryFault>
    requires { 1584 ≤ length bytes.old }
{
    let mut space = MemSpace::new(bytes, 512);
    let mut entries = Entries::new(&mut space, DIRS, FILES);
    entries.ready_add(kind, parent, &name)
}

/// Removes an entry from them.
fn remove_from(bytes: &mut [u8], kind: EntryKind, entry: u32) -> Result<(), EntryFault>
    requires { 1584 ≤ length bytes.old }
{
    let mut space = MemSpace::new(bytes, 512);
    let mut entries = Entries::new(&mut space, DIRS, FILES);
    entries.remove(kind, entry)
}

/// The entry that is found there.
fn found_in(
    bytes: &mut [u8],
    kind: EntryKind,
    parent: u32,
    name: Name,
) -> Result<Option<u32>, EntryFault>
    requires { 1584 ≤ length bytes.old }
{
    let mut space = MemSpace::new(bytes, 512);
    let mut entries = Entries::new(&mut space, DIRS, FILES);
    entries.find(kind, parent, &name)
}

/// Adds a file `/a` to the tables in these bytes, of which a block of 16 is at fault.
fn add_over(bytes: &mut [u8], block: usize, hole: Hole) -> Result<u32, EntryFault>
    requires { length bytes.old ≡ 1968 }
{
    let mut holes = [Hole::Filled; 123];
    holes[block % 123] = hole;
    let mut space = HoleSpace::new(bytes, 16, &mut holes);
    let mut entries = Entries::new(&mut space, DIRS, FILES);
    entries.add(EntryKind::File, 1, &A, FIVE)
}

// Behind the tree a file `/a`. It is of bucket 6, whose head stands at 196. Of the root the first file stands at 1,092;
// entry 2 begins at 1,632.
fn tree_and_file() -> [u8; 1968] {
    let mut bytes = tree();
    set_u32(&mut bytes, 1656, 0);
    set_u32(&mut bytes, 1672, 0);
    set_u32(&mut bytes, 196, 2);
    set_u32(&mut bytes, 1092, 2);
    set_u32(&mut bytes, 1536, 3);
    set_u32(&mut bytes, 1632, 1);
    bytes[1636] = b'a';
    set_u32(&mut bytes, 1660, 5);
    set_u64(&mut bytes, 1664, 6);
    bytes
}

#[test]
fn a_file_is_added_by_the_next_number_and_no_other_byte_changes(rt: HostRuntime) {
    let mut bytes = tree();
    assert_eq!(rt; ready_in(&mut bytes, EntryKind::File, 1, A), Ok(()));
    assert_eq!(rt; bytes.as_slice(), tree().as_slice());
    assert_eq!(rt; add_to(&mut bytes, EntryKind::File, 1, A, FIVE), Ok(2));
    assert_eq!(rt; bytes.as_slice(), tree_and_file().as_slice());
    assert_eq!(rt; found_in(&mut bytes, EntryKind::File, 1, A), Ok(Some(2)));
}

// Behind the tree a directory `/a/x`. It is of bucket 5, whose head stands at 156. Of `/a` the first directory stands at
// 1,128; entry 3 begins at 1,144.
fn tree_and_directory() -> [u8; 1968] {
    let mut bytes = tree();
    set_u32(&mut bytes, 1168, 0);
    set_u32(&mut bytes, 1172, 0);
    set_u32(&mut bytes, 1176, 0);
    set_u32(&mut bytes, 156, 3);
    set_u32(&mut bytes, 1128, 3);
    set_u32(&mut bytes, 1024, 4);
    set_u32(&mut bytes, 1144, 2);
    bytes[1148] = b'x';
    bytes
}

#[test]
fn a_directory_is_added_without_entries(rt: HostRuntime) {
    let mut bytes = tree();
    assert_eq!(rt; add_to(&mut bytes, EntryKind::Dir, 2, X, FIVE), Ok(3));
    assert_eq!(rt; bytes.as_slice(), tree_and_directory().as_slice());
}

// Entries 2, 3 and 4 begin at 1,632, 1,680 and 1,728; their siblings stand 20 bytes on and their last words 44. The
// head of bucket 8 stands at 204.
#[test]
fn files_of_one_bucket_and_directory_are_listed_with_the_last_one_first(rt: HostRuntime) {
    let mut bytes = tree();
    for (name, entry) in [(D, 2), (J, 3), (P, 4)] {
        assert_eq!(rt;
            add_to(&mut bytes, EntryKind::File, 1, name, FIVE),
            Ok(entry)
        );
    }
    let words = [
        (204, 4),
        (1092, 4),
        (1536, 5),
        (1652, 0),
        (1676, 0),
        (1700, 2),
        (1724, 2),
        (1748, 3),
        (1772, 3),
    ];
    for (at, number) in words {
        assert!(rt; at <= 1964);
        assert_eq!(rt; u32_at(&bytes, at), number, "at {at}");
    }
    for (name, entry) in [(D, 2), (J, 3), (P, 4)] {
        assert_eq!(rt;
            found_in(&mut bytes, EntryKind::File, 1, name),
            Ok(Some(entry))
        );
    }
}

#[test]
fn freed_entries_are_taken_first_the_last_one_first(rt: HostRuntime) {
    let mut bytes = tree();
    for (name, entry) in [(D, 2), (J, 3), (P, 4)] {
        assert_eq!(rt;
            add_to(&mut bytes, EntryKind::File, 1, name, FIVE),
            Ok(entry)
        );
    }
    assert_eq!(rt; remove_from(&mut bytes, EntryKind::File, 4), Ok(()));
    assert_eq!(rt; remove_from(&mut bytes, EntryKind::File, 2), Ok(()));
    for (parent, name, entry) in [(1, A, 2), (2, A, 4), (2, D, 5)] {
        assert_eq!(rt;
            add_to(&mut bytes, EntryKind::File, parent, name, FIVE),
            Ok(entry)
        );
    }
    // No entry is freed, and 6 were ever used.
    assert_eq!(rt; u32_at(&bytes, 1580), 0);
    assert_eq!(rt; u32_at(&bytes, 1536), 6);
    for (parent, name, entry) in [
        (1, A, Some(2)),
        (2, A, Some(4)),
        (2, D, Some(5)),
        (1, D, None),
        (1, J, Some(3)),
    ] {
        assert_eq!(rt;
            found_in(&mut bytes, EntryKind::File, parent, name),
            Ok(entry)
        );
    }
}

#[test]
fn as_many_files_are_added_as_there_is_room_for(rt: HostRuntime) {
    let mut bytes = tree();
    let full = EntryFault::NoEntry { most: 9 };
    for number in 0..7u8 {
        let mut name = Name([0; 16]);
        name.0[15] = number + 1;
        let added = add_to(&mut bytes, EntryKind::File, 2, name, FIVE);
        assert_eq!(rt; added, Ok(u32::from(number) + 2));
    }
    let before = bytes;
    assert_eq!(rt; ready_in(&mut bytes, EntryKind::File, 1, A), Err(full));
    assert_eq!(rt; add_to(&mut bytes, EntryKind::File, 1, A, FIVE), Err(full));
    assert_eq!(rt; bytes.as_slice(), before.as_slice());
    assert_eq!(rt; remove_from(&mut bytes, EntryKind::File, 1), Ok(()));
    assert_eq!(rt; add_to(&mut bytes, EntryKind::File, 1, A, FIVE), Ok(1));
    assert_eq!(rt; add_to(&mut bytes, EntryKind::File, 1, D, FIVE), Err(full));
}

// The first freed entry is named at 1,580.
#[test]
fn a_first_freed_entry_that_is_none_is_named(rt: HostRuntime) {
    for number in [2, 9] {
        let mut bytes = tree();
        set_u32(&mut bytes, 1580, number);
        let before = bytes;
        let broken = EntryFault::Broken { table: 3, entry: 0 };
        assert_eq!(rt;
            add_to(&mut bytes, EntryKind::File, 1, A, FIVE),
            Err(broken)
        );
        assert_eq!(rt; bytes.as_slice(), before.as_slice());
    }
}

// The entry that is taken, from 1,632 to 1,680, has blocks 102 to 104. The head of its bucket is in block 12, and the
// root's first file in block 68.
#[test]
fn a_spoilt_cell_of_the_entry_that_is_taken_is_named(rt: HostRuntime) {
    for block in [102, 103, 104, 12, 68] {
        let mut bytes = tree();
        let bad = Bad::Damaged {
            part: 0,
            level: 4,
            block: block as u64,
        };
        let added = add_over(&mut bytes, block, Hole::Broken(4));
        assert_eq!(rt; added, Err(EntryFault::Bad(bad)));
        assert_eq!(rt; bytes.as_slice(), tree().as_slice());
    }
}

#[test]
fn an_entry_that_was_never_written_is_taken(rt: HostRuntime) {
    for block in [102, 103, 104, 110] {
        let mut want = tree();
        assert_eq!(rt; add_to(&mut want, EntryKind::File, 1, A, FIVE), Ok(2));
        let mut bytes = tree();
        assert_eq!(rt; add_over(&mut bytes, block, Hole::NeverWritten(3)), Ok(2));
        assert_eq!(rt; bytes.as_slice(), want.as_slice());
    }
}

#[test]
fn a_spoilt_cell_that_an_addition_does_not_need_stays(rt: HostRuntime) {
    let mut bytes = tree();
    assert_eq!(rt; add_over(&mut bytes, 105, Hole::Broken(4)), Ok(2));
}
