ghost use Rattle.std.specs.Prelude.{◌<◌, ◌≤◌, length};

use super::*;
use crate::placed::entry_of;
use save_bytes::{MemSpace, Name, set_u32, set_u64};
use std::alloc::{AllocError, Global};

/// Where the tables stand: room for 10 directories and 9 files.
const DIRS: TableInfo = TableInfo {
    buckets_at: 136,
    buckets: 9,
    table_at: 1024,
};

const FILES: TableInfo = TableInfo {
    buckets_at: 172,
    buckets: 9,
    table_at: 1536,
};

/// Names of one byte.
const A: Name = Name(*b"a\0\0\0\0\0\0\0\0\0\0\0\0\0\0\0");

const X: Name = Name(*b"x\0\0\0\0\0\0\0\0\0\0\0\0\0\0\0");

/// What comes of reading both tables, and of the rules on places and names that are tried then.
#[derive(Clone, Copy, Debug, PartialEq)]
enum Outcome {
    NoMemory,
    NotRead(EntryFault),
    Misplaced(u8, u32),
    Shared(u8, u32),
    Sound,
}

/// The tables in these bytes.
fn tables_of(
    alloc: Global,
    bytes: &mut [u8],
    dirs: u32,
    files: u32,
) -> Result<ReadTables, TableFault>
    requires bytes { 1584 ≤ length bytes.old }
    requires dirs { dirs ≤ 8194 }
    requires files { files ≤ 8194 }
{
    let mut space = MemSpace::new(bytes, 512);
    read_tables(alloc, &mut space, DIRS, FILES, dirs, files)
}

fn outcome_of(alloc: Global, bytes: &mut [u8]) -> Outcome
    requires { 1584 ≤ length bytes.old }
{
    match tables_of(alloc, bytes, 4, 5) {
        Ok(read) => tried(alloc, &read),
        Err(TableFault::Memory) => Outcome::NoMemory,
        Err(TableFault::Entries(fault)) => Outcome::NotRead(fault),
    }
}

fn tried(alloc: Global, read: &ReadTables) -> Outcome {
    if read.dirs.entries.len() > 8194 || read.files.entries.len() > 8194 {
        return Outcome::NoMemory;
    }
    if let Some(found) = place_fault(read) {
        return Outcome::Misplaced(found.table, found.entry);
    }
    match name_fault(alloc, EntryKind::Dir, &read.dirs) {
        Ok(None) => {}
        Ok(Some(entry)) => return Outcome::Shared(2, entry),
        Err(AllocError) => return Outcome::NoMemory,
    }
    match name_fault(alloc, EntryKind::File, &read.files) {
        Ok(None) => Outcome::Sound,
        Ok(Some(entry)) => Outcome::Shared(3, entry),
        Err(AllocError) => Outcome::NoMemory,
    }
}

/// The tables of a tree with directories `/a` and `/b`, entries 2 and 3, and the files `/a/x` and `/b/x`, entries 1 and
/// 4. Of the files entries 3 and 2 are freed, in this order.
fn tree() -> [u8; 1968] {
    let mut bytes = [0; 1968];
    set_u32(&mut bytes, 136, 1);
    set_u32(&mut bytes, 192, 1);
    // 4 of 10 directories; entry 1 begins at 1,064, each next one 0x28 later.
    set_u32(&mut bytes, 1024, 4);
    set_u32(&mut bytes, 1028, 10);
    set_u32(&mut bytes, 1104, 1);
    bytes[1108] = b'a';
    set_u32(&mut bytes, 1124, 3);
    set_u32(&mut bytes, 1132, 1);
    set_u32(&mut bytes, 1144, 1);
    bytes[1148] = b'b';
    set_u32(&mut bytes, 1172, 4);
    // 5 of 9 files; entry 1 begins at 1,584, each next one 0x30 later.
    set_u32(&mut bytes, 1536, 5);
    set_u32(&mut bytes, 1540, 9);
    set_u32(&mut bytes, 1580, 3);
    set_u32(&mut bytes, 1724, 2);
    set_u32(&mut bytes, 1584, 2);
    bytes[1588] = b'x';
    set_u32(&mut bytes, 1612, 7);
    set_u64(&mut bytes, 1616, 3);
    set_u32(&mut bytes, 1728, 3);
    bytes[1732] = b'x';
    bytes
}

/// That tree with another number at a place.
fn tree_with(at: usize, number: u32) -> [u8; 1968] {
    let mut bytes = tree();
    if at < 1964 {
        set_u32(&mut bytes, at, number);
    }
    bytes
}

/// The rule on freed entries fails.
fn broken(table: u8, entry: u32) -> Outcome {
    Outcome::NotRead(EntryFault::Broken { table, entry })
}

// In turn: the tree as it is; a freed entry that names one past the count, itself, and an earlier one; entry 0 that
// does the first; the root freed; directories and files whose parents are not there or freed; entries with no name; a
// directory that is its own parent; two entries of one parent and name.
#[test]
fn each_rule_names_the_entry_at_which_it_fails(rt: HostRuntime) {
    for (at, number, want) in [
        (1676, 0, Outcome::Sound),
        (1676, 5, broken(3, 2)),
        (1676, 2, broken(3, 2)),
        (1676, 3, broken(3, 2)),
        (1580, 9, broken(3, 0)),
        (1060, 1, broken(2, 0)),
        (1104, 4, Outcome::Misplaced(2, 2)),
        (1728, 0, Outcome::Misplaced(3, 4)),
        (1060, 3, Outcome::Misplaced(3, 4)),
        (1108, 0, Outcome::Misplaced(2, 2)),
        (1732, 0, Outcome::Misplaced(3, 4)),
        (1104, 2, Outcome::Misplaced(2, 2)),
        (1148, 97, Outcome::Shared(2, 3)),
        (1728, 2, Outcome::Shared(3, 4)),
    ] {
        let mut bytes = tree_with(at, number);
        assert_eq!(rt; outcome_of(rt.alloc(), &mut bytes), want);
    }
}

/// What is read of an entry of a kind in these tables.
fn read_of(alloc: Global, kind: EntryKind, entry: u32) -> Option<ReadEntry> {
    let mut bytes = tree();
    match tables_of(alloc, &mut bytes, 4, 5) {
        Ok(read) => match kind {
            EntryKind::Dir => entry_of(&read.dirs, entry),
            EntryKind::File => entry_of(&read.files, entry),
        },
        Err(_) => None,
    }
}

#[test]
fn the_fields_of_used_entries_are_read(rt: HostRuntime) {
    let none = ReadEntry {
        parent: 0,
        name: Name([0; 16]),
        sibling: 0,
        link: 0,
        first_dir: 0,
        first_file: 0,
        start: 0,
        wide: 0,
    };
    let dir = ReadEntry {
        parent: 1,
        name: A,
        sibling: 3,
        first_file: 1,
        ..none
    };
    let file = ReadEntry {
        parent: 2,
        name: X,
        start: 7,
        wide: 3,
        ..none
    };
    for (kind, entry, want) in [
        (EntryKind::Dir, 0, None),
        (EntryKind::Dir, 2, Some(dir)),
        (EntryKind::Dir, 4, None),
        (EntryKind::File, 0, None),
        (EntryKind::File, 1, Some(file)),
        (EntryKind::File, 2, None),
        (EntryKind::File, 3, None),
    ] {
        assert_eq!(rt; read_of(rt.alloc(), kind, entry), want);
    }
}

/// The root, and directories up to `last`, each in the one before it.
fn chain(alloc: Global, last: u32) -> Result<ReadTables, AllocError>
    requires { last < 8194 }
{
    let mut entries = Vec::new(alloc);
    entries.push(None)?;
    for number in 0..last {
        entries.push(Some(ReadEntry {
            parent: number,
            name: A,
            sibling: 0,
            link: 0,
            first_dir: 0,
            first_file: 0,
            start: 0,
            wide: 0,
        }))?;
    }
    let dirs = ReadTable {
        entries,
        heads: Vec::new(alloc),
    };
    let files = ReadTable {
        entries: Vec::new(alloc),
        heads: Vec::new(alloc),
    };
    Ok(ReadTables { dirs, files })
}

// Directory 65 has the path of 64 names, and directory 66 one of 65.
#[test]
fn a_path_has_64_names_at_most(rt: HostRuntime) {
    for (last, want) in [
        (1, Outcome::Sound),
        (65, Outcome::Sound),
        (66, Outcome::Misplaced(2, 66)),
        (80, Outcome::Misplaced(2, 66)),
    ] {
        let found = match chain(rt.alloc(), last) {
            Ok(read) => tried(rt.alloc(), &read),
            Err(AllocError) => Outcome::NoMemory,
        };
        assert_eq!(rt; found, want);
    }
}
