//! Tests of many additions and removals beside a plain map.

ghost use Rattle.std.specs.Prelude.{◌≤◌, IfOk};
ghost use Rattle.name_buckets.specs.Held.{HoldsTables};

use super::*;
use save_bytes::{MemSpace, Name, Space, set_u32};
use std::alloc::Global;
use std::collections::BTreeMap;
use std::test::Fail;

/// The tables have room for three directories in one bucket, and for 40 files in 40 buckets at most.
const DIRS: TableInfo = TableInfo {
    buckets_at: 0,
    buckets: 1,
    table_at: 168,
};

/// A file that may be in the table.
#[derive(Clone, Copy)]
struct Sample {
    parent: u32,
    name: Name,
    fields: FileFields,
}

// The files of three directories; those of three numbers that follow one another may share their name.
fn file_of(number: u32) -> Sample {
    let mut name = Name([0; 16]);
    name.0[..4].copy_from_slice(&(number / 3).to_le_bytes());
    name.0[15] = 1;
    Sample {
        parent: 1 + number % 3,
        name,
        fields: FileFields {
            start: number,
            wide: u64::from(number) + 0x1_0000_0000,
        },
    }
}

// The root alone, and no file.
fn begin() -> [u8; 2296] {
    let mut bytes = [0; 2296];
    set_u32(&mut bytes, 0, 1);
    set_u32(&mut bytes, 168, 2);
    set_u32(&mut bytes, 172, 4);
    set_u32(&mut bytes, 328, 1);
    set_u32(&mut bytes, 332, 41);
    bytes
}

// The next number of a sequence that goes over all of 32 bits.
fn next_number(number: u32) -> u32 {
    number.wrapping_mul(1_664_525).wrapping_add(1_013_904_223)
}

// Removes a file that is there, or adds it, in the table and in the map, and says whether both did the same.
fn turn<S: Space>(
    entries: &mut Entries<S>,
    map: &mut BTreeMap<(u32, [u8; 16]), u32>,
    number: u32,
) -> Result<bool, Fail>
    requires { HoldsTables S.state entries.old }
    ensures { HoldsTables S.state entries.new }
{
    let file = file_of(number);
    let key = (file.parent, file.name.0);
    if let Some(entry) = map.remove(&key) {
        return Ok(entries.remove(EntryKind::File, entry) == Ok(()));
    }
    let room = map.len() < 40;
    match entries.add(EntryKind::File, file.parent, &file.name, file.fields) {
        Ok(entry) => {
            map.insert(key, entry)?;
            Ok(room)
        }
        Err(fault) => Ok(!room && fault == EntryFault::NoEntry { most: 41 }),
    }
}

// Whether an entry is the one of a file.
fn is_of<S: Space>(entries: &mut Entries<S>, entry: u32, file: Sample) -> Result<bool, EntryFault>
    requires { HoldsTables S.state entries.old }
    ensures { HoldsTables S.state entries.new }
{
    let parent = entries.parent(EntryKind::File, entry)?;
    let name = entries.name(EntryKind::File, entry)?;
    let fields = entries.fields(entry)?;
    Ok(parent == file.parent && name == file.name && fields == file.fields)
}

// Whether a file is found where the map has it, and else not.
fn agrees<S: Space>(
    entries: &mut Entries<S>,
    map: &BTreeMap<(u32, [u8; 16]), u32>,
    number: u32,
) -> Result<bool, EntryFault>
    requires { HoldsTables S.state entries.old }
    ensures { HoldsTables S.state entries.new }
{
    let file = file_of(number);
    let held = map.get(&(file.parent, file.name.0)).copied();
    let found = entries.find(EntryKind::File, file.parent, &file.name)?;
    match held {
        Some(entry) => Ok(found == held && is_of(entries, entry, file)?),
        None => Ok(found.is_none()),
    }
}

// How many files a directory lists, 41 at most.
fn listed<S: Space>(entries: &mut Entries<S>, dir: u32) -> Result<u32, EntryFault>
    requires { HoldsTables S.state entries.old }
    ensures count { IfOk result (λ count. count ≤ 41) }
    ensures tables { HoldsTables S.state entries.new }
{
    let mut entry = entries.first(EntryKind::File, dir)?;
    for count in 0..41 {
        if entry == 0 {
            return Ok(count);
        }
        entry = entries.next(EntryKind::File, entry)?;
    }
    Ok(41)
}

// Whether the table has the files of the map, the directories list so many, and the others can be added.
fn agrees_as_a_whole<S: Space>(
    entries: &mut Entries<S>,
    map: &BTreeMap<(u32, [u8; 16]), u32>,
) -> Result<bool, EntryFault>
    requires { HoldsTables S.state entries.old }
    ensures { HoldsTables S.state entries.new }
{
    for number in 0..72 {
        if !agrees(entries, map, number)? {
            return Ok(false);
        }
    }
    let first = listed(entries, 1)?;
    let second = listed(entries, 2)?;
    let third = listed(entries, 3)?;
    let free = entries.free(EntryKind::File)?;
    let files = map.len();
    Ok((first + second + third) as usize == files && free as usize == 40usize.saturating_sub(files))
}

// Of so many additions and removals among 72 files, how many are made in the table as in a map, before one is not.
fn turns<S: Space>(alloc: Global, entries: &mut Entries<S>, most: u32) -> Result<u32, Fail>
    requires { HoldsTables S.state entries.old }
{
    let mut map = BTreeMap::new(alloc);
    let mut number = 1;
    for done in 0..most {
        number = next_number(number);
        let which = (number >> 16) % 72;
        if !turn(entries, &mut map, which)? || !agrees_as_a_whole(entries, &map)? {
            return Ok(done);
        }
    }
    Ok(most)
}

// Adds a directory to the root.
fn add_dir<S: Space>(entries: &mut Entries<S>, number: u32) -> Result<u32, EntryFault>
    requires { HoldsTables S.state entries.old }
    ensures { HoldsTables S.state entries.new }
{
    let dir = file_of(number);
    entries.add(EntryKind::Dir, 1, &dir.name, dir.fields)
}

// The same in a new table, whose files have so many buckets.
fn turns_among(alloc: Global, buckets: u32, most: u32) -> Result<u32, Fail>
    requires some { 1 ≤ buckets }
    requires few { buckets ≤ 40 }
{
    let files = TableInfo {
        buckets_at: 4,
        buckets,
        table_at: 328,
    };
    let mut bytes = begin();
    let mut space = MemSpace::new(&mut bytes, 512);
    let mut entries = Entries::new(&mut space, DIRS, files);
    add_dir(&mut entries, 2)?;
    add_dir(&mut entries, 3)?;
    turns(alloc, &mut entries, most)
}

// With one bucket the list of that has each file.
#[test]
fn ten_thousand_additions_and_removals_are_made_as_in_a_plain_map(
    rt: HostRuntime,
) -> Result<(), Fail> {
    assert_eq!(rt; turns_among(rt.alloc(), 1, 10_000)?, 10_000);
    assert_eq!(rt; turns_among(rt.alloc(), 7, 10_000)?, 10_000);
    assert_eq!(rt; turns_among(rt.alloc(), 40, 10_000)?, 10_000);
    Ok(())
}
