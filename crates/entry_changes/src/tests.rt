ghost use Rattle.std.specs.Prelude.{◌≤◌, length};

use super::*;
use entry_tables::{EntryFault, EntryKind, TableInfo, Word};
use save_bytes::{MemSpace, set_u32};

const DIRS: TableInfo = TableInfo {
    buckets_at: 136,
    buckets: 9,
    table_at: 1024,
};

const FILES: TableInfo = TableInfo {
    buckets_at: 172,
    buckets: 9,
    table_at: 1536,
};

/// Files 3, 1 and 2 in bucket 4, and in directory 1 files 2 and 1. There are 4 files.
fn files() -> [u8; 1968] {
    let mut bytes = [0; 1968];
    set_u32(&mut bytes, 1028, 10);
    set_u32(&mut bytes, 1540, 9);
    set_u32(&mut bytes, 188, 3);
    set_u32(&mut bytes, 1724, 1);
    set_u32(&mut bytes, 1628, 2);
    set_u32(&mut bytes, 1092, 2);
    set_u32(&mut bytes, 1652, 1);
    bytes
}

/// The word before a file, of 4, in a list of these bytes.
fn word_in(bytes: &mut [u8], list: EntryList, entry: u32) -> Result<Option<Word>, EntryFault>
    requires { 1584 ≤ length bytes.old }
{
    let mut space = MemSpace::new(bytes, 512);
    word_before(&mut space, DIRS, FILES, list, entry, 4)
}

#[test]
fn an_entry_is_named_by_the_one_before_it_in_each_list(rt: HostRuntime) {
    let bucket = EntryList::Bucket(EntryKind::File, 4);
    let children = EntryList::Children(EntryKind::File, 1);
    let mut bytes = files();
    for (list, entry, want) in [
        (bucket, 3, Some(Word::Head(EntryKind::File, 4))),
        (bucket, 1, Some(Word::Link(EntryKind::File, 3))),
        (bucket, 2, Some(Word::Link(EntryKind::File, 1))),
        (bucket, 5, None),
        (children, 2, Some(Word::First(EntryKind::File, 1))),
        (children, 1, Some(Word::Sibling(EntryKind::File, 2))),
        (children, 3, None),
    ] {
        assert_eq!(rt; word_in(&mut bytes, list, entry), Ok(want));
    }
}

#[test]
fn a_list_without_an_end_is_named(rt: HostRuntime) {
    let bucket = EntryList::Bucket(EntryKind::File, 4);
    let children = EntryList::Children(EntryKind::File, 1);
    for (at, number, list, table, entry) in [
        (1676, 3, bucket, 5, 4),
        (1676, 4, bucket, 5, 4),
        (1604, 2, children, 2, 1),
        (1092, 9, children, 2, 1),
    ] {
        let mut bytes = files();
        set_u32(&mut bytes, at, number);
        assert_eq!(rt;
            word_in(&mut bytes, list, 7),
            Err(EntryFault::Broken { table, entry })
        );
    }
}
