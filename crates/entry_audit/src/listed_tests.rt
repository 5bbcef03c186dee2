ghost use Rattle.std.specs.Prelude.{◌≡◌, length, IfOk};

use crate::listed::{bucket_fault, directory_fault};
use crate::{EntryKind, ReadEntry, ReadTable, ReadTables};
use save_bytes::Name;
use std::alloc::{AllocError, Global};

const ROOT: Name = Name([0; 16]);

const A: Name = Name(*b"a\0\0\0\0\0\0\0\0\0\0\0\0\0\0\0");

const D: Name = Name(*b"d\0\0\0\0\0\0\0\0\0\0\0\0\0\0\0");

const J: Name = Name(*b"j\0\0\0\0\0\0\0\0\0\0\0\0\0\0\0");

/// An entry of which directories' lists speak.
fn child(parent: u32, sibling: u32, first_dir: u32, first_file: u32) -> Option<ReadEntry> {
    Some(ReadEntry {
        parent,
        name: A,
        sibling,
        link: 0,
        first_dir,
        first_file,
        start: 0,
        wide: 0,
    })
}

/// An entry of which buckets' lists speak.
fn named(parent: u32, name: Name, link: u32) -> Option<ReadEntry> {
    Some(ReadEntry {
        parent,
        name,
        sibling: 0,
        link,
        first_dir: 0,
        first_file: 0,
        start: 0,
        wide: 0,
    })
}

/// A table of so many entries, and of buckets.
fn table(
    alloc: Global,
    entries: &[Option<ReadEntry>],
    heads: &[u32],
) -> Result<ReadTable, AllocError>
    ensures entries { IfOk result (λ table. length table.entries.items ≡ length entries.now) }
    ensures heads { IfOk result (λ table. length table.heads.items ≡ length heads.now) }
{
    Ok(ReadTable {
        entries: Vec::from_slice(alloc, entries)?,
        heads: Vec::from_slice(alloc, heads)?,
    })
}

/// The links of a tree: directories 2 and 3 and files 1 and 3 in the root, directory 4 and file 2 in directory 2.
#[derive(Clone, Copy)]
struct Links {
    /// The next siblings of directories 1 to 4 and of files 1 to 3.
    dirs: [u32; 4],
    files: [u32; 3],
    /// The first directories and files of directories 1 to 4.
    first_dirs: [u32; 4],
    first_files: [u32; 4],
}

/// Those of a tree that is as it should be.
const TREE: Links = Links {
    dirs: [0, 3, 0, 0],
    files: [3, 0, 0],
    first_dirs: [2, 4, 0, 0],
    first_files: [1, 2, 0, 0],
};

/// The directory that is named of a tree with these links. Directory 5 and file 4 are freed.
fn named_directory(alloc: Global, links: Links) -> Result<Option<u32>, AllocError> {
    let dirs = [
        None,
        child(0, links.dirs[0], links.first_dirs[0], links.first_files[0]),
        child(1, links.dirs[1], links.first_dirs[1], links.first_files[1]),
        child(1, links.dirs[2], links.first_dirs[2], links.first_files[2]),
        child(2, links.dirs[3], links.first_dirs[3], links.first_files[3]),
        None,
    ];
    let files = [
        None,
        child(1, links.files[0], 0, 0),
        child(2, links.files[1], 0, 0),
        child(1, links.files[2], 0, 0),
        None,
    ];
    let read = ReadTables {
        dirs: table(alloc, &dirs, &[])?,
        files: table(alloc, &files, &[])?,
    };
    directory_fault(alloc, &read)
}

#[test]
fn directories_with_all_their_entries_are_not_named(rt: HostRuntime) {
    for links in [
        TREE,
        // In another order.
        Links {
            dirs: [0, 0, 2, 0],
            first_dirs: [3, 4, 0, 0],
            ..TREE
        },
        Links {
            files: [0, 0, 1],
            first_files: [3, 2, 0, 0],
            ..TREE
        },
        // The root is in no list.
        Links {
            dirs: [2, 3, 0, 0],
            ..TREE
        },
    ] {
        let answer = named_directory(rt.alloc(), links);
        assert_eq!(rt; answer.ok(), Some(None));
    }
}

#[test]
fn a_directory_whose_directories_are_not_as_said_is_named(rt: HostRuntime) {
    for (first_dirs, dirs, dir) in [
        // It lacks one.
        ([2, 0, 0, 0], [0, 3, 0, 0], 2),
        ([3, 4, 0, 0], [0, 3, 0, 0], 1),
        ([2, 4, 0, 0], [0, 0, 0, 0], 1),
        // It has one of another directory.
        ([2, 4, 4, 0], [0, 3, 0, 0], 3),
        ([2, 4, 0, 0], [0, 3, 0, 2], 2),
        // It comes back to one.
        ([2, 4, 0, 0], [0, 3, 2, 0], 1),
        ([2, 4, 0, 0], [0, 3, 0, 4], 2),
        // It has the root, a freed one, and a number past the entries.
        ([2, 4, 0, 0], [0, 3, 1, 0], 1),
        ([2, 4, 0, 0], [0, 3, 5, 0], 1),
        ([2, 4, 0, 6], [0, 3, 0, 0], 4),
    ] {
        let links = Links {
            first_dirs,
            dirs,
            ..TREE
        };
        let answer = named_directory(rt.alloc(), links);
        assert_eq!(rt; answer.ok(), Some(Some(dir)));
    }
}

#[test]
fn a_directory_whose_files_are_not_as_said_is_named(rt: HostRuntime) {
    for (first_files, files, dir) in [
        // It lacks one.
        ([1, 0, 0, 0], [3, 0, 0], 2),
        ([3, 2, 0, 0], [3, 0, 0], 1),
        // It has one of another directory.
        ([1, 2, 2, 0], [3, 0, 0], 3),
        ([1, 2, 0, 0], [3, 3, 0], 2),
        // It comes back to one.
        ([1, 2, 0, 0], [3, 0, 1], 1),
        // It has a freed one, and a number past the entries.
        ([1, 2, 0, 4], [3, 0, 0], 4),
        ([1, 2, 0, 0], [3, 0, 5], 1),
    ] {
        let links = Links {
            first_files,
            files,
            ..TREE
        };
        let answer = named_directory(rt.alloc(), links);
        assert_eq!(rt; answer.ok(), Some(Some(dir)));
    }
}

/// The bucket that is named of nine. Entry 1 is the root, or a file with its parent and name, which has bucket 0, as
/// the root may have; entry 2 has bucket 6, and 3 and 4 have bucket 8. Entry 5 is freed.
fn named_bucket(
    alloc: Global,
    kind: EntryKind,
    heads: [u32; 9],
    links: [u32; 4],
) -> Result<Option<u32>, AllocError> {
    let entries = [
        None,
        named(0, ROOT, links[0]),
        named(1, A, links[1]),
        named(1, D, links[2]),
        named(1, J, links[3]),
        None,
    ];
    bucket_fault(alloc, kind, &table(alloc, &entries, &heads)?)
}

#[test]
fn a_bucket_whose_list_is_not_as_said_is_named(rt: HostRuntime) {
    for (heads, links, bucket) in [
        // All are, in either order, with the root in its bucket.
        ([1, 0, 0, 0, 0, 0, 2, 0, 3], [0, 0, 4, 0], None),
        ([1, 0, 0, 0, 0, 0, 2, 0, 4], [0, 0, 0, 3], None),
        // It lacks an entry.
        ([1, 0, 0, 0, 0, 0, 0, 0, 3], [0, 0, 4, 0], Some(6)),
        ([1, 0, 0, 0, 0, 0, 2, 0, 4], [0, 0, 4, 0], Some(8)),
        ([1, 0, 0, 0, 0, 0, 2, 0, 3], [0, 0, 0, 0], Some(8)),
        // It has an entry of another bucket, which its own has too or lacks.
        ([1, 2, 0, 0, 0, 0, 2, 0, 3], [0, 0, 4, 0], Some(1)),
        ([1, 0, 0, 0, 0, 0, 2, 0, 3], [0, 3, 4, 0], Some(6)),
        ([2, 0, 0, 0, 0, 0, 0, 0, 3], [0, 1, 4, 0], Some(0)),
        // It has the root of another bucket.
        ([0, 1, 0, 0, 0, 0, 2, 0, 3], [0, 0, 4, 0], Some(1)),
        ([0, 0, 0, 0, 0, 0, 2, 0, 3], [0, 1, 4, 0], Some(6)),
        // It comes back to an entry.
        ([1, 0, 0, 0, 0, 0, 2, 0, 3], [1, 0, 4, 0], Some(0)),
        ([1, 0, 0, 0, 0, 0, 2, 0, 3], [0, 0, 4, 3], Some(8)),
        // It has a freed entry, and a number past the entries.
        ([1, 0, 0, 0, 0, 0, 2, 0, 3], [0, 0, 4, 5], Some(8)),
        ([1, 0, 0, 6, 0, 0, 2, 0, 3], [0, 0, 4, 0], Some(3)),
    ] {
        for kind in [EntryKind::Dir, EntryKind::File] {
            let answer = named_bucket(rt.alloc(), kind, heads, links);
            assert_eq!(rt; answer.ok(), Some(bucket));
        }
    }
}

#[test]
fn the_root_alone_need_not_stand_in_its_bucket(rt: HostRuntime) {
    for (kind, bucket) in [(EntryKind::Dir, None), (EntryKind::File, Some(0))] {
        let heads = [0, 0, 0, 0, 0, 0, 2, 0, 3];
        let answer = named_bucket(rt.alloc(), kind, heads, [0, 0, 4, 0]);
        assert_eq!(rt; answer.ok(), Some(bucket));
    }
}
