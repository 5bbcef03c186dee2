//! Paths and directories of a tree whose tables have one bucket each, so that each list has all entries of a kind.

ghost use Rattle.std.specs.Prelude.{◌<◌};

use super::*;
use save_bytes::{Bad, set_u32};
use save_samples::{Hole, HoleSpace};

/// Where the tables stand, in 1,024 bytes: room for 8 directories and 8 files.
const DIRS: TableInfo = TableInfo {
    buckets_at: 0,
    buckets: 1,
    table_at: 64,
};

const FILES: TableInfo = TableInfo {
    buckets_at: 4,
    buckets: 1,
    table_at: 512,
};

/// Nothing stands there, and no directory above it.
const NOTHING: Standing = Standing {
    parent: None,
    dir: None,
    file: None,
};

/// Makes a directory's entry: its parent, the one byte of its name, its first directory and file, and the next entry
/// in the bucket's list.
fn set_dir(
    bytes: &mut [u8; 1024],
    entry: usize,
    parent: u32,
    name: u8,
    firsts: (u32, u32),
    link: u32,
)
    requires { entry < 8 }
{
    let at = 64 + entry * 0x28;
    set_u32(bytes, at, parent);
    bytes[at + 4] = name;
    set_u32(bytes, at + 0x18, firsts.0);
    set_u32(bytes, at + 0x1C, firsts.1);
    set_u32(bytes, at + 0x24, link);
}

/// Makes a file's entry.
fn set_file(bytes: &mut [u8; 1024], entry: usize, parent: u32, name: u8, link: u32)
    requires { entry < 8 }
{
    let at = 512 + entry * 0x30;
    set_u32(bytes, at, parent);
    bytes[at + 4] = name;
    set_u32(bytes, at + 0x2C, link);
}

/// The directories `/a`, `/a/b` and `/c`, entries 2, 3 and 4, and the files `/a`, `/a/b/x` and `/a/b`, entries 1, 2
/// and 3.
fn tree() -> [u8; 1024] {
    let mut bytes = [0; 1024];
    set_u32(&mut bytes, 0, 4);
    set_u32(&mut bytes, 4, 3);
    set_u32(&mut bytes, 64, 5);
    set_u32(&mut bytes, 68, 8);
    set_dir(&mut bytes, 1, 0, 0, (2, 1), 0);
    set_dir(&mut bytes, 2, 1, b'a', (3, 3), 1);
    set_dir(&mut bytes, 3, 2, b'b', (0, 2), 2);
    set_dir(&mut bytes, 4, 1, b'c', (0, 0), 3);
    // In the root `/c` comes behind `/a`.
    set_u32(&mut bytes, 164, 4);
    set_u32(&mut bytes, 512, 4);
    set_u32(&mut bytes, 516, 8);
    set_file(&mut bytes, 1, 1, b'a', 0);
    set_file(&mut bytes, 2, 3, b'x', 1);
    set_file(&mut bytes, 3, 2, b'b', 2);
    bytes
}

/// The 64 blocks of 16 bytes, one of which is this.
fn with_hole(block: usize, hole: Hole) -> [Hole; 64]
    requires { block < 64 }
{
    let mut holes = [Hole::Filled; 64];
    holes[block] = hole;
    holes
}

/// What stands at the path of a text, where one block is this; none where the text is no path's.
fn standing(
    bytes: &mut [u8; 1024],
    block: usize,
    hole: Hole,
    text: &[u8],
) -> Option<Result<Standing, EntryFault>>
    requires { block < 64 }
{
    let mut holes = with_hole(block, hole);
    let mut space = HoleSpace::new(bytes, 16, &mut holes);
    match Path::read(text) {
        Ok(path) => Some(find_path(&mut space, DIRS, FILES, &path)),
        Err(_) => None,
    }
}

/// Whether a directory has entries, where one block is this.
fn children(
    bytes: &mut [u8; 1024],
    block: usize,
    hole: Hole,
    entry: u32,
) -> Result<bool, EntryFault>
    requires { block < 64 }
{
    let mut holes = with_hole(block, hole);
    let mut space = HoleSpace::new(bytes, 16, &mut holes);
    has_children(&mut space, DIRS, entry)
}

fn at(parent: u32, dir: Option<u32>, file: Option<u32>) -> Standing {
    Standing {
        parent: Some(parent),
        dir,
        file,
    }
}

#[test]
fn a_directory_and_a_file_of_one_path_are_told_apart(rt: HostRuntime) {
    let mut bytes = tree();
    for (text, want) in [
        (b"/a".as_slice(), at(1, Some(2), Some(1))),
        (b"/a/b".as_slice(), at(2, Some(3), Some(3))),
        (b"/a/b/x".as_slice(), at(3, None, Some(2))),
        (b"/c".as_slice(), at(1, Some(4), None)),
    ] {
        let found = standing(&mut bytes, 0, Hole::Filled, text);
        assert_eq!(rt; found, Some(Ok(want)));
    }
}

#[test]
fn the_root_has_no_parent(rt: HostRuntime) {
    let root = Standing {
        parent: None,
        dir: Some(1),
        file: None,
    };
    let mut bytes = tree();
    let found = standing(&mut bytes, 0, Hole::Filled, b"/");
    assert_eq!(rt; found, Some(Ok(root)));
}

#[test]
fn nothing_stands_below_what_is_no_directory(rt: HostRuntime) {
    let mut bytes = tree();
    for (text, want) in [
        (b"/b".as_slice(), at(1, None, None)),
        (b"/c/b".as_slice(), at(4, None, None)),
        (b"/b/x".as_slice(), NOTHING),
        (b"/a/b/x/a".as_slice(), NOTHING),
        (b"/b/a/b".as_slice(), NOTHING),
    ] {
        let found = standing(&mut bytes, 0, Hole::Filled, text);
        assert_eq!(rt; found, Some(Ok(want)));
    }
}

#[test]
fn a_directory_is_empty_without_directories_and_files(rt: HostRuntime) {
    let mut bytes = tree();
    for (entry, want) in [(1, true), (2, true), (3, true), (4, false)] {
        let some = children(&mut bytes, 0, Hole::Filled, entry);
        assert_eq!(rt; some, Ok(want));
    }
}

// Entry 2 of the files begins at 608, in block 38. The first entries of directories 2 and 3 stand at 168 and 208, in
// blocks 10 and 13.
#[test]
fn a_spoilt_block_is_named_where_it_is_read(rt: HostRuntime) {
    let damaged = EntryFault::Bad(Bad::Damaged {
        part: 0,
        level: 3,
        block: 38,
    });
    let mut bytes = tree();
    let found = standing(&mut bytes, 38, Hole::Broken(3), b"/a/b/x");
    assert_eq!(rt; found, Some(Err(damaged)));
    let missing = standing(&mut bytes, 38, Hole::Broken(3), b"/b/x");
    assert_eq!(rt; missing, Some(Ok(NOTHING)));
    let damaged = EntryFault::Bad(Bad::Damaged {
        part: 0,
        level: 3,
        block: 13,
    });
    let some = children(&mut bytes, 13, Hole::Broken(3), 3);
    assert_eq!(rt; some, Err(damaged));
    let some = children(&mut bytes, 13, Hole::Broken(3), 2);
    assert_eq!(rt; some, Ok(true));
}

// The last word of directory 1 stands at 140: it names directory 4 again.
#[test]
fn a_list_without_an_end_names_its_bucket(rt: HostRuntime) {
    let mut bytes = tree();
    set_u32(&mut bytes, 140, 4);
    let found = standing(&mut bytes, 0, Hole::Filled, b"/a/x");
    let broken = EntryFault::Broken { table: 4, entry: 0 };
    assert_eq!(rt; found, Some(Err(broken)));
}
