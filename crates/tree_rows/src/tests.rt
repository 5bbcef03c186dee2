ghost use Rattle.std.specs.Prelude.{◌≡◌, ◌^◌, ◌<◌, IfOk, length};

use super::*;
use entry_audit::{ReadEntry, ReadTable};
use save_bytes::{Name, Path};
use std::alloc::{AllocError, Global};
use std::test::Fail;

/// A name that begins with these bytes.
fn name(first: u8, second: u8) -> Name {
    Name([first, second, 0, 0, 0, 0, 0, 0, 0, 0, 0, 0, 0, 0, 0, 0])
}

fn entry(parent: u32, name: Name, wide: u64) -> Option<ReadEntry> {
    Some(ReadEntry {
        parent,
        name,
        sibling: 0,
        link: 0,
        first_dir: 0,
        first_file: 0,
        start: 0,
        wide,
    })
}

fn table(alloc: Global, entries: &[Option<ReadEntry>]) -> Result<ReadTable, AllocError>
    ensures { IfOk result (λ table. table.entries.items ≡ entries.now) }
{
    let entries = entries.to_vec(alloc)?;
    Ok(ReadTable {
        entries,
        heads: Vec::new(alloc),
    })
}

/// The rows of the tree that has these entries.
fn rows_with(
    alloc: Global,
    kind: TreeKind,
    dirs: &[Option<ReadEntry>],
    files: &[Option<ReadEntry>],
) -> Result<Vec<Row>, AllocError>
    requires dirs { length dirs.now < 2 ^ 32 }
    requires files { length files.now < 2 ^ 32 }
{
    let dirs = table(alloc, dirs)?;
    let files = table(alloc, files)?;
    rows_of(alloc, kind, &ReadTables { dirs, files })
}

/// Whether a path has names of one byte, and these.
fn is_path(path: &Path, letters: &[u8]) -> bool {
    if path.len() != letters.len() {
        return false;
    }
    for (i, letter) in letters.iter().enumerate() {
        if path.name(i) != name(*letter, 0) {
            return false;
        }
    }
    true
}

fn is_dir(row: &Row, letters: &[u8]) -> bool {
    matches!(row, Row::Dir(path) if is_path(path, letters))
}

fn is_file(row: &Row, letters: &[u8], size: u64) -> bool {
    match row {
        Row::File(path, found) => is_path(path, letters) && *found == size,
        _ => false,
    }
}

#[test]
fn a_tree_three_deep_is_listed(rt: HostRuntime) -> Result<(), Fail> {
    let root = entry(0, name(0, 0), 0);
    let dirs = [
        None,
        root,
        entry(5, name(b'b', 0), 0),
        entry(2, name(b'c', 0), 0),
        None,
        entry(1, name(b'a', 0), 0),
    ];
    let files = [
        None,
        entry(1, name(b'y', 0), 9),
        None,
        entry(3, name(b'x', 0), 7),
    ];
    let rows = rows_with(rt.alloc(), TreeKind::Save, &dirs, &files)?;
    assert_eq!(rt; rows.len(), 6);
    assert!(rt; is_dir(&rows[0], b""));
    assert!(rt; is_dir(&rows[1], b"a"));
    assert!(rt; is_dir(&rows[2], b"ab"));
    assert!(rt; is_dir(&rows[3], b"abc"));
    assert!(rt; is_file(&rows[4], b"abcx", 7));
    assert!(rt; is_file(&rows[5], b"y", 9));
    Ok(())
}

#[test]
fn a_directory_stands_before_a_file_of_its_path(rt: HostRuntime) -> Result<(), Fail> {
    let root = entry(0, name(0, 0), 0);
    let dirs = [None, root, entry(1, name(b'a', 0), 0)];
    let files = [None, entry(2, name(b'a', 0), 2), entry(1, name(b'a', 0), 1)];
    let rows = rows_with(rt.alloc(), TreeKind::Save, &dirs, &files)?;
    assert_eq!(rt; rows.len(), 4);
    assert!(rt; is_dir(&rows[0], b""));
    assert!(rt; is_dir(&rows[1], b"a"));
    assert!(rt; is_file(&rows[2], b"a", 1));
    assert!(rt; is_file(&rows[3], b"aa", 2));
    Ok(())
}

/// The identifier in a row that has one.
fn id_of(row: &Row) -> Option<u64> {
    match row {
        Row::Link(_, id) => Some(*id),
        _ => None,
    }
}

#[test]
fn names_are_ordered_by_their_bytes(rt: HostRuntime) -> Result<(), Fail> {
    let root = entry(0, name(0, 0), 0);
    let dirs = [None, root, entry(1, name(b'a', 0), 0)];
    let files = [
        None,
        entry(1, name(0x80, 0), 6),
        entry(1, name(b'a', 1), 5),
        entry(2, name(b'z', 0), 4),
        entry(1, name(b'a', 0), 3),
        entry(1, name(b'B', 0), 2),
        entry(1, name(0, 1), 1),
    ];
    let rows = rows_with(rt.alloc(), TreeKind::Vsxe, &dirs, &files)?;
    assert_eq!(rt; rows.len(), 8);
    assert!(rt; is_dir(&rows[0], b""));
    assert!(rt; is_dir(&rows[3], b"a"));
    for (row, id) in [(1, 1), (2, 2), (4, 3), (5, 4), (6, 5), (7, 6)] {
        assert!(rt; rows.get(row).and_then(id_of) == Some(id), "{id}");
    }
    Ok(())
}

#[test]
fn an_empty_tree_has_the_root_alone(rt: HostRuntime) -> Result<(), Fail> {
    let dirs = [None, entry(0, name(0, 0), 0), None];
    let files = [None, None];
    let rows = rows_with(rt.alloc(), TreeKind::Vsxe, &dirs, &files)?;
    assert_eq!(rt; rows.len(), 1);
    assert!(rt; is_dir(&rows[0], b""));
    Ok(())
}
