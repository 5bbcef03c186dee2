//! Rows, said on desks in memory.

ghost use Rattle.std.specs.Prelude.{◌≡◌, ◌≤◌};

use super::*;
use save_bytes::Path;
use save_disk::{Call, Failed, MemDesk};
use std::alloc::{AllocError, Global};
use std::test::Fail;
use tree_model::Row;

/// The text of a name whose sixteen bytes are all escaped.
const LONG_NAME: &[u8] =
    b"/\\x20\\x20\\x20\\x20\\x20\\x20\\x20\\x20\\x20\\x20\\x20\\x20\\x20\\x20\\x20\\xff";

#[test]
fn each_row_is_a_line(rt: HostRuntime) -> Result<(), Fail> {
    let rows = [
        Row::Dir(Path::root()),
        Row::Dir(Path::read(b"/saves")?),
        Row::File(Path::read(b"/a\\x20b/\\x2Fc")?, u64::MAX),
        Row::File(Path::read(b"/\\x41\\x5c")?, 0),
        Row::Link(Path::read(b"/saves/\\xff")?, 4294967295),
    ];
    let mut desk = MemDesk::new(rt.alloc(), &[0; 512], &[])?;
    say_rows(&mut desk, &rows)?;
    let want =
        "dir /\ndir /saves\nfile /a\\x20b/\\x2fc 18446744073709551615\nfile /A\\x5c 0\nlink /saves/\\xff 4294967295\n";
    assert_eq!(rt; desk.said(), want.as_bytes());
    assert_eq!(rt; (desk.call(0), desk.call(1)), (Some(Call::Say), None));
    let mut silent = MemDesk::new(rt.alloc(), &[0; 512], &[])?;
    say_rows(&mut silent, &[])?;
    assert_eq!(rt; silent.call(0), None);
    Ok(())
}

/// The text of the longest path: 64 names, of 65 bytes each with their `/`.
fn long_path(alloc: Global) -> Result<Vec<u8>, AllocError> {
    let mut text = Vec::new(alloc);
    for _ in 0..64 {
        text.extend_from_slice(LONG_NAME)?;
    }
    Ok(text)
}

/// Eight rows with the longest lines, of 4,187 bytes each.
fn long_rows(alloc: Global) -> Result<Vec<Row>, Fail> {
    let text = long_path(alloc)?;
    let mut rows = Vec::new(alloc);
    for _ in 0..8 {
        rows.push(Row::File(Path::read(&text)?, u64::MAX))?;
    }
    Ok(rows)
}

#[test]
fn many_rows_are_said_in_pieces(rt: HostRuntime) -> Result<(), Fail> {
    let rows = long_rows(rt.alloc())?;
    let mut line = Vec::from_slice(rt.alloc(), b"file ")?;
    line.extend_from_slice(&long_path(rt.alloc())?)?;
    line.extend_from_slice(b" 18446744073709551615\n")?;
    assert_eq!(rt; line.len(), 4187);
    let mut desk = MemDesk::new(rt.alloc(), &[0; 512], &[])?;
    say_rows(&mut desk, &rows)?;
    assert_eq!(rt; desk.said().len(), 8 * 4187);
    for said in desk.said().chunks(4187) {
        assert_eq!(rt; said, line.as_slice());
    }
    assert_eq!(rt; (desk.call(2), desk.call(3)), (Some(Call::Say), None));
    Ok(())
}

#[test]
fn a_sink_that_fails_leaves_a_front(rt: HostRuntime) -> Result<(), Fail> {
    let rows = long_rows(rt.alloc())?;
    for (nth, said) in [(1, 0), (2, 3 * 4187), (3, 6 * 4187)] {
        let mut desk = MemDesk::new(rt.alloc(), &[0; 512], &[])?;
        desk.fail(Call::Say, nth);
        assert_eq!(rt; say_rows(&mut desk, &rows), Err(Failed));
        assert_eq!(rt; desk.said().len(), said);
        assert_eq!(rt; desk.call(nth as usize), None);
    }
    Ok(())
}
