//! Tests of paths and their texts.

use super::*;
use arrayvec::ArrayVec;
use std::test::Fail;

#[test]
fn a_text_is_read_and_written_in_its_canonical_form(rt: HostRuntime) -> Result<(), Fail> {
    let cases: [(&[u8], usize, &[u8]); 12] = [
        (b"/", 0, b"/"),
        (b"/a", 1, b"/a"),
        (b"/a/b", 2, b"/a/b"),
        (b"/a\\x20b", 1, b"/a\\x20b"),
        (b"/\\x61", 1, b"/a"),
        (b"/\\x2F/\\x5c", 2, b"/\\x2f/\\x5c"),
        (b"/\\x00a", 1, b"/\\x00a"),
        (b"/a\\x00\\x00/b", 2, b"/a/b"),
        (b"/!~", 1, b"/!~"),
        (b"/\\x7f\\xFf\\x80", 1, b"/\\x7f\\xff\\x80"),
        (b"/0123456789abcdef", 1, b"/0123456789abcdef"),
        (
            b"/\\x00\\x00\\x00\\x00\\x00\\x00\\x00\\x00\\x00\\x00\\x00\\x00\\x00\\x00\\x00\\x01",
            1,
            b"/\\x00\\x00\\x00\\x00\\x00\\x00\\x00\\x00\\x00\\x00\\x00\\x00\\x00\\x00\\x00\\x01",
        ),
    ];
    for (text, names, want) in cases {
        let path = Path::read(text)?;
        assert_eq!(rt; path.len(), names, "{text:?}");
        let mut out = ArrayVec::new();
        path.write(&mut out);
        assert_eq!(rt; out.as_slice(), want, "{text:?}");
        let again = Path::read(out.as_slice())?;
        assert_eq!(rt; again.len(), names, "{text:?}");
    }
    Ok(())
}

#[test]
fn the_first_fault_from_the_left_is_answered(rt: HostRuntime) {
    let cases: [(&[u8], PathFault); 19] = [
        (b"", PathFault::Empty),
        (b"a", PathFault::NoSlash),
        (b"\\x2f", PathFault::NoSlash),
        (b"//", PathFault::EmptyName),
        (b"/a/", PathFault::EmptyName),
        (b"/a//b", PathFault::EmptyName),
        (b"/\\x00", PathFault::EmptyName),
        (b"/\\x00/\\xZZ", PathFault::EmptyName),
        (b"/aaaaaaaaaaaaaaaaa", PathFault::LongName),
        (b"/aaaaaaaaaaaaaaaa ", PathFault::LongName),
        (b"/aaaaaaaaaaaaaaaa\\xZZ", PathFault::LongName),
        (b"/aaaaaaaaaaaaaaaaa/", PathFault::LongName),
        (b"/\\xZZ", PathFault::BadEscape),
        (b"/a\\x2", PathFault::BadEscape),
        (b"/a\\X20", PathFault::BadEscape),
        (b"/a b//", PathFault::BadEscape),
        (b"/\x7f", PathFault::BadEscape),
        (
            b"/a/a/a/a/a/a/a/a/a/a/a/a/a/a/a/a/a/a/a/a/a/a/a/a/a/a/a/a/a/a/a/a/a/a/a/a/a/a/a/a/a/a/a/a/a/a/a/a/a/a/a/a/a/a/a/a/a/a/a/a/a/a/a/a/a",
            PathFault::TooDeep,
        ),
        (
            b"/a/a/a/a/a/a/a/a/a/a/a/a/a/a/a/a/a/a/a/a/a/a/a/a/a/a/a/a/a/a/a/a/a/a/a/a/a/a/a/a/a/a/a/a/a/a/a/a/a/a/a/a/a/a/a/a/a/a/a/a/a/a/a//",
            PathFault::EmptyName,
        ),
    ];
    for (text, want) in cases {
        assert_eq!(rt; Path::read(text).err(), Some(want), "{text:?}");
    }
}

#[test]
fn a_path_holds_at_most_64_names(rt: HostRuntime) -> Result<(), Fail> {
    let path = Path::read(
        b"/a/a/a/a/a/a/a/a/a/a/a/a/a/a/a/a/a/a/a/a/a/a/a/a/a/a/a/a/a/a/a/a/a/a/a/a/a/a/a/a/a/a/a/a/a/a/a/a/a/a/a/a/a/a/a/a/a/a/a/a/a/a/a/a",
    )?;
    assert_eq!(rt; path.len(), 64);
    let mut out = ArrayVec::new();
    path.write(&mut out);
    assert_eq!(rt; out.len(), 128);
    Ok(())
}

#[test]
fn names_are_added_and_taken_at_the_end(rt: HostRuntime) {
    let (first, second) = (
        Name(*b"a\0\0\0\0\0\0\0\0\0\0\0\0\0\0\0"),
        Name(*b"0123456789abcdef"),
    );
    let mut path = Path::root();
    assert_eq!(rt; path.len(), 0);
    assert_eq!(rt; path.pop(), None);
    path.push(first);
    path.push(second);
    assert_eq!(rt; path.len(), 2);
    assert_eq!(rt; path.name(0), first);
    assert_eq!(rt; path.name(1), second);
    assert_eq!(rt; path.pop(), Some(second));
    assert_eq!(rt; path.len(), 1);
    assert_eq!(rt; path.name(0), first);
}
