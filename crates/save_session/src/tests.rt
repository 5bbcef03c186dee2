//! What is said over an open container, and read through its store, on desks in memory.

ghost use Rattle.page_image.specs.Images.{IsDiskOf};
ghost use Rattle.container.specs.Containers.{IsWholeContainer};

use super::*;
use container::Container;
use save_bytes::{Path, Space};
use save_disk::{Call, Desk, Failed, MemDesk, ZeroSigner};
use save_fs::Listing;
use save_samples::{Sample, sample};
use std::alloc::Global;
use std::test::Fail;

/// The first bytes of the store of an open container, behind a text that is said.
fn first_behind<D: Desk>(container: &mut Container, desk: &mut D, text: &[u8]) -> Option<[u8; 4]>
    requires whole { IsWholeContainer container.old }
    requires disk { IsDiskOf (D.state desk.old) container.old.image }
{
    say_piece(desk, text).ok()?;
    let mut store = container.store(desk);
    if store.len() < 4 {
        return None;
    }
    let mut out = [0; 4];
    store.copy(0, &mut out).ok()?;
    Some(out)
}

#[test]
fn a_store_shows_the_same_behind_what_is_said(rt: HostRuntime) -> Result<(), Fail> {
    let image = sample(rt.alloc(), Sample::Single)?;
    let mut desk = MemDesk::new(rt.alloc(), &image, &[])?;
    let mut container = Container::open(rt.alloc(), &mut desk, &ZeroSigner)?;
    assert_eq!(rt;
        first_behind(&mut container, &mut desk, b"data 2\n"),
        Some(*b"SAVE")
    );
    assert_eq!(rt; desk.said(), b"data 2\n".as_slice());
    assert_eq!(rt; desk.image(), image.as_slice());
    Ok(())
}

#[test]
fn a_sink_that_fails_says_no_more(rt: HostRuntime) -> Result<(), Fail> {
    let mut desk = MemDesk::new(rt.alloc(), &[0; 512], &[])?;
    desk.fail(Call::Say, 2);
    assert_eq!(rt; say_piece(&mut desk, b"ok\n"), Ok(()));
    assert_eq!(rt; say_piece(&mut desk, b"committed 1\n"), Err(Failed));
    assert_eq!(rt; desk.said(), b"ok\n".as_slice());
    assert_eq!(rt; desk.call(2), None);
    Ok(())
}

/// The rows of the tree that an open container holds, and the first bytes of the file at a path.
fn shown<D: Desk>(
    alloc: Global,
    container: &mut Container,
    desk: &mut D,
    path: &Path,
) -> Result<(Listing, [u8; 4], usize), Fail>
    requires whole { IsWholeContainer container.old }
    requires disk { IsDiskOf (D.state desk.old) container.old.image }
{
    let fs = mount_store(alloc, container, desk)?;
    let rows = list_store(&fs, alloc, container, desk)?;
    let mut getting = begin_get_store(&fs, container, desk, path)?;
    let mut out = [0; 4];
    let n = get_piece_store(&fs, container, desk, &mut getting, &mut out)?;
    Ok((rows, out, n))
}

#[test]
fn a_file_is_read_through_the_store(rt: HostRuntime) -> Result<(), Fail> {
    let image = sample(rt.alloc(), Sample::Tree)?;
    let mut desk = MemDesk::new(rt.alloc(), &image, &[])?;
    let mut container = Container::open(rt.alloc(), &mut desk, &ZeroSigner)?;
    let path = Path::read(b"/a/x")?;
    let (rows, out, n) = shown(rt.alloc(), &mut container, &mut desk, &path)?;
    assert_eq!(rt; rows.len(), 3);
    assert_eq!(rt; (out, n), (*b"xyz\0", 3));
    assert_eq!(rt; desk.image(), image.as_slice());
    Ok(())
}
