//! What was put and cleared in sample images is dropped.

ghost use Rattle.std.specs.Prelude.{◌≤◌};
ghost use Rattle.page_image.specs.Images.{IsDiskOf};
ghost use Rattle.container.specs.Containers.{IsWholeContainer};

use super::*;
use save_bytes::{Bad, Floor, Space};
use save_disk::{Disk, MemDesk, ZeroSigner};
use save_samples::{Sample, put_digest, sample};
use std::alloc::Global;
use std::process::Abort;
use std::test::Fail;

/// The refusal that names a block.
fn blames(part: u8, level: u8, block: u64) -> Bad {
    Bad::Damaged { part, level, block }
}

/// Puts four bytes through a store.
fn put<D: Disk>(
    rt: &impl Abort,
    container: &mut Container,
    disk: &mut D,
    at: u64,
    bytes: &[u8; 4],
) -> Result<(), Bad>
    requires disk { IsDiskOf (D.state disk.old) container.old.image }
    requires whole { IsWholeContainer container.old }
    requires at { at ≤ 100000 }
    ensures disk { IsDiskOf (D.state disk.new) container.new.image }
    ensures whole { IsWholeContainer container.new }
{
    let mut store = container.store(disk);
    assert!(rt; at + 4 <= store.len());
    store.put(at, bytes)
}

/// Clears a block through a store.
fn clear<D: Disk>(
    rt: &impl Abort,
    container: &mut Container,
    disk: &mut D,
    at: u64,
) -> Result<(), Bad>
    requires disk { IsDiskOf (D.state disk.old) container.old.image }
    requires whole { IsWholeContainer container.old }
    ensures disk { IsDiskOf (D.state disk.new) container.new.image }
    ensures whole { IsWholeContainer container.new }
{
    let mut store = container.store(disk);
    assert!(rt; at < store.len());
    store.clear(at)
}

/// Copies a byte through a store.
fn copy<D: Disk>(
    rt: &impl Abort,
    container: &mut Container,
    disk: &mut D,
    at: u64,
    byte: &mut [u8; 1],
) -> Result<(), Bad>
    requires disk { IsDiskOf (D.state disk.old) container.old.image }
    requires whole { IsWholeContainer container.old }
    ensures disk { IsDiskOf (D.state disk.new) container.new.image }
    ensures whole { IsWholeContainer container.new }
{
    let mut store = container.store(disk);
    assert!(rt; at < store.len());
    store.copy(at, byte)
}

/// Drops the changes, and reads a byte.
fn dropped<D: Disk>(
    rt: &impl Abort,
    container: &mut Container,
    disk: &mut D,
    at: u64,
) -> Result<u8, Bad>
    requires disk { IsDiskOf (D.state disk.old) container.old.image }
    requires whole { IsWholeContainer container.old }
    ensures disk { IsDiskOf (D.state disk.new) container.new.image }
    ensures whole { IsWholeContainer container.new }
{
    container.abort();
    let mut byte = [0];
    match copy(rt, container, disk, at, &mut byte) {
        Ok(()) => Ok(byte[0]),
        Err(bad) => Err(bad),
    }
}

/// What is read at a place of an image once four bytes were put and dropped.
fn put_and_dropped(
    rt: &impl Abort,
    alloc: Global,
    image: &[u8],
    at: u64,
    from: u64,
) -> Result<(Result<(), Bad>, Result<u8, Bad>), Fail>
    requires { at ≤ 100000 }
{
    let mut desk = MemDesk::new(alloc, image, &[])?;
    let mut container = Container::open(alloc, &mut desk, &ZeroSigner)?;
    let put = put(rt, &mut container, &mut desk, at, &[1, 2, 3, 4]);
    Ok((put, dropped(rt, &mut container, &mut desk, from)))
}

// The second block of level four was never written.
#[test]
fn what_was_put_is_gone(rt: HostRuntime) -> Result<(), Fail> {
    let alloc = rt.alloc();
    let image = sample(alloc, Sample::Single)?;
    for (at, from, want) in [
        (0, 0, Ok(b'S')),
        (0, 3, Ok(b'E')),
        (1, 0, Ok(b'S')),
        (4094, 4095, Ok(0)),
        (4096, 4096, Err(blames(0, 4, 1))),
        (4096, 8191, Err(blames(0, 4, 1))),
        (4096, 0, Ok(b'S')),
    ] {
        assert_eq!(rt;
            put_and_dropped(&rt, alloc, &image, at, from)?,
            (Ok(()), want)
        );
    }
    Ok(())
}

// Part 0 ends at byte 1,560. No block of part 1 was ever written.
#[test]
fn put_into_both_parts_is_gone(rt: HostRuntime) -> Result<(), Fail> {
    let alloc = rt.alloc();
    let image = sample(alloc, Sample::Dual)?;
    for (at, from, want) in [
        (1556, 1559, Ok(0)),
        (1558, 1558, Ok(0)),
        (1558, 1561, Err(blames(1, 1, 0))),
        (1560, 1560, Err(blames(1, 1, 0))),
        (1560, 1559, Ok(0)),
    ] {
        assert_eq!(rt;
            put_and_dropped(&rt, alloc, &image, at, from)?,
            (Ok(()), want)
        );
    }
    Ok(())
}

// The first block of part 1 holds zeros, and has a hash path. It has no second copy.
#[test]
fn external_block_is_tried_anew(rt: HostRuntime) -> Result<(), Fail> {
    let alloc = rt.alloc();
    let mut image = sample(alloc, Sample::Dual)?;
    put_digest(&mut image, 77_824, 4096, 61_440);
    put_digest(&mut image, 61_440, 4096, 57_344);
    put_digest(&mut image, 57_344, 512, 53_248);
    put_digest(&mut image, 53_248, 512, 1840 + 0x10C);
    put_digest(&mut image, 1536, 604, 0x16C);
    for (bytes, want) in [([0, 0, 0, 0], Ok(0)), ([1, 2, 3, 4], Err(blames(1, 4, 0)))] {
        let mut desk = MemDesk::new(alloc, &image, &[])?;
        let mut container = Container::open(alloc, &mut desk, &ZeroSigner)?;
        assert_eq!(rt; dropped(&rt, &mut container, &mut desk, 1564), Ok(0));
        assert_eq!(rt; put(&rt, &mut container, &mut desk, 1560, &bytes), Ok(()));
        assert_eq!(rt; dropped(&rt, &mut container, &mut desk, 1564), want);
        assert_eq!(rt; dropped(&rt, &mut container, &mut desk, 5655), want);
        assert_eq!(rt;
            dropped(&rt, &mut container, &mut desk, 5656),
            Err(blames(1, 4, 1))
        );
    }
    Ok(())
}

#[test]
fn what_was_cleared_is_there_again(rt: HostRuntime) -> Result<(), Fail> {
    let alloc = rt.alloc();
    let mut image = sample(alloc, Sample::Single)?;
    for want in [Ok(b'S'), Err(blames(0, 4, 0))] {
        let mut desk = MemDesk::new(alloc, &image, &[])?;
        let mut container = Container::open(alloc, &mut desk, &ZeroSigner)?;
        assert_eq!(rt; clear(&rt, &mut container, &mut desk, 9), Ok(()));
        assert_eq!(rt; dropped(&rt, &mut container, &mut desk, 0), want);
        assert_eq!(rt;
            dropped(&rt, &mut container, &mut desk, 8191),
            Err(blames(0, 4, 1))
        );
        // The first byte of level four, which spoils the block.
        image[24_576] ^= 1;
    }
    Ok(())
}
