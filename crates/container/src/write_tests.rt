//! Writing through the stores of sample images, over desks in memory.

ghost use Rattle.std.specs.Prelude.{◌≡◌, ◌+◌, ◌≤◌, length, IsTrue};
ghost use Rattle.save_bytes.specs.State.{IsInside};

use super::*;
use save_bytes::{Bad, Floor, Space};
use save_disk::{MemDesk, ZeroSigner};
use save_samples::{Sample, put_digest, sample};
use std::alloc::Global;
use std::process::Abort;
use std::test::Fail;

/// The refusal that names a block.
fn blames(part: u8, level: u8, block: u64) -> Bad {
    Bad::Damaged { part, level, block }
}

/// How many bytes are lent from a place on, up to ten, and the first of them.
fn first_of<S: Space>(store: &mut S, at: u64) -> Result<(usize, u8), Bad>
    requires { IsInside (S.state store.old).shape at 1 }
    ensures { (S.state store.new).shape ≡ (S.state store.old).shape }
{
    let piece = store.piece(at, 10)?;
    Ok((piece.len(), piece[0]))
}

/// Puts bytes, and reads there and at another place.
fn put_and_read<S: Floor>(
    store: &mut S,
    at: u64,
    bytes: &[u8],
    other: u64,
) -> (Result<(), Bad>, [Result<(usize, u8), Bad>; 2])
    requires at { IsInside (S.state store.old).shape at (length bytes.now) }
    requires there { IsInside (S.state store.old).shape at 1 }
    requires other { IsInside (S.state store.old).shape other 1 }
{
    let put = store.put(at, bytes);
    let there = first_of(store, at);
    (put, [there, first_of(store, other)])
}

/// Asks whether a place may be put to, clears its block, and reads it.
fn clear_and_read<S: Floor>(
    store: &mut S,
    at: u64,
) -> (Result<(), Bad>, Result<(), Bad>, Result<(usize, u8), Bad>)
    requires { IsInside (S.state store.old).shape at 1 }
{
    let ready = store.ready(at, 1);
    let clear = store.clear(at);
    (ready, clear, first_of(store, at))
}

/// Puts bytes into the store of an image, and reads there and at another place.
fn put_in(
    rt: &impl Abort,
    alloc: Global,
    image: &[u8],
    at: u64,
    bytes: &[u8; 4],
    other: u64,
) -> Result<(Result<(), Bad>, [Result<(usize, u8), Bad>; 2]), Fail>
    requires at { at ≤ 100000 }
    requires other { other ≤ 100000 }
{
    let mut desk = MemDesk::new(alloc, image, &[])?;
    let mut container = Container::open(alloc, &mut desk, &ZeroSigner)?;
    let mut store = container.store(&mut desk);
    assert!(rt; at + 4 <= store.len() && other < store.len());
    Ok(put_and_read(&mut store, at, bytes, other))
}

#[test]
fn put_starts_a_blank_block_from_zeros(rt: HostRuntime) -> Result<(), Fail> {
    let alloc = rt.alloc();
    let image = sample(alloc, Sample::Single)?;
    assert_eq!(rt;
        put_in(&rt, alloc, &image, 4096, &[7, 0, 0, 0], 4100)?,
        (Ok(()), [Ok((10, 7)), Ok((10, 0))])
    );
    assert_eq!(rt;
        put_in(&rt, alloc, &image, 4096, &[7, 0, 0, 0], 8191)?,
        (Ok(()), [Ok((10, 7)), Ok((1, 0))])
    );
    assert_eq!(rt;
        put_in(&rt, alloc, &image, 4096, &[7, 0, 0, 0], 8192)?,
        (Ok(()), [Ok((10, 7)), Err(blames(0, 4, 2))])
    );
    Ok(())
}

#[test]
fn spoilt_block_is_put_to_once_it_is_cleared(rt: HostRuntime) -> Result<(), Fail> {
    let alloc = rt.alloc();
    let mut image = sample(alloc, Sample::Single)?;
    image[24_576] ^= 1;
    let mut desk = MemDesk::new(alloc, &image, &[])?;
    let mut container = Container::open(alloc, &mut desk, &ZeroSigner)?;
    let mut store = container.store(&mut desk);
    assert!(rt; store.len() == 34_816);
    assert_eq!(rt;
        clear_and_read(&mut store, 0),
        (Err(blames(0, 4, 0)), Ok(()), Ok((10, 0)))
    );
    Ok(())
}

// Part 0 ends at byte 1,560.
#[test]
fn put_goes_from_part_to_part(rt: HostRuntime) -> Result<(), Fail> {
    let alloc = rt.alloc();
    let image = sample(alloc, Sample::Dual)?;
    assert_eq!(rt;
        put_in(&rt, alloc, &image, 1558, &[1, 2, 3, 4], 1560)?,
        (Ok(()), [Ok((2, 1)), Ok((10, 3))])
    );
    assert_eq!(rt;
        put_in(&rt, alloc, &image, 1558, &[1, 2, 3, 4], 1562)?,
        (Ok(()), [Ok((2, 1)), Ok((10, 0))])
    );
    Ok(())
}

// Part 1's first block has another digest than its entry says: nothing of part 0 is changed.
#[test]
fn part_1_is_asked_before_part_0_is_changed(rt: HostRuntime) -> Result<(), Fail> {
    let alloc = rt.alloc();
    let mut image = sample(alloc, Sample::Dual)?;
    put_digest(&mut image, 77_824, 4096, 61_440);
    put_digest(&mut image, 61_440, 4096, 57_344);
    put_digest(&mut image, 57_344, 512, 53_248);
    put_digest(&mut image, 53_248, 512, 1840 + 0x10C);
    put_digest(&mut image, 1536, 604, 0x16C);
    image[77_824] ^= 1;
    assert_eq!(rt;
        put_in(&rt, alloc, &image, 1558, &[1, 2, 3, 4], 1560)?,
        (Err(blames(1, 4, 0)), [Ok((2, 0)), Err(blames(1, 4, 0))])
    );
    Ok(())
}
