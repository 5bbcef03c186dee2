ghost use Rattle.std.specs.Prelude.{◌≡◌, ℕ, ◌+◌, ◌*◌, ◌<◌, ◌≤◌, length, slice_index, IsTrue, IfOk, OnOk, Some};
ghost use Rattle.std.specs.Result.{result_err};
ghost use Rattle.save_bytes.specs.Cells.{Byte};
ghost use Rattle.save_bytes.specs.State.{IsInside, IsWritable, CanPut};
ghost use Rattle.save_bytes.specs.Reads.{Reads};
ghost use Rattle.save_bytes.specs.Spots.{Spot, Hold, Misses};
ghost use Rattle.save_disk.specs.MemDesks.{state_of};
ghost use Rattle.save_disk.specs.State.{IsQuiet};
ghost use Rattle.save_disk.specs.Trace.{Told, image_now};
ghost use Rattle.page_image.specs.Images.{IsDiskOf};
ghost use Rattle.page_image.specs.Held.{shown};
ghost use Rattle.page_image.specs.WriteOuts.{IsClean};

use super::*;
use save_bytes::{Bad, Space};
use save_disk::{Call, Disk, Failed, MemDesk};
use std::alloc::{AllocError, Global};
use std::test::Fail;

/// A desk with such a length of bytes, each unlike its neighbours.
fn desk_with(alloc: Global, len: usize, is_wide: bool) -> Result<MemDesk, AllocError>
    requires { len ≤ 100000 }
    ensures { IfOk result (λ desk. (state_of desk).size ≡ len) }
{
    let mut bytes = vec![in alloc; 0u8; len]?;
    number(&mut bytes);
    if is_wide {
        MemDesk::wide(alloc, &bytes, &[])
    } else {
        MemDesk::new(alloc, &bytes, &[])
    }
}

/// Byte x is the remainder of x by 251.
fn number(bytes: &mut [u8]) {
    for (x, byte) in bytes.iter_mut().enumerate() {
        *byte = (x % 251) as u8;
    }
}

/// How many of the first 64 calls are of a kind.
fn count(desk: &MemDesk, kind: Call) -> usize {
    let mut n: usize = 0;
    for i in 0..64usize {
        if desk.call(i) == Some(kind) {
            n = n.saturating_add(1);
        }
    }
    n
}

/// What a piece of a new image is: how long, its first byte and its last.
fn piece_of(alloc: Global, is_wide: bool, at: u64, most: usize) -> Result<(usize, u8, u8), Fail>
    requires inside { at < 1300 }
    requires some { 1 ≤ most }
{
    let mut desk = desk_with(alloc, 1300, is_wide)?;
    let mut state = ImageState::open(alloc, &mut desk, 1300)?;
    let mut image = state.view(&mut desk);
    let piece = image.piece(at, most)?;
    Ok((piece.len(), piece[0], piece[piece.len() - 1]))
}

#[test]
fn pieces_are_lent_from_any_place(rt: HostRuntime) -> Result<(), Fail> {
    for is_wide in [false, true] {
        for (at, most, want) in [
            (0u64, 1usize, (1usize, 0u8, 0u8)),
            (0, 2000, (512, 0, 9)),
            (511, 3, (1, 9, 9)),
            (512, 3, (3, 10, 12)),
            (512, 2000, (788, 10, 44)),
            (1024, 300, (276, 20, 44)),
            (1299, 5, (1, 44, 44)),
        ] {
            assert!(rt; at < 1300 && 1 <= most);
            assert_eq!(rt; piece_of(rt.alloc(), is_wide, at, most)?, want, "at {at}");
        }
    }
    Ok(())
}

#[test]
fn opening_reads_the_first_sector_alone(rt: HostRuntime) -> Result<(), Fail> {
    for (is_wide, len, frames) in [
        (false, 1300usize, 1usize),
        (false, 512, 1),
        (true, 4096, 1),
        (true, 9000, 3),
        (false, 20000, 5),
        (true, 65536, 16),
        (false, 70000, 16),
    ] {
        assert!(rt; 512 <= len && len <= 70000);
        let mut desk = desk_with(rt.alloc(), len, is_wide)?;
        let mut state = ImageState::open(rt.alloc(), &mut desk, len as u64)?;
        assert_eq!(rt; state.frames(), frames);
        let image = state.view(&mut desk);
        assert_eq!(rt; image.len(), len as u64);
        assert_eq!(rt;
            (image.header()[0], image.header()[250], image.header()[511]),
            (0, 250, 9)
        );
        assert_eq!(rt; count(&desk, Call::Read), 1);
        assert_eq!(rt; count(&desk, Call::Write), 0);
    }
    Ok(())
}

/// The byte at a place after a put of two bytes there, and the disk's byte at it before and after a flush.
fn put_and_flush(alloc: Global, is_wide: bool, at: u64) -> Result<(u8, u8, u8), Fail>
    requires first { 512 ≤ at }
    requires inside { at + 2 ≤ 1300 }
{
    let mut desk = desk_with(alloc, 1300, is_wide)?;
    let mut state = ImageState::open(alloc, &mut desk, 1300)?;
    put(&mut desk, &mut state, at, &[255, 254])?;
    let shown = byte_in(&mut desk, &mut state, at)?;
    let before = byte_at(desk.image(), at);
    flush(&mut desk, &mut state)?;
    let after = byte_at(desk.image(), at);
    Ok((shown, before, after))
}

/// A byte, or 0 past the end.
fn byte_at(bytes: &[u8], at: u64) -> u8 {
    bytes.get(at as usize).copied().unwrap_or(0)
}

#[test]
fn a_put_comes_to_the_disk_with_a_flush(rt: HostRuntime) -> Result<(), Fail> {
    for is_wide in [false, true] {
        for (at, before) in [(512u64, 10u8), (1023, 19), (1298, 43)] {
            assert!(rt; 512 <= at && at <= 1298);
            assert_eq!(rt;
                put_and_flush(rt.alloc(), is_wide, at)?,
                (255, before, 255),
                "at {at}"
            );
        }
    }
    Ok(())
}

/// Puts bytes.
fn put(desk: &mut MemDesk, state: &mut ImageState, at: u64, bytes: &[u8]) -> Result<(), Bad>
    requires disk_of { IsDiskOf (state_of desk.old) state.old }
    requires first { 512 ≤ at }
    requires inside { at + length bytes.now ≤ state.old.len }
    ensures disk_of { IsDiskOf (state_of desk.new) state.new }
    ensures len { state.new.len ≡ state.old.len }
{
    state.view(desk).put(at, bytes)
}

/// The byte at a place, as the image has it.
fn byte_in(desk: &mut MemDesk, state: &mut ImageState, at: u64) -> Result<u8, Bad>
    requires disk_of { IsDiskOf (state_of desk.old) state.old }
    requires inside { at < state.old.len }
    ensures disk_of { IsDiskOf (state_of desk.new) state.new }
    ensures len { state.new.len ≡ state.old.len }
{
    let mut image = state.view(desk);
    read_one(&mut image, at)
}

/// Writes what is changed.
fn flush(desk: &mut MemDesk, state: &mut ImageState) -> Result<(), Failed>
    requires { IsDiskOf (state_of desk.old) state.old }
    ensures disk_of { IsDiskOf (state_of desk.new) state.new }
    ensures len { state.new.len ≡ state.old.len }
{
    state.view(desk).flush()
}

/// How many writes a flush makes after a put, and how many all flushes make when another one follows.
fn writes_after_put(
    alloc: Global,
    is_wide: bool,
    at: u64,
    bytes: &[u8],
) -> Result<(usize, usize), Fail>
    requires first { 512 ≤ at }
    requires inside { at + length bytes.now ≤ 9000 }
{
    let mut desk = desk_with(alloc, 9000, is_wide)?;
    let mut state = ImageState::open(alloc, &mut desk, 9000)?;
    put(&mut desk, &mut state, at, bytes)?;
    flush(&mut desk, &mut state)?;
    let first = count(&desk, Call::Write);
    flush(&mut desk, &mut state)?;
    Ok((first, count(&desk, Call::Write)))
}

#[test]
fn a_flush_writes_each_changed_sector_once(rt: HostRuntime) -> Result<(), Fail> {
    let long = [7; 5000];
    for (at, len, narrow, wide) in [
        (512u64, 1usize, 1usize, 1usize),
        (512, 0, 0, 0),
        (1023, 2, 2, 1),
        (1024, 512, 1, 1),
        (4000, 5000, 11, 3),
        (8999, 1, 1, 1),
        (9000, 0, 0, 0),
    ] {
        assert!(rt; 512 <= at && len <= 5000);
        assert!(rt; at + len as u64 <= 9000);
        let bytes = &long[..len];
        assert_eq!(rt;
            writes_after_put(rt.alloc(), false, at, bytes)?,
            (narrow, narrow),
            "at {at}"
        );
        assert_eq!(rt;
            writes_after_put(rt.alloc(), true, at, bytes)?,
            (wide, wide),
            "at {at}"
        );
    }
    Ok(())
}

#[test]
fn bytes_0_to_511_go_out_as_they_are(rt: HostRuntime) -> Result<(), Fail> {
    let mut desk = desk_with(rt.alloc(), 1300, true)?;
    let mut state = ImageState::open(rt.alloc(), &mut desk, 1300)?;
    put(&mut desk, &mut state, 512, &[255])?;
    flush(&mut desk, &mut state)?;
    assert_eq!(rt; count(&desk, Call::Write), 1);
    let bytes = desk.image();
    assert_eq!(rt; bytes.len(), 1300);
    assert_eq!(rt;
        (byte_at(bytes, 0), byte_at(bytes, 250), byte_at(bytes, 511)),
        (0, 250, 9)
    );
    assert_eq!(rt;
        (
            byte_at(bytes, 512),
            byte_at(bytes, 513),
            byte_at(bytes, 1299)
        ),
        (255, 11, 44)
    );
    let image = state.view(&mut desk);
    assert_eq!(rt; (image.header()[0], image.header()[511]), (0, 9));
    Ok(())
}

#[test]
fn opening_fails_where_its_read_fails(rt: HostRuntime) -> Result<(), Fail> {
    for is_wide in [false, true] {
        let mut desk = desk_with(rt.alloc(), 1300, is_wide)?;
        desk.fail(Call::Read, 1);
        let fault = ImageState::open(rt.alloc(), &mut desk, 1300).err();
        assert_eq!(rt; fault, Some(ImageFault::Disk));
        assert_eq!(rt; count(&desk, Call::Read), 1);
    }
    Ok(())
}

#[test]
fn a_sector_whose_write_failed_is_written_again(rt: HostRuntime) -> Result<(), Fail> {
    let mut desk = desk_with(rt.alloc(), 3000, false)?;
    let mut state = ImageState::open(rt.alloc(), &mut desk, 3000)?;
    desk.fail(Call::Write, 2);
    put(&mut desk, &mut state, 1000, &[255; 600])?;
    assert!(rt; flush(&mut desk, &mut state).is_err());
    assert_eq!(rt; count(&desk, Call::Write), 2);
    flush(&mut desk, &mut state)?;
    assert_eq!(rt; count(&desk, Call::Write), 4);
    let bytes = desk.image();
    assert_eq!(rt; (byte_at(bytes, 999), byte_at(bytes, 1000)), (246, 255));
    assert_eq!(rt; (byte_at(bytes, 1599), byte_at(bytes, 1600)), (255, 94));
    Ok(())
}

#[test]
fn a_sync_is_passed_on(rt: HostRuntime) -> Result<(), Fail> {
    let mut desk = desk_with(rt.alloc(), 600, false)?;
    let mut state = ImageState::open(rt.alloc(), &mut desk, 600)?;
    desk.fail(Call::Sync, 1);
    let mut image = state.view(&mut desk);
    assert!(rt; image.sync().is_err());
    image.sync()?;
    assert_eq!(rt; count(&desk, Call::Sync), 2);
    Ok(())
}

pub(crate) fn read_one<S: Space>(space: &mut S, at: u64) -> Result<u8, Bad>
    requires { IsInside (S.state space.old).shape at 1 }
    ensures byte { IsTrue (S.state space.old).told → IfOk result (λ byte. (S.state space.old).cells at ≡ Byte byte) }
    ensures reads { Reads S.state S.keeps S.lands space.old space.new (result_err result) }
{
    let piece = space.piece(at, 1)?;
    Ok(piece[0])
}

// What was put is read again, and no other spot was touched.
fn put_and_read<S: Space>(space: &mut S, at: u64, bytes: [u8; 1]) -> Result<u8, Bad>
    requires { IsWritable (S.state space.old).shape at 1 }
    ensures read_back { CanPut (S.state space.old) at 1 → IfOk result (λ byte. byte ≡ slice_index bytes 0) }
    ensures hold { S.keeps Hold space.old space.new }
    ensures spots { CanPut (S.state space.old) at 1 → (spot : Spot)
        → Misses (S.lands space.old) at 1 spot → S.keeps spot space.old space.new }
{
    space.put(at, &bytes)?;
    read_one(space, at)
}

// A reading call adds nothing to the trace of a disk of whose image nothing is changed, whatever the disk tells.
fn read_quietly<D: Disk>(image: &mut Image<'_, D>, at: u64) -> Result<u8, Bad>
    requires { IsInside (shown D.state image.old).shape at 1 }
    ensures quiet { IsClean image.old.image.now → IsQuiet (D.state image.old.disk.now) (D.state image.new.disk.now) }
    ensures clean { IsClean image.old.image.now → IsClean image.new.image.now }
{
    image.ready(at, 1)?;
    read_one(image, at)
}

/// The byte at a place, as a reading call gives it; of one past the end nothing is asked.
fn read(desk: &mut MemDesk, state: &mut ImageState, at: u64) -> Result<u8, Bad>
    requires { IsDiskOf (state_of desk.old) state.old }
{
    let mut image = state.view(desk);
    if image.len() <= at {
        return Err(Bad::Disk);
    }
    read_quietly(&mut image, at)
}

#[test]
fn reading_calls_write_nothing(rt: HostRuntime) -> Result<(), Fail> {
    for is_wide in [false, true] {
        for (at, want) in [(0u64, 0u8), (511, 9), (512, 255), (1299, 44)] {
            let mut desk = desk_with(rt.alloc(), 1300, is_wide)?;
            let mut state = ImageState::open(rt.alloc(), &mut desk, 1300)?;
            desk.fail(Call::Write, 1);
            put(&mut desk, &mut state, 512, &[255])?;
            assert!(rt; flush(&mut desk, &mut state).is_err());
            assert_eq!(rt; read(&mut desk, &mut state, at)?, want, "at {at}");
            assert_eq!(rt;
                (count(&desk, Call::Write), count(&desk, Call::Sync)),
                (1, 0)
            );
        }
    }
    Ok(())
}

#[test]
fn a_generic_call_acts_on_an_image(rt: HostRuntime) -> Result<(), Fail> {
    let mut desk = desk_with(rt.alloc(), 5000, true)?;
    let mut state = ImageState::open(rt.alloc(), &mut desk, 5000)?;
    let mut image = state.view(&mut desk);
    assert_eq!(rt; put_and_read(&mut image, 4999, [1])?, 1);
    image.flush()?;
    assert_eq!(rt; count(&desk, Call::Write), 1);
    assert_eq!(rt;
        (byte_at(desk.image(), 4998), byte_at(desk.image(), 4999)),
        (229, 1)
    );
    Ok(())
}

// After a put and a flush the disk has the byte at its place, where it had each byte that was not changed.
fn store<D: Disk>(image: &mut Image<'_, D>, at: u64, bytes: [u8; 1]) -> Result<(), Bad>
    requires { IsWritable (shown D.state image.old).shape at 1 }
    ensures { IsTrue (shown D.state image.old).told
        → OnOk result ((told : Told) → (D.state image.new.disk.now).told ≡ Some told
        → slice_index (image_now told) at ≡ slice_index bytes 0) }
{
    match image.put(at, &bytes) {
        Ok(()) => {}
        Err(bad) => return Err(bad),
    }
    match image.flush() {
        Ok(()) => Ok(()),
        Err(_) => Err(Bad::Disk),
    }
}

#[test]
fn a_flushed_byte_is_on_the_disk(rt: HostRuntime) -> Result<(), Fail> {
    let mut desk = desk_with(rt.alloc(), 1300, false)?;
    let mut state = ImageState::open(rt.alloc(), &mut desk, 1300)?;
    store(&mut state.view(&mut desk), 1299, [5])?;
    assert_eq!(rt;
        (byte_at(desk.image(), 1298), byte_at(desk.image(), 1299)),
        (43, 5)
    );
    Ok(())
}

// 24 whole pages and a short one.
const LONG: usize = 100_000;

/// How many of 300 places, so many apart, have another byte than the desk had when it was made.
fn wrong_bytes(desk: &mut MemDesk, state: &mut ImageState, apart: u64) -> Result<usize, Bad>
    requires disk_of { IsDiskOf (state_of desk.old) state.old }
    requires len { state.old.len ≡ 100000 }
    requires apart { apart ≤ 100000 }
{
    let mut wrong: usize = 0;
    for i in 0..300u64 {
        let at = i * apart % LONG as u64;
        if byte_in(desk, state, at)? != (at % 251) as u8 {
            wrong = wrong.saturating_add(1);
        }
    }
    Ok(wrong)
}

#[test]
fn a_long_image_is_read_in_turn_and_at_random(rt: HostRuntime) -> Result<(), Fail> {
    for is_wide in [false, true] {
        for apart in [337u64, 40_961, 4096, 99_999] {
            let mut desk = desk_with(rt.alloc(), LONG, is_wide)?;
            let mut state = ImageState::open(rt.alloc(), &mut desk, LONG as u64)?;
            assert_eq!(rt; state.frames(), 16);
            assert_eq!(rt;
                wrong_bytes(&mut desk, &mut state, apart)?,
                0,
                "apart {apart}"
            );
            assert_eq!(rt; desk.image().len(), LONG);
        }
    }
    Ok(())
}

/// The place that is put to in a page: the sixth byte of its second sector of 512 bytes.
fn place_in(page: u64) -> u64
    requires { page < 25 }
    ensures { result ≡ page * 4096 + 518 }
{
    page * 4096 + 518
}

/// Puts a byte into each of 25 pages, from the first on, and answers how many puts failed. One that failed is made
/// again.
fn put_pages(desk: &mut MemDesk, state: &mut ImageState) -> Result<usize, Bad>
    requires disk_of { IsDiskOf (state_of desk.old) state.old }
    requires len { state.old.len ≡ 100000 }
    ensures disk_of { IsDiskOf (state_of desk.new) state.new }
    ensures len { state.new.len ≡ 100000 }
{
    let mut failed: usize = 0;
    for page in 0..25u64 {
        if put(desk, state, place_in(page), &[253]).is_err() {
            failed = failed.saturating_add(1);
            put(desk, state, place_in(page), &[253])?;
        }
    }
    Ok(failed)
}

/// How many of the 25 places have the byte that was put, as the image has them.
fn pages_changed(desk: &mut MemDesk, state: &mut ImageState) -> Result<usize, Bad>
    requires disk_of { IsDiskOf (state_of desk.old) state.old }
    requires len { state.old.len ≡ 100000 }
    ensures disk_of { IsDiskOf (state_of desk.new) state.new }
{
    let mut changed: usize = 0;
    for page in 0..25u64 {
        if byte_in(desk, state, place_in(page))? == 253 {
            changed = changed.saturating_add(1);
        }
    }
    Ok(changed)
}

/// How many of the 25 places have the byte that was put, and how many of those behind them the byte that was there.
fn pages_put(bytes: &[u8]) -> (usize, usize) {
    let mut put: usize = 0;
    let mut kept: usize = 0;
    for page in 0..25u64 {
        let at = place_in(page);
        if byte_at(bytes, at) == 253 {
            put = put.saturating_add(1);
        }
        if byte_at(bytes, at + 1) == ((at + 1) % 251) as u8 {
            kept = kept.saturating_add(1);
        }
    }
    (put, kept)
}

#[test]
fn changed_pages_are_written_when_they_are_given_up(rt: HostRuntime) -> Result<(), Fail> {
    for is_wide in [false, true] {
        let mut desk = desk_with(rt.alloc(), LONG, is_wide)?;
        let mut state = ImageState::open(rt.alloc(), &mut desk, LONG as u64)?;
        assert_eq!(rt; put_pages(&mut desk, &mut state)?, 0);
        assert_eq!(rt; pages_put(desk.image()), (9, 25));
        assert_eq!(rt; pages_changed(&mut desk, &mut state)?, 25);
        flush(&mut desk, &mut state)?;
        assert_eq!(rt; pages_put(desk.image()), (25, 25));
    }
    Ok(())
}

#[test]
fn nothing_is_lost_where_a_call_fails(rt: HostRuntime) -> Result<(), Fail> {
    for is_wide in [false, true] {
        for kind in [Call::Read, Call::Write] {
            for nth in 1..=25u32 {
                let mut desk = desk_with(rt.alloc(), LONG, is_wide)?;
                let mut state = ImageState::open(rt.alloc(), &mut desk, LONG as u64)?;
                desk.fail(kind, if kind == Call::Read { nth + 1 } else { nth });
                let failed = put_pages(&mut desk, &mut state)?;
                if flush(&mut desk, &mut state).is_err() {
                    assert_eq!(rt; failed, 0, "at call {nth}");
                    flush(&mut desk, &mut state)?;
                } else {
                    assert_eq!(rt; failed, 1, "at call {nth}");
                }
                assert_eq!(rt; pages_put(desk.image()), (25, 25), "at call {nth}");
            }
        }
    }
    Ok(())
}

/// Writes other first 512 bytes.
fn write_header(
    desk: &mut MemDesk,
    state: &mut ImageState,
    header: &[u8; 512],
) -> Result<(), Failed>
    requires { IsDiskOf (state_of desk.old) state.old }
    ensures { IsDiskOf (state_of desk.new) state.new }
{
    state.view(desk).write_header(header)
}

#[test]
fn the_first_bytes_are_written_alone(rt: HostRuntime) -> Result<(), Fail> {
    for (is_wide, is_held, stored) in [
        (false, false, 10u8),
        (false, true, 10),
        (true, false, 10),
        (true, true, 255),
    ] {
        let mut desk = desk_with(rt.alloc(), 9000, is_wide)?;
        let mut state = ImageState::open(rt.alloc(), &mut desk, 9000)?;
        if is_held {
            put(&mut desk, &mut state, 512, &[255])?;
        }
        desk.fail(Call::Write, 1);
        assert!(rt; write_header(&mut desk, &mut state, &[7; 512]).is_err());
        assert_eq!(rt; state.view(&mut desk).header()[511], 9);
        write_header(&mut desk, &mut state, &[7; 512])?;
        assert_eq!(rt; state.view(&mut desk).header()[511], 7);
        assert_eq!(rt; count(&desk, Call::Write), 2);
        let bytes = desk.image();
        assert_eq!(rt;
            (byte_at(bytes, 0), byte_at(bytes, 511), byte_at(bytes, 512)),
            (7, 7, stored)
        );
        assert_eq!(rt; (byte_at(bytes, 513), byte_at(bytes, 8999)), (11, 214));
    }
    Ok(())
}

/// How many reads were made with a put into a new image, and four bytes of the disk behind a flush: the one before the
/// bytes, the first and the last of them, and the one behind.
fn reads_of_put(
    alloc: Global,
    is_wide: bool,
    at: u64,
    bytes: &[u8],
) -> Result<(usize, [u8; 4]), Fail>
    requires first { 512 ≤ at }
    requires some { 1 ≤ length bytes.now }
    requires inside { at + length bytes.now ≤ 9000 }
{
    let mut desk = desk_with(alloc, 9000, is_wide)?;
    let mut state = ImageState::open(alloc, &mut desk, 9000)?;
    put(&mut desk, &mut state, at, bytes)?;
    let reads = count(&desk, Call::Read);
    flush(&mut desk, &mut state)?;
    let end = at + bytes.len() as u64;
    let image = desk.image();
    let around = [
        byte_at(image, at - 1),
        byte_at(image, at),
        byte_at(image, end - 1),
        byte_at(image, end),
    ];
    Ok((reads, around))
}

#[test]
fn a_page_that_is_put_whole_is_not_read(rt: HostRuntime) -> Result<(), Fail> {
    let long = [7; 5000];
    for (at, len, narrow, wide, before, behind) in [
        (4096u64, 4096usize, 1usize, 1usize, 79u8, 160u8),
        (8192, 808, 1, 1, 159, 0),
        (4096, 4904, 1, 1, 79, 0),
        (4096, 4095, 9, 2, 79, 159),
        (4097, 4095, 9, 2, 80, 160),
        (8192, 807, 3, 2, 159, 214),
        (512, 3584, 9, 2, 9, 80),
    ] {
        assert!(rt; 512 <= at && 1 <= len && len <= 5000);
        assert!(rt; at + len as u64 <= 9000);
        for (is_wide, reads) in [(false, narrow), (true, wide)] {
            assert_eq!(rt;
                reads_of_put(rt.alloc(), is_wide, at, &long[..len])?,
                (reads, [before, 7, 7, behind]),
                "at {at}"
            );
        }
    }
    Ok(())
}
