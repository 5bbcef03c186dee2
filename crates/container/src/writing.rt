//! Calls on the parts of an open image, over its disk.

ghost use Rattle.std.specs.Prelude.{◌≡◌, ℕ, ◌+◌, ◌<◌, ◌≤◌, ◌++◌, length, replicate};
ghost use Rattle.std.specs.Result.{result_err};
ghost use Rattle.save_bytes.specs.State.{IsInside, CanPut};
ghost use Rattle.save_bytes.specs.Answers.{IsReady, IsClearReady};
ghost use Rattle.save_bytes.specs.Puts.{Puts};
ghost use Rattle.save_bytes.specs.Reads.{Reads};
ghost use Rattle.save_bytes.specs.Spots.{MovesOnly};
ghost use Rattle.container.specs.StoreHeld.{store_of};
ghost use Rattle.container.specs.Origins.{KeepsStoreOrigins};
ghost use Rattle.container.specs.Overs.{opened_state, OpenedKeeps, opened_lands};

use crate::open::Container;
use crate::over::{clear_over, clear_ready_over, put_over, ready_over};
use save_bytes::Bad;
use save_disk::Disk;

// Whether bytes of one part may be written.
fn ready_in<D: Disk>(container: &mut Container, disk: &mut D, at: u64, n: u64) -> Result<(), Bad>
    requires inside { IsInside (store_of (D.state disk.old) container.old).shape at n }
    requires one { at < container.old.parts.first.difi.ivfc4.size → at + n ≤ container.old.parts.first.difi.ivfc4.size }
    ensures ready { IsReady (store_of (D.state disk.old) container.old) at n (result_err result) }
    ensures reads { Reads (opened_state D.state) (OpenedKeeps D.state) (opened_lands D.state)
        (record { container = container.old; disk = disk.old }) (record { container = container.new; disk = disk.new })
        (result_err result) }
{
    let split = container.parts.first.difi().ivfc4.size;
    let table = &mut container.table[..];
    let mut view = container.image.view(disk);
    if at + n <= split {
        return ready_over(&mut view, &mut container.parts.first, table, at, n);
    }
    match &mut container.parts.second {
        Some(second) => ready_over(&mut view, second, table, at - split, n),
        None => unreachable!(),
    }
}

// Whether bytes of the store may be written: those of both parts, where they lie in both.
pub(crate) fn ready_all<D: Disk>(
    container: &mut Container,
    disk: &mut D,
    at: u64,
    n: u64,
) -> Result<(), Bad>
    requires { IsInside (store_of (D.state disk.old) container.old).shape at n }
    ensures ready { IsReady (store_of (D.state disk.old) container.old) at n (result_err result) }
    ensures reads { Reads (opened_state D.state) (OpenedKeeps D.state) (opened_lands D.state)
        (record { container = container.old; disk = disk.old }) (record { container = container.new; disk = disk.new })
        (result_err result) }
{
    let split = container.parts.first.difi().ivfc4.size;
    if at >= split || at + n <= split {
        return ready_in(container, disk, at, n);
    }
    match ready_in(container, disk, at, split - at) {
        Ok(()) => ready_in(container, disk, split, n - (split - at)),
        Err(bad) => Err(bad),
    }
}

// Puts bytes into one part.
fn put_in<D: Disk>(
    container: &mut Container,
    disk: &mut D,
    at: u64,
    bytes: &[u8],
) -> Result<(), Bad>
    requires inside { IsInside (store_of (D.state disk.old) container.old).shape at (length bytes.now) }
    requires one { at < container.old.parts.first.difi.ivfc4.size
        → at + length bytes.now ≤ container.old.parts.first.difi.ivfc4.size }
    ensures ready { CanPut (store_of (D.state disk.old) container.old) at (length bytes.now)
        → IsReady (store_of (D.state disk.old) container.old) at (length bytes.now) (result_err result) }
    ensures puts { Puts (store_of (D.state disk.old) container.old) at bytes.now (store_of (D.state disk.new) container.new)
        (result_err result) }
    ensures moves { MovesOnly (OpenedKeeps D.state) (opened_lands D.state) (store_of (D.state disk.old) container.old)
        (record { container = container.old; disk = disk.old }) at (length bytes.now)
        (record { container = container.new; disk = disk.new }) (result_err result) }
    ensures came { KeepsStoreOrigins (D.state disk.old) container.old (D.state disk.new) container.new (result_err result) }
{
    let split = container.parts.first.difi().ivfc4.size;
    let table = &mut container.table[..];
    let mut view = container.image.view(disk);
    if at + bytes.len() as u64 <= split {
        return put_over(&mut view, &mut container.parts.first, table, at, bytes);
    }
    match &mut container.parts.second {
        Some(second) => put_over(&mut view, second, table, at - split, bytes),
        None => unreachable!(),
    }
}

// Puts bytes that lie in both parts: the second is asked before the first is changed.
fn put_across<D: Disk>(
    container: &mut Container,
    disk: &mut D,
    at: u64,
    first: &[u8],
    second: &[u8],
) -> Result<(), Bad>
    requires inside { IsInside (store_of (D.state disk.old) container.old).shape at (length first.now + length second.now) }
    requires place { at + length first.now ≡ container.old.parts.first.difi.ivfc4.size }
    ensures ready { CanPut (store_of (D.state disk.old) container.old) at (length first.now + length second.now)
        → IsReady (store_of (D.state disk.old) container.old) at (length first.now + length second.now) (result_err result) }
    ensures puts { Puts (store_of (D.state disk.old) container.old) at (first.now ++ second.now)
        (store_of (D.state disk.new) container.new) (result_err result) }
    ensures moves { MovesOnly (OpenedKeeps D.state) (opened_lands D.state) (store_of (D.state disk.old) container.old)
        (record { container = container.old; disk = disk.old }) at (length first.now + length second.now)
        (record { container = container.new; disk = disk.new }) (result_err result) }
    ensures came { KeepsStoreOrigins (D.state disk.old) container.old (D.state disk.new) container.new (result_err result) }
{
    let split = container.parts.first.difi().ivfc4.size;
    match ready_all(container, disk, at, (first.len() + second.len()) as u64) {
        Ok(()) => {}
        Err(bad) => return Err(bad),
    }
    match put_in(container, disk, at, first) {
        Ok(()) => put_in(container, disk, split, second),
        Err(bad) => Err(bad),
    }
}

// Puts bytes into the store. It is refused before anything is changed.
pub(crate) fn put_all<D: Disk>(
    container: &mut Container,
    disk: &mut D,
    at: u64,
    bytes: &[u8],
) -> Result<(), Bad>
    requires { IsInside (store_of (D.state disk.old) container.old).shape at (length bytes.now) }
    ensures ready { CanPut (store_of (D.state disk.old) container.old) at (length bytes.now)
        → IsReady (store_of (D.state disk.old) container.old) at (length bytes.now) (result_err result) }
    ensures puts { Puts (store_of (D.state disk.old) container.old) at bytes.now (store_of (D.state disk.new) container.new)
        (result_err result) }
    ensures moves { MovesOnly (OpenedKeeps D.state) (opened_lands D.state) (store_of (D.state disk.old) container.old)
        (record { container = container.old; disk = disk.old }) at (length bytes.now)
        (record { container = container.new; disk = disk.new }) (result_err result) }
    ensures came { KeepsStoreOrigins (D.state disk.old) container.old (D.state disk.new) container.new (result_err result) }
{
    let split = container.parts.first.difi().ivfc4.size;
    if at >= split || at + bytes.len() as u64 <= split {
        return put_in(container, disk, at, bytes);
    }
    let (first, second) = bytes.split_at((split - at) as usize);
    put_across(container, disk, at, first, second)
}

// Whether the block of a byte may be cleared.
pub(crate) fn clear_ready_in<D: Disk>(
    container: &mut Container,
    disk: &mut D,
    at: u64,
) -> Result<(), Bad>
    requires { IsInside (store_of (D.state disk.old) container.old).shape at 1 }
    ensures ready { IsClearReady (store_of (D.state disk.old) container.old) at (result_err result) }
    ensures reads { Reads (opened_state D.state) (OpenedKeeps D.state) (opened_lands D.state)
        (record { container = container.old; disk = disk.old }) (record { container = container.new; disk = disk.new })
        (result_err result) }
{
    let split = container.parts.first.difi().ivfc4.size;
    let table = &mut container.table[..];
    let mut view = container.image.view(disk);
    if at < split {
        return clear_ready_over(&mut view, &mut container.parts.first, table, at);
    }
    match &mut container.parts.second {
        Some(second) => clear_ready_over(&mut view, second, table, at - split),
        None => unreachable!(),
    }
}

// Clears the block of a byte.
pub(crate) fn clear_in<D: Disk>(container: &mut Container, disk: &mut D, at: u64) -> Result<(), Bad>
    requires { IsInside (store_of (D.state disk.old) container.old).shape at 1 }
    ensures ready { IsClearReady (store_of (D.state disk.old) container.old) at (result_err result) }
    ensures puts { let old = store_of (D.state disk.old) container.old in
        Puts old (old.shape.block_start at) (replicate (old.shape.block_len at) 0) (store_of (D.state disk.new) container.new)
        (result_err result) }
    ensures moves { let old = store_of (D.state disk.old) container.old in
        MovesOnly (OpenedKeeps D.state) (opened_lands D.state) old (record { container = container.old; disk = disk.old })
        (old.shape.block_start at) (old.shape.block_len at) (record { container = container.new; disk = disk.new })
        (result_err result) }
    ensures came { KeepsStoreOrigins (D.state disk.old) container.old (D.state disk.new) container.new (result_err result) }
{
    let split = container.parts.first.difi().ivfc4.size;
    let table = &mut container.table[..];
    let mut view = container.image.view(disk);
    if at < split {
        return clear_over(&mut view, &mut container.parts.first, table, at);
    }
    match &mut container.parts.second {
        Some(second) => clear_over(&mut view, second, table, at - split),
        None => unreachable!(),
    }
}
