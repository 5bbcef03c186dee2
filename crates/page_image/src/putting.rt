//! Putting bytes into an image.

ghost use Rattle.std.specs.Prelude.{◌≡◌, ℕ, ◌+◌, ◌-◌, ◌/◌, ◌%◌, ◌<◌, ◌≤◌, false, min, length, take, IfOk, OnOk, OnErr};
ghost use Rattle.save_disk.specs.State.{HasCause};
ghost use Rattle.page_image.specs.Images.{is_held, IsDiskOf};
ghost use Rattle.page_image.specs.PutFronts.{PutsFirst, PutsSome};
ghost use Rattle.page_image.specs.Spots.{LeavesTold};

use crate::fetching::{give_up, reach};
use crate::state::{ImageState, PAGE};
use save_disk::{Disk, Failed};

// Puts bytes at a place, page by page.
pub(crate) fn put_all<D: Disk>(
    disk: &mut D,
    image: &mut ImageState,
    at: u64,
    bytes: &[u8],
) -> Result<(), Failed>
    requires disk_of { IsDiskOf (D.state disk.old) image.old }
    requires inside { at + length bytes.now ≤ image.old.len }
    requires behind { 512 ≤ at }
    ensures done { OnOk result (PutsFirst at bytes.now (length bytes.now) (D.state disk.old) image.old
        (D.state disk.new) image.new) }
    ensures failed { OnErr result
        (PutsSome at (length bytes.now) (D.state disk.old) image.old (D.state disk.new) image.new) }
    ensures cause { HasCause (D.state disk.old).counts.disk (D.state disk.new).counts.disk result }
{
    let mut done = 0;
    while done < bytes.len() {
        done += put_first(disk, image, at + done as u64, &bytes[done..])?;
    }
    Ok(())
}

// Puts those of the bytes that lie in the page of the first one. Answers how many those are.
fn put_first<D: Disk>(
    disk: &mut D,
    image: &mut ImageState,
    at: u64,
    bytes: &[u8],
) -> Result<usize, Failed>
    requires disk_of { IsDiskOf (D.state disk.old) image.old }
    requires some { 1 ≤ length bytes.now }
    requires inside { at + length bytes.now ≤ image.old.len }
    requires behind { 512 ≤ at }
    ensures count { IfOk result (λ n. n ≡ min (length bytes.now) (4096 - at % 4096)) }
    ensures done { IfOk result (λ n.
        PutsFirst at (take n bytes.now) n (D.state disk.old) image.old (D.state disk.new) image.new) }
    ensures failed { OnErr result (LeavesTold (D.state disk.old) image.old (D.state disk.new) image.new) }
    ensures cause { HasCause (D.state disk.old).counts.disk (D.state disk.new).counts.disk result }
{
    let n = bytes.len().min(PAGE - at as usize % PAGE);
    put_piece(disk, image, at, &bytes[..n])?;
    Ok(n)
}

// Puts a piece into one page. Where no frame holds the page and the piece fills it, it is not read first.
fn put_piece<D: Disk>(
    disk: &mut D,
    image: &mut ImageState,
    at: u64,
    piece: &[u8],
) -> Result<(), Failed>
    requires disk_of { IsDiskOf (D.state disk.old) image.old }
    requires some { 1 ≤ length piece.now }
    requires inside { at + length piece.now ≤ image.old.len }
    requires in_page { at % 4096 + length piece.now ≤ 4096 }
    requires behind { 512 ≤ at }
    ensures done { OnOk result (PutsFirst at piece.now (length piece.now) (D.state disk.old) image.old
        (D.state disk.new) image.new) }
    ensures failed { OnErr result (LeavesTold (D.state disk.old) image.old (D.state disk.new) image.new) }
    ensures cause { HasCause (D.state disk.old).counts.disk (D.state disk.new).counts.disk result }
{
    let start = at as usize;
    let whole = PAGE.min(image.len() as usize - start);
    if start % PAGE == 0 && piece.len() == whole && !image.is_held(start / PAGE) {
        put_page(disk, image, at, piece)
    } else {
        put_within(disk, image, at, piece)
    }
}

// Puts a piece into a page, which is read before, if no frame holds it.
fn put_within<D: Disk>(
    disk: &mut D,
    image: &mut ImageState,
    at: u64,
    piece: &[u8],
) -> Result<(), Failed>
    requires disk_of { IsDiskOf (D.state disk.old) image.old }
    requires some { 1 ≤ length piece.now }
    requires inside { at + length piece.now ≤ image.old.len }
    requires in_page { at % 4096 + length piece.now ≤ 4096 }
    requires behind { 512 ≤ at }
    ensures done { OnOk result (PutsFirst at piece.now (length piece.now) (D.state disk.old) image.old
        (D.state disk.new) image.new) }
    ensures failed { OnErr result (LeavesTold (D.state disk.old) image.old (D.state disk.new) image.new) }
    ensures cause { HasCause (D.state disk.old).counts.disk (D.state disk.new).counts.disk result }
{
    reach(disk, image, at as usize / PAGE)?;
    image.put(at, piece);
    Ok(())
}

// Puts all bytes of a page that no frame holds, those that lie in the image.
fn put_page<D: Disk>(
    disk: &mut D,
    image: &mut ImageState,
    at: u64,
    piece: &[u8],
) -> Result<(), Failed>
    requires disk_of { IsDiskOf (D.state disk.old) image.old }
    requires inside { at < image.old.len }
    requires begins { at % 4096 ≡ 0 }
    requires fills { length piece.now ≡ min 4096 (image.old.len - at) }
    requires behind { 512 ≤ at }
    requires apart { is_held image.old (at / 4096) ≡ false }
    ensures done { OnOk result (PutsFirst at piece.now (length piece.now) (D.state disk.old) image.old
        (D.state disk.new) image.new) }
    ensures failed { OnErr result (LeavesTold (D.state disk.old) image.old (D.state disk.new) image.new) }
    ensures cause { HasCause (D.state disk.old).counts.disk (D.state disk.new).counts.disk result }
{
    let page = at as usize / PAGE;
    let frame = image.oldest();
    give_up(disk, image, frame)?;
    image.settle(frame, page);
    image.touch(page);
    image.put(at, piece);
    Ok(())
}
