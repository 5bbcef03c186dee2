//! Reading an image from its disk.

ghost use Rattle.std.specs.Prelude.{◌≡◌, ℕ, ◌<◌, ◌≤◌, false, None, IsTrue, length, get_or, IfOk, IfErr, IfSome, OnOk};
ghost use Rattle.save_disk.specs.Grains.{is_grain};
ghost use Rattle.save_disk.specs.State.{IsQuiet, IsSteady, HasCause, Rose};
ghost use Rattle.page_image.specs.Images.{is_held};
ghost use Rattle.page_image.specs.Frames.{IsByteRead};

use crate::state::{ImageFault, ImageState, MARKS, MOST, PAGE};
use save_disk::{Disk, Failed};
use std::alloc::{AllocError, Global};

impl ImageState {
    ghost use Rattle.page_image.specs.Images.{IsOpened};

    /// Reads the first 512 bytes of the image of a disk that has so many bytes: 512 to 67,108,864. No page is held
    /// then, and no later call takes memory.
    ///
    /// # Errors
    ///
    /// `Memory` where memory runs out, `Disk` where the disk fails.
    pub fn open<D: Disk>(alloc: Global, disk: &mut D, len: u64) -> Result<ImageState, ImageFault>
        requires size { len ≡ (D.state disk.old).size }
        requires least { 512 ≤ len }
        requires most { len ≤ 67108864 }
        ensures opened { IfOk result (IsOpened (D.state disk.new)) }
        ensures quiet { IsQuiet (D.state disk.old) (D.state disk.new) }
        ensures steady { IsSteady (D.state disk.old) (D.state disk.new) }
        ensures cause { IfErr result (λ fault. fault ≡ ImageFault.Disk
            → Rose (D.state disk.old).counts.disk (D.state disk.new).counts.disk) }
    {
        let grain = disk.grain();
        let mut header = [0; 512];
        match read_front(disk, grain as usize, &mut header) {
            Ok(()) => {}
            Err(_) => return Err(ImageFault::Disk),
        }
        match blank(alloc, len, grain, header) {
            Some(image) => Ok(image),
            None => Err(ImageFault::Memory),
        }
    }
}

// Reads the first 512 bytes.
fn read_front<D: Disk>(disk: &mut D, grain: usize, header: &mut [u8; 512]) -> Result<(), Failed>
    requires grain { grain ≡ (D.state disk.old).grain }
    requires least { 512 ≤ grain }
    requires most { grain ≤ 4096 }
    requires size { 512 ≤ (D.state disk.old).size }
    ensures read { OnOk result ((k : ℕ) → k < 512 → IsByteRead (D.state disk.old) grain k (get_or header.new k 0)) }
    ensures quiet { IsQuiet (D.state disk.old) (D.state disk.new) }
    ensures steady { IsSteady (D.state disk.old) (D.state disk.new) }
    ensures cause { HasCause (D.state disk.old).counts.disk (D.state disk.new).counts.disk result }
{
    let mut bytes = [0; PAGE];
    let sector = &mut bytes[..grain];
    disk.read(0, sector)?;
    take_front(sector, header);
    Ok(())
}

// Takes the first 512 bytes of a sector.
fn take_front(sector: &[u8], header: &mut [u8; 512])
    requires { 512 ≤ length sector.now }
    ensures { (k : ℕ) → k < 512 → get_or header.new k 0 ≡ get_or sector.now k 0 }
{
    header.copy_from_slice(&sector[..512]);
}

// An image of which the first 512 bytes are held alone, with all the memory that it takes; none where memory runs out.
fn blank(alloc: Global, len: u64, grain: u64, header: [u8; 512]) -> Option<ImageState>
    requires known { IsTrue (is_grain grain) }
    requires least { 512 ≤ len }
    requires most { len ≤ 67108864 }
    ensures len { IfSome result (λ image. image.len ≡ len) }
    ensures grain { IfSome result (λ image. image.grain ≡ grain) }
    ensures header { IfSome result (λ image. image.header ≡ header) }
    ensures none { IfSome result (λ image. (page : ℕ) → is_held image page ≡ false) }
{
    let count = len.div_ceil(PAGE as u64) as usize;
    let frames = count.min(MOST);
    let slots = vec![in alloc; 0; count].ok()?;
    let Ok(pages) = no_pages(alloc, frames) else {
        return None;
    };
    let bytes = vec![in alloc; 0; frames * PAGE].ok()?;
    let changed = vec![in alloc; false; frames * MARKS].ok()?;
    let uses = vec![in alloc; 0; frames].ok()?;
    Some(ImageState {
        len,
        grain,
        header,
        slots,
        pages,
        bytes,
        changed,
        uses,
        clock: 0,
    })
}

// So many frames that hold no page.
fn no_pages(alloc: Global, n: usize) -> Result<Vec<Option<u32>>, AllocError>
    ensures len { IfOk result (λ pages. length pages.items ≡ n) }
    ensures none { IfOk result (λ pages. (frame : ℕ) → get_or pages.items frame None ≡ None) }
{
    let mut pages = Vec::new(alloc);
    for _frame in 0..n {
        pages.push(None)?;
    }
    Ok(pages)
}
