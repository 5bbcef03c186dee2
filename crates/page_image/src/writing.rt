//! Writing an image's changed sectors to its disk.

ghost use Rattle.std.specs.Prelude.{◌≡◌, ◌≢◌, ℕ, ◌*◌, ◌/◌, ◌<◌, ◌≤◌, false, Some, length, OnOk, OnErr};
ghost use Rattle.save_disk.specs.State.{HasCause};
ghost use Rattle.page_image.specs.Images.{is_changed, IsDiskOf};
ghost use Rattle.page_image.specs.WriteOuts.{IsWrittenOut, IsWrittenInPart, IsClean};

use crate::state::{ImageState, PAGE};
use save_disk::{Disk, Failed};

// Writes each changed sector, which then is not changed, frame by frame.
pub(crate) fn write_out<D: Disk>(disk: &mut D, image: &mut ImageState) -> Result<(), Failed>
    requires { IsDiskOf (D.state disk.old) image.old }
    ensures clean { OnOk result (IsClean image.new) }
    ensures done { OnOk result (IsWrittenOut (D.state disk.old) image.old (D.state disk.new) image.new) }
    ensures failed { OnErr result (IsWrittenInPart (D.state disk.old) image.old (D.state disk.new) image.new) }
    ensures cause { HasCause (D.state disk.old).counts.disk (D.state disk.new).counts.disk result }
{
    for frame in 0..image.frames() {
        let held = image.page_in(frame);
        write_held(disk, image, held)?;
    }
    Ok(())
}

// Writes each changed sector of a page, if there is one.
pub(crate) fn write_held<D: Disk>(
    disk: &mut D,
    image: &mut ImageState,
    held: Option<u32>,
) -> Result<(), Failed>
    requires { IsDiskOf (D.state disk.old) image.old }
    ensures clean { OnOk result ((page sector : ℕ) → held ≡ Some page → sector * image.old.grain / 4096 ≡ page
        → is_changed image.new sector ≡ false) }
    ensures done { OnOk result (IsWrittenOut (D.state disk.old) image.old (D.state disk.new) image.new) }
    ensures failed { OnErr result (IsWrittenInPart (D.state disk.old) image.old (D.state disk.new) image.new) }
    ensures cause { HasCause (D.state disk.old).counts.disk (D.state disk.new).counts.disk result }
{
    match held {
        Some(page) => write_page(disk, image, page),
        None => Ok(()),
    }
}

// Writes each changed sector of a page.
fn write_page<D: Disk>(disk: &mut D, image: &mut ImageState, page: u32) -> Result<(), Failed>
    requires { IsDiskOf (D.state disk.old) image.old }
    ensures clean { OnOk result ((sector : ℕ) → sector * image.old.grain / 4096 ≡ page
        → is_changed image.new sector ≡ false) }
    ensures done { OnOk result (IsWrittenOut (D.state disk.old) image.old (D.state disk.new) image.new) }
    ensures failed { OnErr result (IsWrittenInPart (D.state disk.old) image.old (D.state disk.new) image.new) }
    ensures cause { HasCause (D.state disk.old).counts.disk (D.state disk.new).counts.disk result }
{
    let count = PAGE / image.grain() as usize;
    let first = page as usize * count;
    let end = image.sectors().min(first + count).max(first);
    write_sectors(disk, image, first, end)
}

// Writes each changed sector from `first` up to `end`.
fn write_sectors<D: Disk>(
    disk: &mut D,
    image: &mut ImageState,
    first: usize,
    end: usize,
) -> Result<(), Failed>
    requires disk_of { IsDiskOf (D.state disk.old) image.old }
    requires ordered { first ≤ end }
    requires inside { (sector : ℕ) → first ≤ sector → sector < end → sector * image.old.grain < image.old.len }
    ensures clean { OnOk result ((sector : ℕ) → first ≤ sector → sector < end → is_changed image.new sector ≡ false) }
    ensures done { OnOk result (IsWrittenOut (D.state disk.old) image.old (D.state disk.new) image.new) }
    ensures failed { OnErr result (IsWrittenInPart (D.state disk.old) image.old (D.state disk.new) image.new) }
    ensures cause { HasCause (D.state disk.old).counts.disk (D.state disk.new).counts.disk result }
{
    for sector in first..end {
        write_changed(disk, image, sector)?;
    }
    Ok(())
}

// Writes a sector if it is changed; then it is not changed.
fn write_changed<D: Disk>(disk: &mut D, image: &mut ImageState, sector: usize) -> Result<(), Failed>
    requires disk_of { IsDiskOf (D.state disk.old) image.old }
    requires inside { sector * image.old.grain < image.old.len }
    ensures clean { OnOk result (is_changed image.new sector ≡ false) }
    ensures done { OnOk result (IsWrittenOut (D.state disk.old) image.old (D.state disk.new) image.new) }
    ensures failed { OnErr result (IsWrittenInPart (D.state disk.old) image.old (D.state disk.new) image.new) }
    ensures cause { HasCause (D.state disk.old).counts.disk (D.state disk.new).counts.disk result }
{
    if !image.is_changed(sector) {
        return Ok(());
    }
    let mut bytes = [0; PAGE];
    let out = &mut bytes[..image.grain() as usize];
    image.copy_sector(sector, out);
    disk.write(sector as u64, out)?;
    image.unmark(sector);
    Ok(())
}
