//! Bringing a page of an image into a frame.

ghost use Rattle.std.specs.Prelude.{◌≡◌, ◌≢◌, ℕ, ◌+◌, ◌-◌, ◌*◌, ◌/◌, ◌<◌, ◌≤◌, true, false, None, length, get_or, OnOk};
ghost use Rattle.save_disk.specs.State.{IsQuiet, IsSteady, HasCause};
ghost use Rattle.save_disk.specs.Tells.{tells};
ghost use Rattle.page_image.specs.Images.{is_held, is_changed, IsDiskOf};
ghost use Rattle.page_image.specs.Frames.{IsRefilled, IsFrameRead, IsByteRead};
ghost use Rattle.page_image.specs.Reading.{AreSectorsRead};
ghost use Rattle.page_image.specs.Spots.{LeavesTold};

use crate::state::{ImageState, PAGE};
use crate::writing::write_held;
use save_disk::{Disk, Failed};

impl ImageState {
    /// Sees to it that the page of a place is held.
    ///
    /// # Errors
    ///
    /// Where the disk fails. No byte of the image is lost then.
    pub fn bring<D: Disk>(&mut self, disk: &mut D, at: u64) -> Result<(), Failed>
        requires disk_of { IsDiskOf (D.state disk.old) self.old }
        requires inside { at < self.old.len }
        ensures leaves { LeavesTold (D.state disk.old) self.old (D.state disk.new) self.new }
        ensures held { OnOk result (is_held self.new (at / 4096) ≡ true) }
        ensures told { OnOk result (tells (D.state disk.new) ≡ tells (D.state disk.old)) }
        ensures cause { HasCause (D.state disk.old).counts.disk (D.state disk.new).counts.disk result }
    {
        reach(disk, self, at as usize / PAGE)
    }
}

// Sees to it that a frame holds the page. Where none does, the page that was not asked for since any other was is given
// up for it: its changed sectors are written first.
pub(crate) fn reach<D: Disk>(
    disk: &mut D,
    image: &mut ImageState,
    page: usize,
) -> Result<(), Failed>
    requires disk_of { IsDiskOf (D.state disk.old) image.old }
    requires page { page < length image.old.slots.items }
    ensures leaves { LeavesTold (D.state disk.old) image.old (D.state disk.new) image.new }
    ensures held { OnOk result (is_held image.new page ≡ true) }
    ensures told { OnOk result (tells (D.state disk.new) ≡ tells (D.state disk.old)) }
    ensures cause { HasCause (D.state disk.old).counts.disk (D.state disk.new).counts.disk result }
{
    if image.is_held(page) {
        image.touch(page);
        return Ok(());
    }
    let frame = image.oldest();
    give_up(disk, image, frame)?;
    fetch(disk, image, frame, page)?;
    image.touch(page);
    Ok(())
}

// Empties a frame. The changed sectors of the page that it holds are written first.
pub(crate) fn give_up<D: Disk>(
    disk: &mut D,
    image: &mut ImageState,
    frame: usize,
) -> Result<(), Failed>
    requires disk_of { IsDiskOf (D.state disk.old) image.old }
    requires frame { frame < length image.old.pages.items }
    ensures leaves { LeavesTold (D.state disk.old) image.old (D.state disk.new) image.new }
    ensures slots { image.new.slots.items ≡ image.old.slots.items }
    ensures apart { (page : ℕ) → is_held image.old page ≡ false → is_held image.new page ≡ false }
    ensures empty { OnOk result (get_or image.new.pages.items frame None ≡ None) }
    ensures told { OnOk result (tells (D.state disk.new) ≡ tells (D.state disk.old)) }
    ensures cause { HasCause (D.state disk.old).counts.disk (D.state disk.new).counts.disk result }
{
    let held = image.page_in(frame);
    write_held(disk, image, held)?;
    image.empty(frame);
    Ok(())
}

// Reads a page into a frame that is empty. Where that fails it stays empty.
fn fetch<D: Disk>(
    disk: &mut D,
    image: &mut ImageState,
    frame: usize,
    page: usize,
) -> Result<(), Failed>
    requires disk_of { IsDiskOf (D.state disk.old) image.old }
    requires frame { frame < length image.old.pages.items }
    requires page { page < length image.old.slots.items }
    requires empty { get_or image.old.pages.items frame None ≡ None }
    requires apart { is_held image.old page ≡ false }
    ensures refilled { IsRefilled (D.state disk.old) image.old image.new }
    ensures held { OnOk result (is_held image.new page ≡ true) }
    ensures quiet { IsQuiet (D.state disk.old) (D.state disk.new) }
    ensures steady { IsSteady (D.state disk.old) (D.state disk.new) }
    ensures cause { HasCause (D.state disk.old).counts.disk (D.state disk.new).counts.disk result }
{
    read_page(disk, image, frame, page)?;
    image.settle(frame, page);
    Ok(())
}

// Reads a page into the bytes of a frame.
fn read_page<D: Disk>(
    disk: &mut D,
    image: &mut ImageState,
    frame: usize,
    page: usize,
) -> Result<(), Failed>
    requires disk_of { IsDiskOf (D.state disk.old) image.old }
    requires frame { frame < length image.old.pages.items }
    requires page { page < length image.old.slots.items }
    ensures read { OnOk result ((k : ℕ) → k < 4096 → page * 4096 + k < image.old.len
        → IsByteRead (D.state disk.old) image.old.grain (page * 4096 + k)
        (get_or image.new.bytes.items (frame * 4096 + k) 0)) }
    ensures frame { IsFrameRead frame image.old image.new }
    ensures quiet { IsQuiet (D.state disk.old) (D.state disk.new) }
    ensures steady { IsSteady (D.state disk.old) (D.state disk.new) }
    ensures cause { HasCause (D.state disk.old).counts.disk (D.state disk.new).counts.disk result }
{
    let grain = image.grain as usize;
    let first = page * (PAGE / grain);
    let count = image.sectors().min(first + PAGE / grain) - first;
    let start = frame * PAGE;
    read_sectors(
        disk,
        first,
        count,
        grain,
        &mut image.bytes[start..start + PAGE],
    )
}

// Reads so many sectors from `first` on, one behind the other.
fn read_sectors<D: Disk>(
    disk: &mut D,
    first: usize,
    count: usize,
    grain: usize,
    bytes: &mut [u8],
) -> Result<(), Failed>
    requires grain { grain ≡ (D.state disk.old).grain }
    requires size { count * grain ≤ length bytes.old }
    requires begins { (sector : ℕ) → sector < count → (first + sector) * grain < (D.state disk.old).size }
    ensures read { OnOk result (AreSectorsRead (D.state disk.old) grain first bytes.new (count * grain)) }
    ensures quiet { IsQuiet (D.state disk.old) (D.state disk.new) }
    ensures steady { IsSteady (D.state disk.old) (D.state disk.new) }
    ensures cause { HasCause (D.state disk.old).counts.disk (D.state disk.new).counts.disk result }
{
    for sector in 0..count {
        read_sector(disk, first, sector, grain, bytes)?;
    }
    Ok(())
}

// Reads a sector, so many behind the first, to its place in the bytes.
fn read_sector<D: Disk>(
    disk: &mut D,
    first: usize,
    sector: usize,
    grain: usize,
    bytes: &mut [u8],
) -> Result<(), Failed>
    requires grain { grain ≡ (D.state disk.old).grain }
    requires begins { (first + sector) * grain < (D.state disk.old).size }
    requires inside { sector * grain + grain ≤ length bytes.old }
    ensures read { AreSectorsRead (D.state disk.old) grain first bytes.old (sector * grain)
        → OnOk result (AreSectorsRead (D.state disk.old) grain first bytes.new (sector * grain + grain)) }
    ensures quiet { IsQuiet (D.state disk.old) (D.state disk.new) }
    ensures steady { IsSteady (D.state disk.old) (D.state disk.new) }
    ensures cause { HasCause (D.state disk.old).counts.disk (D.state disk.new).counts.disk result }
{
    let start = sector * grain;
    disk.read((first + sector) as u64, &mut bytes[start..start + grain])
}
