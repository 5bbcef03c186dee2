//! Writing an image's first 512 bytes.

ghost use Rattle.std.specs.Prelude.{◌≡◌, ℕ, ◌<◌, List, length, false, IsTrue, OnOk, OnErr};
ghost use Rattle.save_disk.specs.Trace.{Write};
ghost use Rattle.save_disk.specs.State.{IsQuiet, IsSteady, Happens, HasCause};
ghost use Rattle.save_disk.specs.Tells.{tells};
ghost use Rattle.page_image.specs.Images.{is_changed, IsDiskOf, IsFrontStored};
ghost use Rattle.page_image.specs.Fronts.{HasFront, FailsFront, LeavesBehind, IsSector0};

use crate::state::{ImageState, PAGE, put_front};
use save_disk::{Disk, Failed};

// Writes sector 0 with other first 512 bytes, and what the image has behind them.
pub(crate) fn write_front<D: Disk>(
    disk: &mut D,
    image: &mut ImageState,
    header: &[u8; 512],
) -> Result<(), Failed>
    requires { IsDiskOf (D.state disk.old) image.old }
    ensures leaves { LeavesBehind (D.state disk.old) image.old (D.state disk.new) image.new }
    ensures written { OnOk result ((bytes : List ℕ) × HasFront (D.state disk.old) image.old header.now bytes
        × Happens (Write 0 bytes) (D.state disk.old) (D.state disk.new)) }
    ensures failed { OnErr result (FailsFront (D.state disk.old) image.old header.now (D.state disk.new)) }
    ensures header { OnOk result (image.new.header ≡ header.now) }
    ensures front { IsTrue (tells (D.state disk.old)) → OnOk result (IsFrontStored (D.state disk.new) image.new) }
    ensures clean { OnOk result (is_changed image.new 0 ≡ false) }
    ensures kept { OnErr result (image.new.header ≡ image.old.header) }
    ensures told { OnOk result (tells (D.state disk.new) ≡ tells (D.state disk.old)) }
    ensures cause { HasCause (D.state disk.old).counts.disk (D.state disk.new).counts.disk result }
{
    let mut bytes = [0; PAGE];
    let out = &mut bytes[..image.grain() as usize];
    copy_front(disk, image, out)?;
    put_front(header, out);
    match disk.write(0, out) {
        Ok(()) => {
            image.set_header(header);
            Ok(())
        }
        Err(failed) => {
            image.mark_first();
            Err(failed)
        }
    }
}

// Gives the bytes of sector 0: those that are held, or else those of the disk.
fn copy_front<D: Disk>(disk: &mut D, image: &ImageState, out: &mut [u8]) -> Result<(), Failed>
    requires disk_of { IsDiskOf (D.state disk.old) image.now }
    requires whole { length out.old ≡ image.now.grain }
    ensures len { length out.new ≡ image.now.grain }
    ensures front { OnOk result (IsSector0 (D.state disk.old) image.now out.new) }
    ensures quiet { IsQuiet (D.state disk.old) (D.state disk.new) }
    ensures steady { IsSteady (D.state disk.old) (D.state disk.new) }
    ensures cause { HasCause (D.state disk.old).counts.disk (D.state disk.new).counts.disk result }
{
    if image.is_held(0) {
        image.copy_sector(0, out);
        Ok(())
    } else {
        disk.read(0, out)
    }
}
