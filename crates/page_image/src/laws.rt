//! What the calls on an image write, as laws over the spots that they leave alone.

ghost use Rattle.std.specs.Prelude.{ℕ, ◌<◌, length, IsTrue};
ghost use Rattle.save_bytes.specs.Spots.{Place, Sector};
ghost use Rattle.save_disk.specs.State.{State, IsSound, IsQuiet};
ghost use Rattle.save_disk.specs.Tells.{tells};
ghost use Rattle.save_disk.specs.Writes.{WritesOnly};
ghost use Rattle.page_image.specs.declared.state.ImageState.{ImageState};
ghost use Rattle.page_image.specs.Images.{IsDiskOf, IsFrontStored, DiffersWithin};
ghost use Rattle.page_image.specs.Spots.{Leaves};
ghost use Rattle.page_image.specs.WriteOuts.{IsClean};
ghost use Rattle.page_image.specs.Allowed.{IsAllowedWrite, LeavesMissed};

/// A call that leaves alone each spot that a put would miss adds nothing to the trace but writes, each of a sector that
/// is changed or that the put meets, and with the image's bytes at all places that the put does not meet.
pub fn writes_of_calls()
    ensures { (disk disk_new : State) (image image_new : ImageState) (at n : ℕ)
        → LeavesMissed at n disk image disk_new image_new
        → WritesOnly (IsAllowedWrite disk image at n) disk disk_new }
{}

/// Where nothing of an image is changed, a call that leaves alone each sector leaves the disk's trace as it is, with
/// all that it tells of reads, and nothing of the image is changed then. It is so on every disk, whatever it tells.
#[tactic(auto, using(crate::proofs::QuietLemmas::quiet_where_clean))]
pub fn quiet_calls()
    ensures quiet { (disk disk_new : State) (image image_new : ImageState) → IsClean image
        → ((number : ℕ) → Leaves (Sector number) disk image disk_new image_new)
        → IsQuiet disk disk_new }
    ensures clean { (disk disk_new : State) (image image_new : ImageState) → IsClean image
        → ((number : ℕ) → Leaves (Sector number) disk image disk_new image_new)
        → IsClean image_new }
{}

/// The bytes of an image behind the first 512 that are not those of its disk lie in at most as many pages as there are
/// frames, at each moment between two calls. Where the first 512 are on the disk, it is so of all its bytes.
pub fn few_pages_differ()
    ensures behind { (disk : State) (image : ImageState) → IsSound disk → IsDiskOf disk image → IsTrue (tells disk)
        → DiffersWithin 512 (length image.pages.items) disk image }
    ensures in_all { (disk : State) (image : ImageState) → IsSound disk → IsDiskOf disk image → IsTrue (tells disk)
        → IsFrontStored disk image → DiffersWithin 0 (length image.pages.items) disk image }
{}

/// The first 512 bytes stay on the disk as the image has them, where a call leaves alone each of their places: any call
/// but `write_header`.
pub fn front_stays_stored()
    ensures { (disk disk_new : State) (image image_new : ImageState) → IsSound disk → IsSound disk_new
        → IsDiskOf disk image
        → IsTrue (tells disk) → ((x : ℕ) → x < 512 → Leaves (Place x) disk image disk_new image_new)
        → IsFrontStored disk image → IsFrontStored disk_new image_new }
{}
