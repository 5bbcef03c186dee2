//! A view of an image and its disk.

ghost use Rattle.std.specs.Prelude.{refl, ◌≡◌, ℕ, ◌/◌, ◌<◌, true, false, List, length, IsTrue, OnOk, OnErr};
ghost use Rattle.std.specs.Result.{result_err};
ghost use Rattle.std.proofs.Common.{ap, subst};
ghost use Rattle.save_bytes.specs.Cells.{Byte, AreBytesAt};
ghost use Rattle.save_bytes.specs.State.{IsWritable, CanPut};
ghost use Rattle.save_bytes.specs.Answers.{IsReady};
ghost use Rattle.save_bytes.specs.Refusals.{NeverDamaged};
ghost use Rattle.save_bytes.specs.Stays.{SameCells};
ghost use Rattle.save_bytes.specs.Puts.{Puts};
ghost use Rattle.save_bytes.specs.Spots.{Spot, Place, Frame, MovesOnly};
ghost use Rattle.save_disk.specs.Trace.{Sync, Write};
ghost use Rattle.save_disk.specs.State.{GoesOn, Happens, IsQuiet, IsSteady, HasCause};
ghost use Rattle.save_disk.specs.Tells.{tells};
ghost use Rattle.save_disk.specs.Writes.{GrewBy, WritesOnly};
ghost use Rattle.page_image.specs.Images.{is_held, is_changed, IsDiskOf, IsStored, IsFrontStored, DiffersWithin};
ghost use Rattle.page_image.specs.Spots.{ImageLands, LeavesTold};
ghost use Rattle.page_image.specs.Fronts.{HasFront, FailsFront, LeavesBehind};
ghost use Rattle.page_image.specs.Held.{shown, IsImageViewOf, SameImageView, ImageKeeps};
ghost use Rattle.page_image.specs.Puts.{IsPending};
ghost use Rattle.page_image.specs.Allowed.{IsOldOrNewSector};
ghost use Rattle.page_image.specs.WriteOuts.{WritesEach, WritesSome, IsClean};
ghost use Rattle.page_image.specs.Laws.{image_size_fits, ImageKeeps-same, ImageKeeps-join, SameImage-shape};

use crate::fetching::reach;
use crate::heading::write_front;
use crate::putting::put_all;
use crate::state::ImageState;
use crate::writing::write_out;
use save_bytes::{Bad, Space};
use save_disk::{Disk, Failed};

/// The bytes of an image as a space. Bytes 0 to 511 are kept apart: no put meets them.
#[derive(Drop)]
pub struct Image<'a, D: Disk> {
    image: &'a mut ImageState,
    disk: &'a mut D,
}

impl ImageState {
    /// The image over its disk.
    pub fn view<'a, D: Disk>(&'a mut self, disk: &'a mut D) -> Image<'a, D>
        requires { IsDiskOf (D.state disk.old) self.old }
        ensures holds { IsImageViewOf result self.entry disk.entry }
        ensures sound { IsTrue (shown D.state result).shape.sound }
    {
        Image { image: self, disk }
    }
}

impl<D: Disk> Image<'_, D> {
    /// Bytes 0 to 511 as last read or written.
    pub fn header(&self) -> &[u8; 512]
        ensures { AreBytesAt (shown D.state self.now).cells 0 result.now }
    {
        self.image.header()
    }

    /// Writes each sector that holds a changed byte, as it is; then no sector does. Bytes 0 to 511 go out as last read
    /// or written.
    ///
    /// # Errors
    ///
    /// Where the disk fails. Some of the sectors may then be written.
    pub fn flush(&mut self) -> Result<(), Failed>
        requires { IsTrue (shown D.state self.old).shape.sound }
        ensures frame { ImageKeeps D.state Frame self.old self.new }
        ensures spots { (spot : Spot) → ImageKeeps D.state spot self.old self.new }
        ensures cells { SameCells (shown D.state self.old) (shown D.state self.new) }
        ensures clean { OnOk result (IsClean self.new.image.now) }
        ensures written { OnOk result
            (GoesOn (GrewBy (WritesEach (D.state self.old.disk.now) self.old.image.now (λ sector. true)))
            (D.state self.old.disk.now) (D.state self.new.disk.now)) }
        ensures failed { OnErr result
            (GoesOn (GrewBy (WritesSome (D.state self.old.disk.now) self.old.image.now (λ sector. true)))
            (D.state self.old.disk.now) (D.state self.new.disk.now)) }
        ensures stored { OnOk result (IsStored (D.state self.new.disk.now) self.new.image.now) }
        ensures few { IsTrue (tells (D.state self.old.disk.now))
            → OnOk result (DiffersWithin 512 (length self.old.image.now.pages.items) (D.state self.new.disk.now)
            self.new.image.now) }
        ensures few_in_all { IsTrue (tells (D.state self.old.disk.now))
            → IsFrontStored (D.state self.old.disk.now) self.old.image.now
            → OnOk result (DiffersWithin 0 (length self.old.image.now.pages.items) (D.state self.new.disk.now)
            self.new.image.now) }
        ensures front { IsTrue (tells (D.state self.old.disk.now))
            → IsFrontStored (D.state self.old.disk.now) self.old.image.now
            → IsFrontStored (D.state self.new.disk.now) self.new.image.now }
        ensures told { OnOk result ((shown D.state self.new).told ≡ (shown D.state self.old).told) }
        ensures cause { HasCause (D.state self.old.disk.now).counts.disk
            (D.state self.new.disk.now).counts.disk result }
    {
        let disk = &mut *self.disk;
        write_out(disk, &mut *self.image)
    }

    /// Writes sector 0: these bytes, then the image's. They are bytes 0 to 511 then.
    ///
    /// # Errors
    ///
    /// Where the disk fails. The image is then as before, and sector 0 may be written or not.
    pub fn write_header(&mut self, header: &[u8; 512]) -> Result<(), Failed>
        requires { IsTrue (shown D.state self.old).shape.sound }
        ensures view { SameImageView self.old self.new }
        ensures leaves { LeavesBehind (D.state self.old.disk.now) self.old.image.now (D.state self.new.disk.now)
            self.new.image.now }
        ensures written { OnOk result
            ((bytes : List ℕ) × HasFront (D.state self.old.disk.now) self.old.image.now header.now bytes
            × Happens (Write 0 bytes) (D.state self.old.disk.now) (D.state self.new.disk.now)) }
        ensures failed { OnErr result
            (FailsFront (D.state self.old.disk.now) self.old.image.now header.now (D.state self.new.disk.now)) }
        ensures header { OnOk result (AreBytesAt (shown D.state self.new).cells 0 header.now) }
        ensures front { IsTrue (tells (D.state self.old.disk.now))
            → OnOk result (IsFrontStored (D.state self.new.disk.now) self.new.image.now) }
        ensures clean { OnOk result (is_changed self.new.image.now 0 ≡ false) }
        ensures kept { OnErr result (self.new.image.now.header ≡ self.old.image.now.header) }
        ensures told { OnOk result ((shown D.state self.new).told ≡ (shown D.state self.old).told) }
        ensures cause { HasCause (D.state self.old.disk.now).counts.disk
            (D.state self.new.disk.now).counts.disk result }
    {
        let disk = &mut *self.disk;
        write_front(disk, &mut *self.image, header)
    }

    // Sees to it that the page of a place is held.
    fn bring(&mut self, at: u64) -> Result<(), Failed>
        requires sound { IsTrue (shown D.state self.old).shape.sound }
        requires inside { at < self.old.image.now.len }
        ensures view { SameImageView self.old self.new }
        ensures leaves { LeavesTold (D.state self.old.disk.now) self.old.image.now (D.state self.new.disk.now)
            self.new.image.now }
        ensures held { OnOk result (is_held self.new.image.now (at / 4096) ≡ true) }
        ensures told { OnOk result (tells (D.state self.new.disk.now) ≡ tells (D.state self.old.disk.now)) }
        ensures cause { HasCause (D.state self.old.disk.now).counts.disk
            (D.state self.new.disk.now).counts.disk result }
    {
        let disk = &mut *self.disk;
        self.image.bring(disk, at)
    }

    /// Keeps all that was written, whatever stops later.
    ///
    /// # Errors
    ///
    /// Where the disk fails.
    pub fn sync(&mut self) -> Result<(), Failed>
        ensures synced { OnOk result (Happens Sync (D.state self.old.disk.now) (D.state self.new.disk.now)) }
        ensures failed { OnErr result (IsQuiet (D.state self.old.disk.now) (D.state self.new.disk.now)) }
        ensures steady { IsSteady (D.state self.old.disk.now) (D.state self.new.disk.now) }
        ensures cause { HasCause (D.state self.old.disk.now).counts.disk
            (D.state self.new.disk.now).counts.disk result }
        ensures same { SameImageView self.old self.new }
        ensures image { self.new.image.now ≡ self.old.image.now }
        ensures front { IsFrontStored (D.state self.old.disk.now) self.old.image.now
            → IsFrontStored (D.state self.new.disk.now) self.new.image.now }
    {
        self.disk.sync()
    }
}

impl<D: Disk> Space for Image<'_, D> {
    ghost state = { shown D.state };

    ghost keeps = { ImageKeeps D.state };

    ghost lands = { λ view. ImageLands view.image.now.grain };

    ghost size_fits = { λ view sound. image_size_fits (D.state view.disk.now) view.image.now };

    ghost plain_bytes = { λ view plain told x. tt };

    ghost no_twins = { λ view single. record { apart = λ x y same. same; free = λ x. refl } };

    ghost keeps_same = { ImageKeeps-same D.state };

    ghost keeps_join = { ImageKeeps-join D.state };

    ghost keeps_cells = { λ s t sound single told still kept. (
      λ x inside. ap Byte ((kept (Place x)).1.1 inside).0,
      record { bottom = λ x inside. refl; is_fixed = λ x inside. refl },
    ) };

    ghost keeps_lands = { λ s t sound single told still kept x below spot.
        subst (λ (grain : ℕ). ImageLands grain x spot) (kept Frame).1.0.grain };

    ghost keeps_hold = { λ s t kept. kept };

    ghost keeps_shape = { λ s t kept.
        SameImage-shape (D.state s.disk.now) (D.state t.disk.now) s.image.now t.image.now kept.1.0 };

    fn len(&self) -> u64 {
        self.image.len()
    }

    fn piece(&mut self, at: u64, most: usize) -> Result<&[u8], Bad> {
        match self.bring(at) {
            Ok(()) => {}
            Err(_) => return Err(Bad::Disk),
        }
        Ok(self.image.held(at, most))
    }

    fn ready(&mut self, _at: u64, _n: u64) -> Result<(), Bad> {
        Ok(())
    }

    // The trait's clauses, and that what was put comes to the disk with the next flush, whatever its value. A sector
    // that is written meanwhile has its old bytes or its new ones, all of them, also where the call is refused.
    fn put(&mut self, at: u64, bytes: &[u8]) -> Result<(), Bad>
        requires { IsWritable (shown D.state self.old).shape at (length bytes.now) }
        ensures ready { CanPut (shown D.state self.old) at (length bytes.now)
            → IsReady (shown D.state self.old) at (length bytes.now) (result_err result) }
        ensures plain { IsTrue (shown D.state self.old).shape.plain → NeverDamaged (result_err result) }
        ensures puts { Puts (shown D.state self.old) at bytes.now (shown D.state self.new) (result_err result) }
        ensures moves { MovesOnly (ImageKeeps D.state) (λ view. ImageLands view.image.now.grain)
            (shown D.state self.old) self.old at (length bytes.now) self.new (result_err result) }
        ensures pending { OnOk result
            (IsPending at (length bytes.now) (D.state self.old.disk.now) (D.state self.new.disk.now)
            self.new.image.now) }
        ensures old_or_new { IsTrue (tells (D.state self.old.disk.now))
            → WritesOnly
            (IsOldOrNewSector (D.state self.old.disk.now) self.old.image.now (D.state self.new.disk.now)
            self.new.image.now)
            (D.state self.old.disk.now) (D.state self.new.disk.now) }
        ensures few { IsTrue (tells (D.state self.old.disk.now))
            → OnOk result (DiffersWithin 512 (length self.old.image.now.pages.items) (D.state self.new.disk.now)
            self.new.image.now) }
        ensures few_in_all { IsTrue (tells (D.state self.old.disk.now))
            → IsFrontStored (D.state self.old.disk.now) self.old.image.now
            → OnOk result (DiffersWithin 0 (length self.old.image.now.pages.items) (D.state self.new.disk.now)
            self.new.image.now) }
        ensures front { IsTrue (tells (D.state self.old.disk.now))
            → IsFrontStored (D.state self.old.disk.now) self.old.image.now
            → IsFrontStored (D.state self.new.disk.now) self.new.image.now }
    {
        let disk = &mut *self.disk;
        match put_all(disk, &mut *self.image, at, bytes) {
            Ok(()) => Ok(()),
            Err(_) => Err(Bad::Disk),
        }
    }
}
