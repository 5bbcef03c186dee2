//! Dropping what was put and cleared.

ghost use Rattle.std.specs.Prelude.{ℕ, List, IsTrue};
ghost use Rattle.save_bytes.specs.Cells.{Cell};
ghost use Rattle.save_disk.specs.State.{State as DiskState};
ghost use Rattle.page_image.specs.Images.{IsDiskOf};
ghost use Rattle.container.specs.Signers.{Signing};
ghost use Rattle.container.specs.StoreHeld.{store_of};
ghost use Rattle.container.specs.Containers.{IsOpenOf, IsWholeContainer};
ghost use Rattle.container.specs.ImageCells.{AreImageCells};
ghost use Rattle.container.specs.Aborts.{DropsChanges, WasOpenOf, HaveOrigins, AreHeld};

use crate::open::Container;

impl Container {
    /// Drops what was put and cleared in the present transaction: so the cells are again those of the image as it was
    /// opened. External blocks that were put or cleared keep the bytes that they have now, and are tried anew against
    /// their hashes. The disk is not touched.
    pub fn abort(&mut self)
        ensures drops { DropsChanges self.old self.new }
        ensures whole { IsWholeContainer self.old → IsWholeContainer self.new }
        ensures opened { (sign : Signing) (image : List ℕ) → WasOpenOf sign image self.old → IsOpenOf sign image self.new }
        // What is still remembered of the hash paths is true.
        ensures told { (was : ℕ → ℕ → Cell) (disk : DiskState) → IsTrue (store_of disk self.old).shape.sound
            → IsTrue (store_of disk self.old).told → HaveOrigins was disk self.old
            → IsTrue (store_of disk self.new).told }
        // The cells are those of each image from which the present contents are chosen.
        ensures cells { (sign : Signing) (image : List ℕ) (disk : DiskState) → WasOpenOf sign image self.old
            → IsWholeContainer self.old → IsDiskOf disk self.old.image → AreHeld image disk self.old
            → AreImageCells image self.new.header self.new.parts (store_of disk self.new).cells }
    {
        self.parts.first.drop_changes();
        if let Some(second) = &mut self.parts.second {
            second.drop_changes();
        }
    }
}
