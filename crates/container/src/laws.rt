//! What the definitions of an opening mean, for all images: the function's contract is the law, and its
//! body is empty.

ghost use Rattle.std.specs.Prelude.{◌≡◌, ◌↔◌, ℕ, List, Bool, IsTrue, Option, None};
ghost use Rattle.save_bytes.specs.declared.space.Bad.{Bad};
ghost use Rattle.save_bytes.specs.Cells.{Cell};
ghost use Rattle.save_bytes.specs.Spots.{MovesOnly};
ghost use Rattle.save_disk.specs.State.{State as DiskState};
ghost use Rattle.container.specs.Signers.{Signing};
ghost use Rattle.container.specs.Openings.{fault_of};
ghost use Rattle.container.specs.Opens.{Opens};
ghost use Rattle.container.specs.declared.open.Container.{Container};
ghost use Rattle.container.specs.Parts.{HaveNoExternal};
ghost use Rattle.container.specs.Containers.{IsOpenOf, IsWholeContainer};
ghost use Rattle.container.specs.declared.store.Store.{Store};
ghost use Rattle.container.specs.StoreHeld.{IsKept, SameContainer, StoreKeeps, shown, store_lands, store_of};
ghost use Rattle.container.specs.ImageCells.{IsHeld};
ghost use Rattle.container.specs.Origins.{HaveCome, AreSpared};
ghost use Rattle.container.specs.Aborts.{WasOpenOf, HaveOrigins, AreAtOrigin, AreHeld, contents_now, contents_held};

use save_disk::Disk;

/// An image opens under a signer exactly where no fault of it is found, whichever condition is tried first.
pub fn opens_exactly_where_no_fault_is_found()
    ensures { (sign : Signing) (image : List ℕ)
        → Opens sign image ↔ (fault_of sign image ≡ None) }
{}

/// A container of which a call only read is as whole as before, and holds what it held as it was opened.
pub fn what_was_only_read_stays_open()
    ensures whole { (old new : Container) → IsKept old new → new.image.len ≡ old.image.len → IsWholeContainer old → IsWholeContainer new }
    ensures opened { (old new : Container) → IsKept old new → (sign : Signing) (image : List ℕ) → IsOpenOf sign image old
        → IsOpenOf sign image new }
{}

/// A container that calls on its store changed is as whole as before, and was opened of what it was opened of.
pub fn what_was_written_stays_whole()
    ensures whole { (old new : Container) → SameContainer old new → new.image.len ≡ old.image.len → IsWholeContainer old
        → IsWholeContainer new }
    ensures begins { (sign : Signing) (image : List ℕ) (container : Container) → IsOpenOf sign image container
        → WasOpenOf sign image container }
    ensures opened { (old new : Container) → SameContainer old new → (sign : Signing) (image : List ℕ)
        → WasOpenOf sign image old → WasOpenOf sign image new }
{}

/// The parts' trees of a container of which nothing was changed came from what the disk holds: so what was read may be
/// remembered where the changes of its first transaction are dropped.
pub fn an_opened_container_is_at_its_origin()
    ensures { (sign : Signing) (image : List ℕ) (container : Container) → IsOpenOf sign image container
        → (disk : DiskState) → AreAtOrigin disk container }
{}

/// A put, also one that is refused, spares the bytes of level 3 that a part's selector chooses, whatever part it is
/// in.
pub fn what_is_put_spares_the_chosen_copies<D: Disk>()
    ensures { (old new : Store D) (at n : ℕ) (refusal : Option Bad) → let was = shown D.state old in
        IsTrue was.shape.sound → MovesOnly (StoreKeeps D.state) (store_lands D.state) was old at n new refusal
        → IsTrue was.told → (contents : ℕ → ℕ → Cell)
        → AreSpared contents (D.state old.disk.now) old.container.now
        → AreSpared contents (D.state new.disk.now) new.container.now }
{}

/// Spared copies are what the parts' trees came from, where no part has external level four: so what is remembered
/// stays true where puts and clears are dropped.
pub fn spared_copies_are_the_origin()
    ensures begins { (sign : Signing) (image : List ℕ) (container : Container) → IsOpenOf sign image container
        → (disk : DiskState) → AreSpared (contents_now disk container) disk container }
    ensures origins { (was : ℕ → ℕ → Cell) (disk : DiskState) (container : Container) → HaveNoExternal container.parts
        → HaveCome was container.table.items disk container → AreSpared was disk container
        → HaveOrigins was disk container }
{}

/// Spared copies are those of the image, where no part has external level four: so behind puts and clears that are
/// dropped the cells are those of the image as it was opened.
pub fn spared_copies_are_held()
    ensures begins { (sign : Signing) (image : List ℕ) (container : Container) → IsOpenOf sign image container
        → (disk : DiskState) → IsTrue (store_of disk container).shape.sound → IsHeld image disk container.image
        → AreSpared (contents_held image container) disk container }
    ensures held { (sign : Signing) (image : List ℕ) (was container : Container) → IsOpenOf sign image was
        → SameContainer was container → HaveNoExternal container.parts → (disk : DiskState)
        → AreSpared (contents_held image was) disk container → AreHeld image disk container }
{}
