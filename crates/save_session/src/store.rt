//! A filesystem over the store of an open container.

ghost use Rattle.std.specs.Prelude.{◌≡◌, ℕ, List, IsTrue, IfOk, IfErr, IsErrAnd};
ghost use Rattle.tree_model.specs.declared.kind.TreeKind.TheVariants.{Save};
ghost use Rattle.tree_model.specs.Trees.{Tree};
ghost use Rattle.tree_layout.specs.Headers.{IsOther};
ghost use Rattle.tree_rules.specs.Reading.{TreeReadsFrom};
ghost use Rattle.save_mount.specs.Causes.{refusal_in, IsNotSaveOrDisk};
ghost use Rattle.save_mount.specs.Mounts.{HasMountCause};
ghost use Rattle.save_mount.specs.Mounted.{IsMemoryOrDisk};
ghost use Rattle.save_fs.specs.Mounted.{StandsOn, IsMountedOn};
ghost use Rattle.save_fs.specs.Faults.{disk_in, IsRowsReply};
ghost use Rattle.save_fs.specs.Gets.{IsGetBegun, IsGettingAt, IsPieceGot};
ghost use Rattle.page_image.specs.Images.{IsDiskOf};
ghost use Rattle.container.specs.Containers.{IsWholeContainer};
ghost use Rattle.container.specs.Parts.{split_of};
ghost use Rattle.container.specs.StoreHeld.{store_of};
ghost use Rattle.save_session.specs.Reading.{ReadsThrough};

use container::Container;
use save_bytes::Path;
use save_disk::Disk;
use save_fs::{FsFault, Getting, Listing, MountFault, SaveFs};
use std::alloc::Global;

/// Mounts the SAVE that a container's store holds.
///
/// # Errors
///
/// As `SaveFs::mount`.
pub fn mount_store<D: Disk>(
    alloc: Global,
    container: &mut Container,
    disk: &mut D,
) -> Result<SaveFs, MountFault>
    requires whole { IsWholeContainer container.old }
    requires disk { IsDiskOf (D.state disk.old) container.old.image }
    ensures mounted { let s = store_of (D.state disk.old) container.old in IsTrue s.told → (tree : Tree)
        → TreeReadsFrom Save s.shape.size (split_of container.old.parts) s.cells tree
        → IfOk result (λ fs. IsMountedOn s.shape.size fs s.cells tree) }
    ensures some_tree { let s = store_of (D.state disk.old) container.old in IsTrue s.told
        → IfOk result (λ fs. (tree : Tree) × IsMountedOn s.shape.size fs s.cells tree) }
    ensures stands { IfOk result (StandsOn (store_of (D.state disk.old) container.old).shape) }
    ensures split { IfOk result (λ fs. fs.split ≡ split_of container.old.parts) }
    ensures cause { let s = store_of (D.state disk.old) container.old in IsTrue s.told
        → IfErr result (HasMountCause Save s.shape.size (split_of container.old.parts) s.cells) }
    ensures exact { let s = store_of (D.state disk.old) container.old in IsTrue s.told → (tree : Tree)
        → TreeReadsFrom Save s.shape.size (split_of container.old.parts) s.cells tree
        → IfErr result IsMemoryOrDisk }
    ensures not_save { let s = store_of (D.state disk.old) container.old in IsTrue s.told
        → IsOther Save s.shape.size s.cells → IsErrAnd result IsNotSaveOrDisk }
    ensures reads { ReadsThrough (D.state disk.old) container.old (D.state disk.new) container.new
        (refusal_in result) }
{
    let split = container.split();
    let mut store = container.store(disk);
    SaveFs::mount(alloc, &mut store, split)
}

/// The rows of the tree that is mounted from a container's store, in order.
///
/// # Errors
///
/// As `SaveFs::list`.
pub fn list_store<D: Disk>(
    fs: &SaveFs,
    alloc: Global,
    container: &mut Container,
    disk: &mut D,
) -> Result<Listing, FsFault>
    requires whole { IsWholeContainer container.old }
    requires disk { IsDiskOf (D.state disk.old) container.old.image }
    requires stands { StandsOn (store_of (D.state disk.old) container.old).shape fs.now }
    ensures rows { let s = store_of (D.state disk.old) container.old in IsTrue s.told → (tree : Tree)
        → IsMountedOn s.shape.size fs.now s.cells tree → IsRowsReply tree result }
    ensures reads { ReadsThrough (D.state disk.old) container.old (D.state disk.new) container.new
        (disk_in result) }
{
    let mut store = container.store(disk);
    fs.list(alloc, &mut store)
}

/// Begins to read the file at a path of the tree that is mounted from a container's store.
///
/// # Errors
///
/// As `SaveFs::begin_get`.
pub fn begin_get_store<D: Disk>(
    fs: &SaveFs,
    container: &mut Container,
    disk: &mut D,
    path: &Path,
) -> Result<Getting, FsFault>
    requires whole { IsWholeContainer container.old }
    requires disk { IsDiskOf (D.state disk.old) container.old.image }
    requires stands { StandsOn (store_of (D.state disk.old) container.old).shape fs.now }
    ensures begun { let s = store_of (D.state disk.old) container.old in IsTrue s.told → (tree : Tree)
        → IsMountedOn s.shape.size fs.now s.cells tree → IsGetBegun s.cells tree path.now result }
    ensures chain { IfOk result (λ getting. getting.reading.info ≡ fs.now.mounted.places.chain) }
    ensures reads { ReadsThrough (D.state disk.old) container.old (D.state disk.new) container.new
        (disk_in result) }
{
    let mut store = container.store(disk);
    fs.begin_get(&mut store, path)
}

/// Copies the next bytes of a file that is read from a container's store to the front of `out`, as many as it has or
/// as are left, and says how many.
///
/// # Errors
///
/// As `SaveFs::get_piece`.
pub fn get_piece_store<D: Disk>(
    fs: &SaveFs,
    container: &mut Container,
    disk: &mut D,
    getting: &mut Getting,
    out: &mut [u8],
) -> Result<usize, FsFault>
    requires whole { IsWholeContainer container.old }
    requires disk { IsDiskOf (D.state disk.old) container.old.image }
    requires stands { StandsOn (store_of (D.state disk.old) container.old).shape fs.now }
    requires chain { getting.old.reading.info ≡ fs.now.mounted.places.chain }
    ensures piece { let s = store_of (D.state disk.old) container.old in IsTrue s.told → (bytes : List ℕ) (x : ℕ)
        → IsGettingAt s.cells bytes x getting.old → IsPieceGot s.cells bytes x getting.new out.new result }
    ensures chain { getting.new.reading.info ≡ fs.now.mounted.places.chain }
    ensures reads { ReadsThrough (D.state disk.old) container.old (D.state disk.new) container.new
        (disk_in result) }
{
    let mut store = container.store(disk);
    fs.get_piece(&mut store, getting, out)
}
