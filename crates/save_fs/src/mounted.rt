//! Mounting a SAVE.

ghost use Rattle.std.specs.Prelude.{◌≡◌, ℕ, ◌≤◌, IsTrue, IfOk, IfErr, IfSome, IsErrAnd};
ghost use Rattle.save_bytes.specs.Cells.{Cell};
ghost use Rattle.save_bytes.specs.Reads.{Reads};
ghost use Rattle.tree_model.specs.declared.kind.TreeKind.TheVariants.{Save};
ghost use Rattle.tree_model.specs.Trees.{Tree};
ghost use Rattle.tree_layout.specs.Headers.{IsOther};
ghost use Rattle.tree_rules.specs.Reading.{TreeReadsFrom};
ghost use Rattle.save_mount.specs.Causes.{refusal_in, IsNotSaveOrDisk};
ghost use Rattle.save_mount.specs.Mounts.{HasMountCause};
ghost use Rattle.save_mount.specs.Mounted.{IsMemoryOrDisk};
ghost use Rattle.save_fs.specs.Mounted.{IsMountable, StandsOn, IsMountedOn, HasLost};

use save_bytes::Space;
use save_mount::{MountFault, Mounted, mount};
use std::alloc::Global;
use tree_model::{Room, TreeKind};

/// A mounted SAVE.
#[derive(Debug, Drop)]
pub struct SaveFs {
    /// Where the second part begins in the store, if there is one.
    pub(crate) split: Option<u64>,
    pub(crate) mounted: Mounted,
}

impl SaveFs {
    /// Mounts the SAVE that a store holds, `split` being where its second part begins, if there is one. All metadata
    /// that is needed is read, and every rule on it is tried.
    ///
    /// # Errors
    ///
    /// `NotSave` where the store does not begin as a SAVE does, or has fewer than 32 bytes. `Layout` names the first
    /// condition on where all lies that fails, `Broken` an entry at which a rule fails, `Damaged` a block by which a
    /// needed byte is none. `Memory` and `Disk` where memory runs out, or the disk below fails.
    pub fn mount<S: Space>(
        alloc: Global,
        store: &mut S,
        split: Option<u64>,
    ) -> Result<SaveFs, MountFault>
        requires { IsMountable (S.state store.old).shape split }
        ensures mounted { let s = S.state store.old in IsTrue s.told → (tree : Tree)
            → TreeReadsFrom Save s.shape.size split s.cells tree
            → IfOk result (λ fs. IsMountedOn s.shape.size fs s.cells tree) }
        ensures some_tree { let s = S.state store.old in IsTrue s.told → IfOk result (λ fs. (tree : Tree)
            × IsMountedOn s.shape.size fs s.cells tree) }
        ensures stands { IfOk result (StandsOn (S.state store.old).shape) }
        ensures split { IfOk result (λ fs. fs.split ≡ split) }
        ensures cause { let s = S.state store.old in IsTrue s.told
            → IfErr result (HasMountCause Save s.shape.size split s.cells) }
        ensures exact { let s = S.state store.old in IsTrue s.told → (tree : Tree)
            → TreeReadsFrom Save s.shape.size split s.cells tree → IfErr result IsMemoryOrDisk }
        ensures not_save { let s = S.state store.old in IsTrue s.told
            → IsOther Save s.shape.size s.cells → IsErrAnd result IsNotSaveOrDisk }
        ensures reads { Reads S.state S.keeps S.lands store.old store.new (refusal_in result) }
    {
        match mount(alloc, store, TreeKind::Save, split) {
            Ok(mounted) => Ok(SaveFs { split, mounted }),
            Err(fault) => Err(fault),
        }
    }

    /// What is free: data blocks, and the directories and files that can be added.
    pub fn room(&self) -> Room
        ensures kept { result ≡ self.now.mounted.room }
        ensures room { (size : ℕ) (cells : ℕ → Cell) (tree : Tree) → IsMountedOn size self.now cells tree
            → tree.room ≡ result }
    {
        self.mounted.room
    }

    /// How many data blocks are in no chain and not free.
    pub fn lost(&self) -> u32
        ensures { (size : ℕ) (cells : ℕ → Cell) (tree : Tree) → IsMountedOn size self.now cells tree
            → HasLost size self.now.split cells result }
    {
        self.mounted.lost
    }
}
