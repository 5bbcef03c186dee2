//! What the causes of a refusal mean, for all stores: each function's contract is a law, and its body is empty.

ghost use Rattle.std.specs.Prelude.{ℕ, Option};
ghost use Rattle.save_bytes.specs.Cells.{Cell};
ghost use Rattle.tree_model.specs.declared.kind.TreeKind.{TreeKind as Kind};
ghost use Rattle.tree_model.specs.Trees.{Tree};
ghost use Rattle.tree_rules.specs.Reading.{TreeReadsFrom};
ghost use Rattle.save_mount.specs.declared.fault.MountFault.{MountFault as Fault};
ghost use Rattle.save_mount.specs.Mounted.{IsMemoryOrDisk};
ghost use Rattle.save_mount.specs.Mounts.{HasMountCause};

/// Cells that hold a tree are a cause of no refusal: it is for want of memory, or for the disk's sake.
pub fn a_held_tree_is_no_cause_of_refusal()
    ensures { (kind : Kind) (size : ℕ) (split : Option ℕ) (cells : ℕ → Cell) (tree : Tree) (fault : Fault)
        → TreeReadsFrom kind size split cells tree → HasMountCause kind size split cells fault → IsMemoryOrDisk fault }
{}
