//! What the definitions mean, for all values: each function's contract is a law, and its body is empty.

ghost use Rattle.std.specs.Prelude.{◌≡◌, ℕ, ◌<◌};
ghost use Rattle.save_bytes.specs.Cells.{Cell};
ghost use Rattle.save_bytes.specs.State.{Shape as Form};
ghost use Rattle.tree_model.specs.Trees.{Tree};
ghost use Rattle.save_fs.specs.declared.mounted.SaveFs.{SaveFs as Fs};
ghost use Rattle.save_fs.specs.Mounted.{StandsOn, IsMountedOn, StaysMounted};

/// A mount stays good for a store whose cells are the same: it holds the same tree, whatever calls were made between.
pub fn a_mount_stays_over_the_same_cells()
    ensures { (shape : Form) (fs : Fs) (cells new : ℕ → Cell) (tree : Tree) → StandsOn shape fs
        → IsMountedOn shape.size fs cells tree → ((x : ℕ) → x < shape.size → new x ≡ cells x)
        → StaysMounted shape.size fs new tree }
{}
