//! What a hash path comes to, as a law over all bytes.

ghost use Rattle.std.specs.Prelude.{ℕ, List};
ghost use Rattle.save_bytes.specs.Cells.{Cell};
ghost use Rattle.difi.specs.declared.descriptor.Difi.{Difi};
ghost use Rattle.ivfc_tree.specs.Paths.{IsStateOf, path_state};

/// What a block's path comes to holds exactly where the block has a hash path, and else names the topmost level that
/// fails, as never written exactly where the entry there is 32 zero bytes.
pub fn paths_come_to()
    ensures { (cells : ℕ → Cell) (master : List ℕ) (difi : Difi) (level block : ℕ)
        → IsStateOf cells master difi level block (path_state cells master difi level block) }
{}
