//! Blocks of level four that are cleared, spoilt ones too.

ghost use Rattle.std.specs.Prelude.{◌≡◌, ℕ, ◌*◌, replicate, length, IsTrue};
ghost use Rattle.std.specs.Result.{result_err};
ghost use Rattle.save_bytes.specs.Refusals.{IfDone};
ghost use Rattle.save_bytes.specs.Writes.{Writes};
ghost use Rattle.difi.specs.Places.{block_size};
ghost use Rattle.ivfc_tree.specs.Levels.{HasBlock};
ghost use Rattle.ivfc_tree.specs.Marks.{IsMadeFor};
ghost use Rattle.ivfc_tree.specs.Paths.{block_above, block_state};
ghost use Rattle.ivfc_tree.specs.Known.{is_told};
ghost use Rattle.ivfc_tree.specs.View.{HasTree};
ghost use Rattle.ivfc_tree.specs.Readies.{IsUnspoiltPath, PathSites, IsInPath, MarksWithin, contents_len, PutsContents};

use crate::prepare::{prepare, zero_and_mark};
use crate::state::IvfcState;
use difi::Difi;
use save_bytes::{Bad, Space};

/// Makes each byte of a block of level four zero, whatever they were, where no block above it is spoilt.
pub(crate) fn clear_in<S: Space>(
    base: &mut S,
    difi: &Difi,
    master: &[u8],
    state: &mut IvfcState,
    block: u64,
) -> Result<(), Bad>
    requires tree { HasTree (S.state base.old).shape difi.now (length master.now) }
    requires made { IsMadeFor difi.now state.old }
    requires there { HasBlock difi.now 4 block }
    ensures clears { IsTrue (is_told (S.state base.old) master.now difi.now state.old)
        → IsUnspoiltPath (block_state (S.state base.old).cells master.now difi.now state.old 3
        (block_above difi.now 4 block 3))
        → IfDone (result_err result)
        (PutsContents (S.state base.old) master.now difi.now state.old (block * block_size difi.now.ivfc4)
        (replicate (contents_len difi.now block) 0) (S.state base.new).cells state.new) }
    ensures marks { MarksWithin (IsInPath difi.now block) state.old state.new }
    ensures writes { Writes S.state S.keeps S.lands (PathSites difi.now block) base.old base.new (result_err result) }
{
    match prepare(base, difi, master, state, block, 3) {
        Ok(()) => zero_and_mark(base, difi, state, 4, block),
        Err(bad) => Err(bad),
    }
}
