//! Bytes that are put into the contents of a hash tree.

ghost use Rattle.std.specs.Prelude.{◌≡◌, ℕ, ◌+◌, ◌<◌, ◌≤◌, length, IsTrue};
ghost use Rattle.std.specs.Result.{result_err};
ghost use Rattle.save_bytes.specs.Refusals.{IfDone};
ghost use Rattle.save_bytes.specs.Writes.{Writes};
ghost use Rattle.ivfc_tree.specs.Marks.{IsMadeFor};
ghost use Rattle.ivfc_tree.specs.Known.{is_told};
ghost use Rattle.ivfc_tree.specs.View.{HasTree};
ghost use Rattle.ivfc_tree.specs.Readies.{HasNoSpoilt, RangeSites, IsInPaths, MarksWithin, ReadiesRange, PutsContents};

use crate::levels::{block_size, level_of};
use crate::prepare::{prepare, put_bytes};
use crate::state::IvfcState;
use difi::Difi;
use save_bytes::{Bad, Space};

// Makes the blocks ready that the `n` bytes of level four from `at` on meet.
fn prepare_range<S: Space>(
    base: &mut S,
    difi: &Difi,
    master: &[u8],
    state: &mut IvfcState,
    at: u64,
    n: u64,
) -> Result<(), Bad>
    requires tree { HasTree (S.state base.old).shape difi.now (length master.now) }
    requires made { IsMadeFor difi.now state.old }
    requires inside { at + n ≤ difi.now.ivfc4.size }
    ensures readied { IsTrue (is_told (S.state base.old) master.now difi.now state.old)
        → HasNoSpoilt (S.state base.old).cells master.now difi.now state.old at n
        → IfDone (result_err result)
        (ReadiesRange master.now difi.now at n n (S.state base.old).cells state.old (S.state base.new).cells
        state.new) }
    ensures marks { MarksWithin (IsInPaths difi.now at n) state.old state.new }
    ensures writes { Writes S.state S.keeps S.lands (RangeSites difi.now at n) base.old base.new (result_err result) }
{
    let size = block_size(&difi.ivfc4);
    let mut done = 0;
    while done < n {
        let place = at + done;
        match prepare(base, difi, master, state, place / size, 4) {
            Ok(()) => done += (size - place % size).min(n - done),
            Err(bad) => return Err(bad),
        }
    }
    Ok(())
}

/// Puts bytes into level four, none of whose blocks that they meet is spoilt.
pub(crate) fn put_in<S: Space>(
    base: &mut S,
    difi: &Difi,
    master: &[u8],
    state: &mut IvfcState,
    at: u64,
    bytes: &[u8],
) -> Result<(), Bad>
    requires tree { HasTree (S.state base.old).shape difi.now (length master.now) }
    requires made { IsMadeFor difi.now state.old }
    requires inside { at + length bytes.now ≤ difi.now.ivfc4.size }
    ensures puts { IsTrue (is_told (S.state base.old) master.now difi.now state.old)
        → HasNoSpoilt (S.state base.old).cells master.now difi.now state.old at (length bytes.now)
        → IfDone (result_err result)
        (PutsContents (S.state base.old) master.now difi.now state.old at bytes.now (S.state base.new).cells
        state.new) }
    ensures marks { MarksWithin (IsInPaths difi.now at (length bytes.now)) state.old state.new }
    ensures writes { Writes S.state S.keeps S.lands (RangeSites difi.now at (length bytes.now)) base.old base.new
        (result_err result) }
{
    match prepare_range(base, difi, master, state, at, bytes.len() as u64) {
        Ok(()) => put_bytes(base, level_of(difi, 4).at + at, bytes),
        Err(bad) => Err(bad),
    }
}
