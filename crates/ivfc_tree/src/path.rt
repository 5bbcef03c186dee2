//! The path from the master hash down to a block.

ghost use Rattle.std.specs.Prelude.{◌≡◌, ℕ, ◌≤◌, ◌<◌, false, bytes_eq, length, IsTrue, IfOk, OnErr};
ghost use Rattle.std.specs.Result.{result_err};
ghost use Rattle.save_bytes.specs.Refusals.{NeverDamaged, UnlessDisk};
ghost use Rattle.save_bytes.specs.Reads.{Reads};
ghost use Rattle.ivfc_tree.specs.Levels.{HasBlock, zero_entry};
ghost use Rattle.ivfc_tree.specs.Marks.{IsMadeFor};
ghost use Rattle.ivfc_tree.specs.Paths.{judged, own_state, block_state};
ghost use Rattle.ivfc_tree.specs.Known.{IsOwn, CountsHash, Looks, Finds};
ghost use Rattle.ivfc_tree.specs.View.{HasTree};

use crate::hashing::{block_digest, entry_of};
use crate::levels::parent_of;
use crate::state::IvfcState;
use difi::Difi;
use save_bytes::{Bad, Space};

/// What the path of a block comes to.
#[derive(Clone, Copy, Debug, PartialEq, Eq)]
pub enum BlockState {
    /// Each hash holds.
    Good,
    /// The topmost block at which it fails, whose entry is 32 zero bytes.
    Blank { level: u8, block: u64 },
    /// The topmost block at which it fails, whose entry is another digest than its own.
    Bad { level: u8, block: u64 },
}

// A block by its entry and its digest alone.
fn judge<S: Space>(
    base: &mut S,
    difi: &Difi,
    master: &[u8],
    state: &mut IvfcState,
    level: u8,
    block: u64,
) -> Result<BlockState, Bad>
    requires tree { HasTree (S.state base.old).shape difi.now (length master.now) }
    requires there { HasBlock difi.now level block }
    ensures state { IsTrue (S.state base.old).told
        → IfOk result (λ found. found ≡ own_state (S.state base.old).cells master.now difi.now level block) }
    ensures own { IfOk result (IsOwn level block) }
    ensures counts { CountsHash state.old state.new }
    ensures plain { NeverDamaged (result_err result) }
    ensures reads { Reads S.state S.keeps S.lands base.old base.new (result_err result) }
{
    let entry = match entry_of(base, difi, master, level, block) {
        Ok(entry) => entry,
        Err(bad) => return Err(bad),
    };
    if entry == [0; 32] {
        return Ok(BlockState::Blank { level, block });
    }
    state.count();
    match block_digest(base, difi, level, block) {
        Ok(digest) => Ok(compare(level, block, &entry, &digest)),
        Err(bad) => Err(bad),
    }
}

// What the digest of a block that was written tells.
fn compare(level: u8, block: u64, entry: &[u8; 32], digest: &[u8; 32]) -> BlockState
    requires written { bytes_eq entry.now zero_entry ≡ false }
    ensures judged { result ≡ judged level block entry.now digest.now }
    ensures own { IsOwn level block result }
{
    if entry == digest {
        BlockState::Good
    } else {
        BlockState::Bad { level, block }
    }
}

// The same, and notes it.
fn look<S: Space>(
    base: &mut S,
    difi: &Difi,
    master: &[u8],
    state: &mut IvfcState,
    level: u8,
    block: u64,
) -> Result<BlockState, Bad>
    requires tree { HasTree (S.state base.old).shape difi.now (length master.now) }
    requires there { HasBlock difi.now level block }
    requires made { IsMadeFor difi.now state.old }
    ensures looks { Looks (S.state base.old) master.now difi.now state.old state.new level block result }
    ensures plain { NeverDamaged (result_err result) }
    ensures reads { Reads S.state S.keeps S.lands base.old base.new (result_err result) }
{
    match judge(base, difi, master, state, level, block) {
        Ok(found) => {
            state.note(level, block, found);
            Ok(found)
        }
        Err(bad) => Err(bad),
    }
}

/// What the path of a block comes to, from the master hash down. A block that was put or cleared counts as good. What
/// is found is remembered, and what is remembered is not looked at again.
pub(crate) fn block_state<S: Space>(
    base: &mut S,
    difi: &Difi,
    master: &[u8],
    state: &mut IvfcState,
    level: u8,
    block: u64,
) -> Result<BlockState, Bad>
    requires tree { HasTree (S.state base.old).shape difi.now (length master.now) }
    requires there { HasBlock difi.now level block }
    requires made { IsMadeFor difi.now state.old }
    ensures finds { Finds (S.state base.old) (S.state base.new) master.now difi.now state.old state.new level block
        result }
    ensures plain { NeverDamaged (result_err result) }
    ensures reads { Reads S.state S.keeps S.lands base.old base.new (result_err result) }
{
    if let Some(found) = state.recall(level, block) {
        return Ok(found);
    }
    if level == 1 {
        return look(base, difi, master, state, level, block);
    }
    let above = parent_of(difi, level - 1, block);
    let found = match block_state(base, difi, master, state, level - 1, above) {
        Ok(found) => found,
        Err(bad) => return Err(bad),
    };
    match found {
        BlockState::Good => look(base, difi, master, state, level, block),
        fault => Ok(fault),
    }
}
