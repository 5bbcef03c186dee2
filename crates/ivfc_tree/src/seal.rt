//! Sealing: the digests of marked blocks are written into the levels above them and into the master hash.

ghost use Rattle.std.specs.Prelude.{◌≡◌, ◌+◌, ◌-◌, ◌*◌, ◌<◌, ◌≤◌, length, take, drop, IsTrue};
ghost use Rattle.std.specs.Result.{result_err};
ghost use Rattle.sha2.specs.Sha256.{sha256};
ghost use Rattle.save_bytes.specs.Refusals.{IfDone};
ghost use Rattle.save_bytes.specs.Writes.{IsWithin, Writes};
ghost use Rattle.difi.specs.Places.{blocks_of};
ghost use Rattle.ivfc_tree.specs.Levels.{IsLevel, level_of, HasBlock, padded_block, hash_entry};
ghost use Rattle.ivfc_tree.specs.Marks.{is_marked};
ghost use Rattle.ivfc_tree.specs.View.{HasTree};
ghost use Rattle.ivfc_tree.specs.Seals.{IsInEntry, IsInFirst, DiffersAt, CountsOn, SealsMarked, SealsLevel};
ghost use Rattle.ivfc_tree.specs.Seals.{SealsTree};

use crate::hashing::block_digest;
use crate::levels::{block_size, level_of};
use crate::prepare::put_bytes;
use crate::state::IvfcState;
use difi::Difi;
use save_bytes::{Bad, Space};

// Puts the entry of a block of level 1 into the master hash.
fn put_first(master: &mut [u8], block: u64, entry: &[u8; 32])
    requires { 32 * block + 32 ≤ length master.old }
    ensures entry { take 32 (drop (32 * block) master.new) ≡ entry.now }
    ensures others { DiffersAt (IsWithin (32 * block) 32) master.old master.new }
{
    let start = 32 * block as usize;
    master[start..start + 32].copy_from_slice(entry);
}

// Writes the digest of a block into its entry.
fn seal_block<S: Space>(
    base: &mut S,
    difi: &Difi,
    master: &mut [u8],
    level: u8,
    block: u64,
) -> Result<(), Bad>
    requires tree { HasTree (S.state base.old).shape difi.now (length master.old) }
    requires there { HasBlock difi.now level block }
    ensures entry { IsTrue (S.state base.old).told → IfDone (result_err result)
        (hash_entry (S.state base.new).cells master.new difi.now level block
        ≡ sha256 (padded_block (S.state base.new).cells difi.now level block)) }
    ensures writes { Writes S.state S.keeps S.lands (IsInEntry difi.now level block) base.old base.new
        (result_err result) }
    ensures master { DiffersAt (IsInFirst level block) master.old master.new }
{
    let digest = match block_digest(base, difi, level, block) {
        Ok(digest) => digest,
        Err(bad) => return Err(bad),
    };
    if level == 1 {
        put_first(master, block, &digest);
        return Ok(());
    }
    put_bytes(base, level_of(difi, level - 1).at + 32 * block, &digest)
}

// Seals a block, unless it is not marked.
fn seal_marked<S: Space>(
    base: &mut S,
    difi: &Difi,
    master: &mut [u8],
    state: &mut IvfcState,
    level: u8,
    block: u64,
) -> Result<(), Bad>
    requires tree { HasTree (S.state base.old).shape difi.now (length master.old) }
    requires there { HasBlock difi.now level block }
    ensures counts { CountsOn state.old state.new }
    ensures seals { SealsMarked S.state S.keeps S.lands difi.now (is_marked state.old) level block
        base.old master.old base.new master.new (result_err result) }
{
    if !state.is_marked(level, block) {
        return Ok(());
    }
    state.count();
    seal_block(base, difi, master, level, block)
}

/// How many blocks a level has.
pub(crate) fn blocks_in(difi: &Difi, level: u8) -> u64
    requires { (level_of difi.now level).log ≤ 16 }
    ensures { result ≡ blocks_of (level_of difi.now level) }
{
    let place = level_of(difi, level);
    place.size.div_ceil(block_size(&place))
}

// Seals the marked blocks of a level.
fn seal_level<S: Space>(
    base: &mut S,
    difi: &Difi,
    master: &mut [u8],
    state: &mut IvfcState,
    level: u8,
) -> Result<(), Bad>
    requires tree { HasTree (S.state base.old).shape difi.now (length master.old) }
    requires there { IsLevel level }
    ensures counts { CountsOn state.old state.new }
    ensures seals { SealsLevel S.state S.keeps S.lands difi.now (is_marked state.old) level
        base.old master.old base.new master.new (result_err result) }
{
    let blocks = blocks_in(difi, level);
    let mut block = 0;
    while block < blocks {
        match seal_marked(base, difi, master, state, level, block) {
            Ok(()) => {}
            Err(bad) => return Err(bad),
        }
        block += 1;
    }
    Ok(())
}

/// Seals a tree over a base: each marked block has then its digest as its entry, those of level four first.
pub(crate) fn seal_in<S: Space>(
    base: &mut S,
    difi: &Difi,
    master: &mut [u8],
    state: &mut IvfcState,
) -> Result<(), Bad>
    requires { HasTree (S.state base.old).shape difi.now (length master.old) }
    ensures counts { CountsOn state.old state.new }
    ensures seals { SealsTree S.state S.keeps S.lands difi.now (is_marked state.old)
        base.old master.old base.new master.new (result_err result) }
{
    let mut level = 4;
    while level > 0 {
        match seal_level(base, difi, master, state, level) {
            Ok(()) => {}
            Err(bad) => return Err(bad),
        }
        level -= 1;
    }
    Ok(())
}
