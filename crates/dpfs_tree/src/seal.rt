//! Sealing: the bits of touched blocks are turned, in the copies of levels 1 and 2 that are not chosen.

ghost use Rattle.std.specs.Prelude.{◌≡◌, ℕ, ◌*◌, ◌^◌, ◌≤◌, length, true, IsTrue};
ghost use Rattle.std.specs.Int.{div_ceil};
ghost use Rattle.std.specs.Result.{result_err};
ghost use Rattle.save_bytes.specs.Refusals.{IfDone};
ghost use Rattle.save_bytes.specs.Writes.{Writes};
ghost use Rattle.difi.specs.Places.{blocks_of};
ghost use Rattle.dpfs_tree.specs.Picks.{bytes_of};
ghost use Rattle.dpfs_tree.specs.Marks.{IsMadeForContents};
ghost use Rattle.dpfs_tree.specs.View.{HasContents};
ghost use Rattle.dpfs_tree.specs.Seals.{has_mark, HasMark, SealsBlock, SealsLevel1, SealsLevel2, IsBlockSealed, AreBlocksSealed, IsLevel1Sealed, IsSealed};

use crate::bits::{copy_start, level2_copy};
use crate::blocks::{block_copies, block_size};
use crate::state::DpfsState;
use crate::turns::{Turns, turn_block};
use difi::Difi;
use save_bytes::{Bad, Space};

// The bits of level 1 that are turned: those of blocks of level 2 that have the bit of a touched block.
#[derive(Drop)]
struct TouchedLevel2<'a> {
    bits: u64,
    state: &'a DpfsState,
}

impl Turns for TouchedLevel2<'_> {
    ghost flags = { λ blocks. has_mark blocks.bits blocks.state.now };

    fn is_turned(&self, k: u64) -> bool {
        self.state.has_mark(self.bits, k)
    }
}

// How many bits a block of level 2 has.
fn bits_in(difi: &Difi) -> u64
    requires { difi.now.dpfs2.log ≤ 16 }
    ensures value { result ≡ 8 * 2 ^ difi.now.dpfs2.log }
{
    8 * block_size(difi.dpfs2.log)
}

// How many blocks level 2 has.
fn level2_blocks(difi: &Difi) -> u64
    requires { difi.now.dpfs2.log ≤ 16 }
    ensures { result ≡ blocks_of difi.now.dpfs2 }
{
    difi.dpfs2.size.div_ceil(block_size(difi.dpfs2.log))
}

// Copies a block of level 2 that has the bit of a touched block to its other copy, and turns the bits of touched blocks there.
fn seal_block<S: Space>(
    base: &mut S,
    part_at: u64,
    difi: &Difi,
    state: &DpfsState,
    block: u64,
) -> Result<(), Bad>
    requires tree { HasContents (S.state base.old).shape part_at difi.now state.now.selector }
    requires made { IsMadeForContents difi.now state.now }
    requires touched { HasMark difi.now state.now block }
    ensures sealed { IsTrue (S.state base.old).told → IfDone (result_err result)
        (IsBlockSealed part_at difi.now state.now (S.state base.old).cells block (S.state base.new).cells) }
    ensures writes { Writes S.state S.keeps S.lands (SealsBlock (bytes_of (S.state base.old).cells) part_at difi.now state.now block)
        base.old base.new (result_err result) }
{
    let chosen = match level2_copy(base, part_at, difi, state.selector(), block) {
        Ok(chosen) => chosen,
        Err(bad) => return Err(bad),
    };
    let at = block * block_size(difi.dpfs2.log);
    let copies = block_copies(part_at, &difi.dpfs2, chosen, at);
    let first = at / 4;
    let count = (copies.len / 4).min(state.words() - first);
    turn_block(
        base,
        state,
        copies.from,
        copies.to,
        copies.len,
        first,
        count,
    )
}

// Seals a block of level 2, unless it has no bit of a touched block.
fn seal_touched<S: Space>(
    base: &mut S,
    part_at: u64,
    difi: &Difi,
    state: &DpfsState,
    block: u64,
) -> Result<(), Bad>
    requires tree { HasContents (S.state base.old).shape part_at difi.now state.now.selector }
    requires made { IsMadeForContents difi.now state.now }
    ensures sealed { IsTrue (S.state base.old).told → IfDone (result_err result) (HasMark difi.now state.now block
        → IsBlockSealed part_at difi.now state.now (S.state base.old).cells block (S.state base.new).cells) }
    ensures writes { Writes S.state S.keeps S.lands (SealsBlock (bytes_of (S.state base.old).cells) part_at difi.now state.now block)
        base.old base.new (result_err result) }
{
    if !state.has_mark(bits_in(difi), block) {
        return Ok(());
    }
    seal_block(base, part_at, difi, state, block)
}

// Seals each block of level 2 that has the bit of a touched block.
fn seal_level2<S: Space>(
    base: &mut S,
    part_at: u64,
    difi: &Difi,
    state: &DpfsState,
) -> Result<(), Bad>
    requires tree { HasContents (S.state base.old).shape part_at difi.now state.now.selector }
    requires made { IsMadeForContents difi.now state.now }
    ensures sealed { IsTrue (S.state base.old).told → IfDone (result_err result)
        (AreBlocksSealed part_at difi.now state.now (S.state base.old).cells (blocks_of difi.now.dpfs2) (S.state base.new).cells) }
    ensures writes { Writes S.state S.keeps S.lands (SealsLevel2 (bytes_of (S.state base.old).cells) part_at difi.now state.now)
        base.old base.new (result_err result) }
{
    let mut block = 0;
    while block < level2_blocks(difi) {
        match seal_touched(base, part_at, difi, state, block) {
            Ok(()) => {}
            Err(bad) => return Err(bad),
        }
        block += 1;
    }
    Ok(())
}

// Copies level 1 to its other copy, and turns the bits of the blocks of level 2 that were sealed.
fn seal_level1<S: Space>(
    base: &mut S,
    part_at: u64,
    difi: &Difi,
    state: &DpfsState,
) -> Result<(), Bad>
    requires tree { HasContents (S.state base.old).shape part_at difi.now state.now.selector }
    ensures sealed { IsTrue (S.state base.old).told → IfDone (result_err result)
        (IsLevel1Sealed part_at difi.now state.now (S.state base.old).cells (S.state base.new).cells) }
    ensures writes { Writes S.state S.keeps S.lands (SealsLevel1 part_at difi.now state.now.selector) base.old base.new
        (result_err result) }
{
    let touched = TouchedLevel2 {
        bits: bits_in(difi),
        state,
    };
    let selector = state.selector();
    let from = copy_start(part_at, &difi.dpfs1, selector);
    let to = copy_start(part_at, &difi.dpfs1, 1 - selector);
    let words = level2_blocks(difi).div_ceil(32);
    turn_block(base, &touched, from, to, difi.dpfs1.size, 0, words)
}

/// Seals a view over a base: answers the selector that chooses its bytes.
pub(crate) fn seal_in<S: Space>(
    base: &mut S,
    part_at: u64,
    difi: &Difi,
    state: &DpfsState,
) -> Result<u8, Bad>
    requires tree { HasContents (S.state base.old).shape part_at difi.now state.now.selector }
    requires made { IsMadeForContents difi.now state.now }
    ensures { IsSealed S.state S.keeps S.lands part_at difi.now state.now base.old base.new result }
{
    match seal_level2(base, part_at, difi, state) {
        Ok(()) => {}
        Err(bad) => return Err(bad),
    }
    match seal_level1(base, part_at, difi, state) {
        Ok(()) => Ok(1 - state.selector()),
        Err(bad) => Err(bad),
    }
}
