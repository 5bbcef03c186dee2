//! Which copies the bits of levels 1 and 2 choose.

ghost use Rattle.std.specs.Prelude.{◌≡◌, ℕ, ◌+◌, ◌*◌, ◌/◌, ◌^◌, ◌<◌, ◌≤◌, IsTrue, IfOk};
ghost use Rattle.std.specs.Result.{result_err};
ghost use Rattle.save_bytes.specs.State.{IsInside};
ghost use Rattle.save_bytes.specs.Refusals.{NeverDamaged};
ghost use Rattle.difi.specs.Places.{blocks_of};
ghost use Rattle.dpfs_tree.specs.Picks.{bytes_of, bit_of, pick1, pick2};
ghost use Rattle.save_bytes.specs.Reads.{Reads};
ghost use Rattle.dpfs_tree.specs.View.{HasContents};

use difi::{Difi, LevelPlace};
use save_bytes::{Bad, Space, space_u32};

/// Where a copy of a level begins in the base.
pub(crate) fn copy_start(part_at: u64, level: &LevelPlace, copy: u8) -> u64
    requires fits { part_at + level.now.at + 2 * level.now.size < 2 ^ 64 }
    requires copy { copy < 2 }
    ensures { result ≡ part_at + level.now.at + copy * level.now.size }
{
    let skipped = if copy == 0 { 0 } else { level.size };
    part_at + level.at + skipped
}

// Bit `k` of the words that begin at `from`.
fn bit_at<S: Space>(base: &mut S, from: u64, k: u64) -> Result<u8, Bad>
    requires inside { IsInside (S.state base.old).shape (from + 4 * (k / 32)) 4 }
    requires plain { IsTrue (S.state base.old).shape.plain }
    requires small { from + 4 * (k / 32) < 2 ^ 64 }
    ensures bit { IsTrue (S.state base.old).told
        → IfOk result (λ bit. bit ≡ bit_of (λ x. bytes_of (S.state base.old).cells (from + x)) k) }
    ensures one_of_two { IfOk result (λ bit. bit < 2) }
    ensures plain { NeverDamaged (result_err result) }
    ensures reads { Reads S.state S.keeps S.lands base.old base.new (result_err result) }
{
    let word = match space_u32(base, from + 4 * (k / 32)) {
        Ok(word) => word,
        Err(bad) => return Err(bad),
    };
    let low = (31 - k % 32) as u32;
    Ok(((word >> low) % 2) as u8)
}

/// The copy of a block of level 2 that its bit in the chosen level 1 chooses.
pub(crate) fn level2_copy<S: Space>(
    base: &mut S,
    part_at: u64,
    difi: &Difi,
    selector: u8,
    block: u64,
) -> Result<u8, Bad>
    requires tree { HasContents (S.state base.old).shape part_at difi.now selector }
    requires block { block < blocks_of difi.now.dpfs2 }
    ensures bit { IsTrue (S.state base.old).told
        → IfOk result (λ copy. copy ≡ bit_of (pick1 (bytes_of (S.state base.old).cells) part_at difi.now selector) block) }
    ensures one_of_two { IfOk result (λ copy. copy < 2) }
    ensures plain { NeverDamaged (result_err result) }
    ensures reads { Reads S.state S.keeps S.lands base.old base.new (result_err result) }
{
    let level1 = copy_start(part_at, &difi.dpfs1, selector);
    bit_at(base, level1, block)
}

/// The copy of a block of level 3 that its bit in the chosen level 2 chooses.
pub(crate) fn level3_copy<S: Space>(
    base: &mut S,
    part_at: u64,
    difi: &Difi,
    selector: u8,
    block: u64,
) -> Result<u8, Bad>
    requires tree { HasContents (S.state base.old).shape part_at difi.now selector }
    requires block { block < blocks_of difi.now.dpfs3 }
    ensures bit { IsTrue (S.state base.old).told
        → IfOk result (λ copy. copy ≡ bit_of (pick2 (bytes_of (S.state base.old).cells) part_at difi.now selector) block) }
    ensures one_of_two { IfOk result (λ copy. copy < 2) }
    ensures plain { NeverDamaged (result_err result) }
    ensures reads { Reads S.state S.keeps S.lands base.old base.new (result_err result) }
{
    let word_at = 4 * (block / 32);
    let copy = match level2_copy(base, part_at, difi, selector, word_at >> difi.dpfs2.log) {
        Ok(copy) => copy,
        Err(bad) => return Err(bad),
    };
    let level2 = copy_start(part_at, &difi.dpfs2, copy);
    bit_at(base, level2, block)
}
