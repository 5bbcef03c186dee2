//! Digests of a base's bytes, hashed as they are lent, and the entries that they are compared with.

ghost use Rattle.std.specs.Prelude.{◌≡◌, ℕ, ◌+◌, ◌-◌, ◌≤◌, length, replicate, IsTrue, IfOk, OnOk};
ghost use Rattle.std.specs.Result.{result_err};
ghost use Rattle.sha2.specs.Sha256.{sha256};
ghost use Rattle.save_bytes.specs.CellNumbers.{bytes_in};
ghost use Rattle.save_bytes.specs.State.{IsInside};
ghost use Rattle.save_bytes.specs.Refusals.{NeverDamaged};
ghost use Rattle.save_bytes.specs.Reads.{Reads};
ghost use Rattle.ivfc_tree.specs.Hashing.{Takes};
ghost use Rattle.ivfc_tree.specs.Levels.{HasBlock, padded_block, hash_entry};
ghost use Rattle.ivfc_tree.specs.View.{HasLevels, HasTree};

use crate::levels::{block_size, level_of};
use difi::Difi;
use save_bytes::{Bad, Space, space_copy};
use sha2::{Digest, Sha256};

// Hashes the front of the `most` bytes from `at` on, as the base lends them, and says how many.
fn hash_piece<S: Space>(base: &mut S, hasher: &mut Sha256, at: u64, most: u64) -> Result<u64, Bad>
    requires inside { IsInside (S.state base.old).shape at most }
    requires some { 1 ≤ most }
    requires plain { IsTrue (S.state base.old).shape.plain }
    ensures count { IfOk result (λ n. (1 ≤ n) × (n ≤ most)) }
    ensures hashed { IsTrue (S.state base.old).told
        → IfOk result (λ n. Takes hasher.old hasher.new (bytes_in (S.state base.old).cells at n)) }
    ensures plain { NeverDamaged (result_err result) }
    ensures reads { Reads S.state S.keeps S.lands base.old base.new (result_err result) }
{
    let piece = base.piece(at, most as usize)?;
    hasher.update(piece);
    Ok(piece.len() as u64)
}

// Hashes `len` bytes from `at` on.
fn hash_range<S: Space>(base: &mut S, hasher: &mut Sha256, at: u64, len: u64) -> Result<(), Bad>
    requires inside { IsInside (S.state base.old).shape at len }
    requires plain { IsTrue (S.state base.old).shape.plain }
    ensures hashed { IsTrue (S.state base.old).told
        → OnOk result (Takes hasher.old hasher.new (bytes_in (S.state base.old).cells at len)) }
    ensures plain { NeverDamaged (result_err result) }
    ensures reads { Reads S.state S.keeps S.lands base.old base.new (result_err result) }
{
    let mut done = 0;
    while done < len {
        done += hash_piece(base, hasher, at + done, len - done)?;
    }
    Ok(())
}

// Hashes so many zero bytes.
fn hash_zeros(hasher: &mut Sha256, count: u64)
    ensures { Takes hasher.old hasher.new (replicate count 0) }
{
    let zeros = [0; 512];
    let mut left = count;
    while left > 0 {
        let n = left.min(512);
        hasher.update(&zeros[..n as usize]);
        left -= n;
    }
}

/// The SHA-256 of a block that is filled with zeros to its block size.
pub(crate) fn block_digest<S: Space>(
    base: &mut S,
    difi: &Difi,
    level: u8,
    block: u64,
) -> Result<[u8; 32], Bad>
    requires levels { HasLevels (S.state base.old).shape difi.now }
    requires there { HasBlock difi.now level block }
    ensures digest { IsTrue (S.state base.old).told
        → IfOk result (λ digest. digest ≡ sha256 (padded_block (S.state base.old).cells difi.now level block)) }
    ensures plain { NeverDamaged (result_err result) }
    ensures reads { Reads S.state S.keeps S.lands base.old base.new (result_err result) }
{
    let place = level_of(difi, level);
    let size = block_size(&place);
    let from = block * size;
    let len = size.min(place.size - from);
    let mut hasher = Sha256::new();
    hash_range(base, &mut hasher, place.at + from, len)?;
    hash_zeros(&mut hasher, size - len);
    Ok(hasher.finalize())
}

/// The entry of a block, in the level above or in the master hash.
pub(crate) fn entry_of<S: Space>(
    base: &mut S,
    difi: &Difi,
    master: &[u8],
    level: u8,
    block: u64,
) -> Result<[u8; 32], Bad>
    requires tree { HasTree (S.state base.old).shape difi.now (length master.now) }
    requires there { HasBlock difi.now level block }
    ensures entry { IsTrue (S.state base.old).told
        → IfOk result (λ entry. entry ≡ hash_entry (S.state base.old).cells master.now difi.now level block) }
    ensures plain { NeverDamaged (result_err result) }
    ensures reads { Reads S.state S.keeps S.lands base.old base.new (result_err result) }
{
    let mut entry = [0; 32];
    if level == 1 {
        let start = 32 * block as usize;
        entry.copy_from_slice(&master[start..start + 32]);
    } else {
        space_copy(base, level_of(difi, level - 1).at + 32 * block, &mut entry)?;
    }
    Ok(entry)
}
