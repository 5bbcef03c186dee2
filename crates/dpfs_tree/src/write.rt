//! Writing into the copies that are not chosen.

ghost use Rattle.std.specs.Prelude.{◌≡◌, ℕ, ◌+◌, ◌<◌, ◌≤◌, length, take, IfOk, MatchResult, Some, None};
ghost use Rattle.std.specs.Result.{result_err};
ghost use Rattle.difi.specs.Contents.{view_size};
ghost use Rattle.dpfs_tree.specs.Marks.{run_of, IsMadeForContents};
ghost use Rattle.dpfs_tree.specs.View.{HasContents};
ghost use Rattle.dpfs_tree.specs.Puts.{PutsInto};

use crate::bits::level3_copy;
use crate::blocks::block_copies;
use crate::copy::{fill_block, put_bytes};
use crate::places::run_at;
use crate::state::DpfsState;
use difi::Difi;
use save_bytes::{Bad, Space};

// Puts bytes into one block of level 3.
fn put_block<S: Space>(
    base: &mut S,
    part_at: u64,
    difi: &Difi,
    state: &mut DpfsState,
    at: u64,
    bytes: &[u8],
) -> Result<(), Bad>
    requires tree { HasContents (S.state base.old).shape part_at difi.now state.old.selector }
    requires made { IsMadeForContents difi.now state.old }
    requires below { at < difi.now.dpfs3.size }
    requires some { 1 ≤ length bytes.now }
    requires inside { length bytes.now ≤ run_of difi.now at }
    ensures { PutsInto S.state S.keeps S.lands part_at difi.now state.old state.new at bytes.now base.old base.new (result_err result) }
{
    let block = at >> difi.dpfs3.log;
    let chosen = match level3_copy(base, part_at, difi, state.selector(), block) {
        Ok(chosen) => chosen,
        Err(bad) => return Err(bad),
    };
    let copies = block_copies(part_at, &difi.dpfs3, chosen, at);
    let marked = state.touched(block);
    match fill_block(
        base,
        copies.from,
        copies.to,
        copies.len,
        copies.skipped,
        bytes,
        marked,
    ) {
        Ok(()) => {}
        Err(bad) => return Err(bad),
    }
    state.mark(block);
    Ok(())
}

/// Puts bytes into one block of level 3, or into external level four.
pub(crate) fn put_piece<S: Space>(
    base: &mut S,
    part_at: u64,
    difi: &Difi,
    state: &mut DpfsState,
    at: u64,
    bytes: &[u8],
) -> Result<(), Bad>
    requires tree { HasContents (S.state base.old).shape part_at difi.now state.old.selector }
    requires made { IsMadeForContents difi.now state.old }
    requires view { at < view_size difi.now }
    requires some { 1 ≤ length bytes.now }
    requires inside { length bytes.now ≤ run_of difi.now at }
    ensures { PutsInto S.state S.keeps S.lands part_at difi.now state.old state.new at bytes.now base.old base.new (result_err result) }
{
    if at >= difi.dpfs3.size {
        return put_bytes(
            base,
            part_at + difi.external_at + (at - difi.dpfs3.size),
            bytes,
        );
    }
    put_block(base, part_at, difi, state, at, bytes)
}

// Puts the front of some bytes at `at`, as many as lie in one block or behind level 3, and says how many.
fn put_run<S: Space>(
    base: &mut S,
    part_at: u64,
    difi: &Difi,
    state: &mut DpfsState,
    at: u64,
    bytes: &[u8],
) -> Result<usize, Bad>
    requires tree { HasContents (S.state base.old).shape part_at difi.now state.old.selector }
    requires made { IsMadeForContents difi.now state.old }
    requires view { at < view_size difi.now }
    requires some { 1 ≤ length bytes.now }
    ensures count { IfOk result (λ n. (1 ≤ n) × (n ≤ length bytes.now)) }
    ensures into { MatchResult result
        (λ n. PutsInto S.state S.keeps S.lands part_at difi.now state.old state.new at (take n bytes.now) base.old base.new None)
        (λ bad. PutsInto S.state S.keeps S.lands part_at difi.now state.old state.new at bytes.now base.old base.new (Some bad)) }
{
    let run = run_at(difi, at).min(bytes.len() as u64) as usize;
    match put_piece(base, part_at, difi, state, at, &bytes[..run]) {
        Ok(()) => Ok(run),
        Err(bad) => Err(bad),
    }
}

/// Puts bytes into a view over a base.
pub(crate) fn put_in<S: Space>(
    base: &mut S,
    part_at: u64,
    difi: &Difi,
    state: &mut DpfsState,
    at: u64,
    bytes: &[u8],
) -> Result<(), Bad>
    requires tree { HasContents (S.state base.old).shape part_at difi.now state.old.selector }
    requires made { IsMadeForContents difi.now state.old }
    requires inside { at + length bytes.now ≤ view_size difi.now }
    ensures { PutsInto S.state S.keeps S.lands part_at difi.now state.old state.new at bytes.now base.old base.new (result_err result) }
{
    let mut done = 0;
    while done < bytes.len() {
        match put_run(base, part_at, difi, state, at + done as u64, &bytes[done..]) {
            Ok(n) => done += n,
            Err(bad) => return Err(bad),
        }
    }
    Ok(())
}
