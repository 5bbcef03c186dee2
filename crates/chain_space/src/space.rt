//! A space behind which the bytes of a chain's blocks lie once more.

ghost use Rattle.std.specs.Prelude.{◌≡◌, ℕ, ◌+◌, ◌-◌, ◌*◌, ◌^◌, ◌<◌, ◌≤◌, IsTrue, IsFalse, List, length, take};
ghost use Rattle.std.specs.Prelude.{IfOk, IfSome, IsSomeAnd, MatchResult, Some, None};
ghost use Rattle.std.specs.Result.{result_err};
ghost use Rattle.save_bytes.specs.Cells.{IsUnspoilt};
ghost use Rattle.save_bytes.specs.State.{IsInside, IsWritable, CanPut};
ghost use Rattle.save_bytes.specs.Answers.{IsReady};
ghost use Rattle.save_bytes.specs.Refusals.{NeverDamaged};
ghost use Rattle.save_bytes.specs.Puts.{Puts};
ghost use Rattle.save_bytes.specs.Reads.{Reads};
ghost use Rattle.save_bytes.specs.Spots.{MovesOnly};
ghost use Rattle.chain_nodes.specs.Runs.{IsRunIn};
ghost use Rattle.chain_space.specs.Shown.{chain_list, is_shown, place_of, can_show, shown_state, ShownLands};
ghost use Rattle.chain_space.specs.Shown.{IsLocatedRun};
ghost use Rattle.chain_space.specs.ShownLaws.{with_blocks};

use chain_nodes::{ChainInfo, Lead, Run, list_len, seek};
use save_bytes::{Bad, Space};

/// The blocks of a chain that are shown behind a space: how many of them, of the chain that begins with an entry.
#[derive(Clone, Copy)]
pub(crate) struct Shown {
    pub(crate) info: ChainInfo,
    pub(crate) first: u32,
    pub(crate) blocks: u32,
}

/// How many bytes are shown behind a space.
pub(crate) fn shown_len(shown: Shown) -> u64
    ensures { result ≡ shown.blocks * shown.info.block }
{
    u64::from(shown.blocks) * u64::from(shown.info.block)
}

// The run that has a block of the chain, or none where the chain is not as it should be.
fn block_run<S: Space>(base: &mut S, shown: Shown, pos: u32) -> Result<Option<Run>, Bad>
    requires sound { IsTrue (can_show (S.state base.old).shape shown.info shown.blocks) }
    requires inside { pos < shown.blocks }
    ensures some { IfOk result (λ found. IfSome found (λ run. 1 ≤ run.len)) }
    ensures inside { IfOk result (λ found. IfSome found (λ run. run.block + run.len ≤ shown.info.count)) }
    ensures run { IsTrue (shown_state shown.info shown.first shown.blocks (S.state base.old)).told
        → IfOk result (λ found. IsSomeAnd found (IsRunIn (chain_list (S.state base.old) shown.info shown.first) pos)) }
    ensures plain { NeverDamaged (result_err result) }
    ensures reads { Reads S.state S.keeps S.lands base.old base.new (result_err result) }
{
    if shown.first > shown.info.count {
        return Ok(None);
    }
    match seek(base, shown.info, Lead::Opens, shown.first, pos) {
        Ok(found) => Ok(found),
        Err(fault) if fault.is_disk() => Err(Bad::Disk),
        Err(_) => Ok(None),
    }
}

// Where the bytes behind a space from `at` on lie in it, and how many lie there side by side.
fn locate_behind<S: Space>(base: &mut S, shown: Shown, at: u64) -> Result<(u64, u64), Bad>
    requires sound { IsTrue (can_show (S.state base.old).shape shown.info shown.blocks) }
    requires inside { at < shown.blocks * shown.info.block }
    ensures some { IfOk result (λ run. 1 ≤ run.1) }
    ensures in_base { IfOk result (λ run. run.0 + run.1 ≤ (S.state base.old).shape.size) }
    ensures places { let size = (S.state base.old).shape.size in
        IsTrue (shown_state shown.info shown.first shown.blocks (S.state base.old)).told
        → IfOk result (λ run. (k : ℕ) → k < run.1
        → place_of (S.state base.old) shown.info shown.first (size + at + k) ≡ run.0 + k) }
    ensures plain { NeverDamaged (result_err result) }
    ensures reads { Reads S.state S.keeps S.lands base.old base.new (result_err result) }
{
    let block = u64::from(shown.info.block);
    let skipped = at % block;
    match block_run(base, shown, (at / block) as u32) {
        Ok(Some(run)) => {
            let place = shown.info.region_at + u64::from(run.block) * block + skipped;
            Ok((place, u64::from(run.len) * block - skipped))
        }
        Ok(None) => Ok((shown.info.table_at, 1)),
        Err(bad) => Err(bad),
    }
}

/// Where the bytes from `at` on lie in the base, and how many lie there in one piece, up to `most`.
pub(crate) fn locate<S: Space>(
    base: &mut S,
    shown: Shown,
    at: u64,
    most: u64,
) -> Result<(u64, u64), Bad>
    requires inside { IsInside (shown_state shown.info shown.first shown.blocks (S.state base.old)).shape at 1 }
    requires some { 1 ≤ most }
    ensures located { IsLocatedRun (S.state base.old) shown.info shown.first shown.blocks at most result }
    ensures reads { Reads S.state S.keeps S.lands base.old base.new (result_err result) }
{
    let size = base.len();
    if at < size {
        return Ok((at, most.min(size - at)));
    }
    let (place, run) = match locate_behind(base, shown, at - size) {
        Ok(run) => run,
        Err(bad) => return Err(bad),
    };
    let rest = shown_len(shown) - (at - size);
    Ok((place, run.min(most).min(rest)))
}

/// Whether none of `n` places from `at` on is spoilt.
pub(crate) fn ready_runs<S: Space>(base: &mut S, shown: Shown, at: u64, n: u64) -> Result<(), Bad>
    requires { IsInside (shown_state shown.info shown.first shown.blocks (S.state base.old)).shape at n }
    ensures ready { IsReady (shown_state shown.info shown.first shown.blocks (S.state base.old)) at n
        (result_err result) }
    ensures reads { Reads S.state S.keeps S.lands base.old base.new (result_err result) }
{
    let mut done = 0;
    while done < n {
        let (place, run) = match locate(base, shown, at + done, n - done) {
            Ok(run) => run,
            Err(bad) => return Err(bad),
        };
        match base.ready(place, run) {
            Ok(()) => {}
            Err(bad) => return Err(bad),
        }
        done += run;
    }
    Ok(())
}

/// Whether the chain is as it should be, and has enough blocks.
fn is_good<S: Space>(base: &mut S, shown: Shown) -> Result<bool, Bad>
    requires { IsTrue (can_show (S.state base.old).shape shown.info shown.blocks) }
    ensures good { IsTrue (S.state base.old).told
        → IfOk result (λ good. IsTrue good → IsTrue (is_shown (S.state base.old) shown.info shown.first shown.blocks)) }
    ensures told { IsTrue (shown_state shown.info shown.first shown.blocks (S.state base.old)).told
        → IfOk result (λ good. IsTrue good) }
    ensures plain { NeverDamaged (result_err result) }
    ensures reads { Reads S.state S.keeps S.lands base.old base.new (result_err result) }
{
    if shown.first > shown.info.count {
        return Ok(false);
    }
    match list_len(base, shown.info, Lead::Opens, shown.first) {
        Ok(len) => Ok(shown.blocks <= len),
        Err(fault) if fault.is_disk() => Err(Bad::Disk),
        Err(_) => Ok(false),
    }
}

// Puts the front of some bytes at `at`, as many as lie there in one piece of the base, and says how many.
fn put_run<S: Space>(base: &mut S, shown: Shown, at: u64, bytes: &[u8]) -> Result<usize, Bad>
    requires writable { IsWritable (with_blocks shown (S.state base.old)).shape at (length bytes.now) }
    requires some { 1 ≤ length bytes.now }
    ensures count { IfOk result (λ n. (1 ≤ n) × (n ≤ length bytes.now)) }
    ensures never { let old = with_blocks shown (S.state base.old) in CanPut old at (length bytes.now)
        → ((k : ℕ) → k < length bytes.now → IsUnspoilt (old.cells (at + k))) → NeverDamaged (result_err result) }
    ensures plain { IsTrue (S.state base.old).shape.plain → NeverDamaged (result_err result) }
    ensures puts { let old = with_blocks shown (S.state base.old) in let new = with_blocks shown (S.state base.new) in
        MatchResult result (λ n. Puts old at (take n bytes.now) new None)
        (λ bad. Puts old at bytes.now new (Some bad)) }
    ensures moves { let was = with_blocks shown (S.state base.old) in
        let lands = ShownLands S.state S.lands shown.info shown.first in
        MatchResult result (λ n. MovesOnly S.keeps lands was base.old at n base.new None)
        (λ bad. MovesOnly S.keeps lands was base.old at (length bytes.now) base.new (Some bad)) }
{
    let (place, run) = match locate(base, shown, at, bytes.len() as u64) {
        Ok(run) => run,
        Err(bad) => return Err(bad),
    };
    let run = run as usize;
    match base.put(place, &bytes[..run]) {
        Ok(()) => Ok(run),
        Err(bad) => Err(bad),
    }
}

/// Puts bytes at `at`. It is refused as `ready_runs` is, and then changes nothing. A chain that is not as it should be
/// gets no bytes.
pub(crate) fn put_shown<S: Space>(
    base: &mut S,
    shown: Shown,
    at: u64,
    bytes: &[u8],
) -> Result<(), Bad>
    requires { IsWritable (with_blocks shown (S.state base.old)).shape at (length bytes.now) }
    ensures ready { let old = with_blocks shown (S.state base.old) in
        CanPut old at (length bytes.now) → IsReady old at (length bytes.now) (result_err result) }
    ensures plain { IsTrue (S.state base.old).shape.plain → NeverDamaged (result_err result) }
    ensures puts { Puts (with_blocks shown (S.state base.old)) at bytes.now (with_blocks shown (S.state base.new))
        (result_err result) }
    ensures moves { MovesOnly S.keeps (ShownLands S.state S.lands shown.info shown.first)
        (with_blocks shown (S.state base.old)) base.old at (length bytes.now) base.new (result_err result) }
    ensures broken { IsTrue (S.state base.old).told
        → IsFalse (is_shown (S.state base.old) shown.info shown.first shown.blocks)
        → Reads S.state S.keeps S.lands base.old base.new (result_err result) }
{
    match is_good(base, shown) {
        Ok(true) => {}
        Ok(false) => return Ok(()),
        Err(bad) => return Err(bad),
    }
    match ready_runs(base, shown, at, bytes.len() as u64) {
        Ok(()) => {}
        Err(bad) => return Err(bad),
    }
    let mut done = 0;
    while done < bytes.len() {
        match put_run(base, shown, at + done as u64, &bytes[done..]) {
            Ok(n) => done += n,
            Err(bad) => return Err(bad),
        }
    }
    Ok(())
}
