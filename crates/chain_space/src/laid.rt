//! A space, and behind it the bytes of some of its blocks once more.

ghost use Rattle.std.specs.Prelude.{◌≡◌, ℕ, ◌+◌, ◌*◌, ◌<◌, ◌≤◌, IsTrue, length, take, IfOk, MatchResult};
ghost use Rattle.std.specs.Prelude.{Some, None, refl};
ghost use Rattle.std.specs.Result.{result_err};
ghost use Rattle.std.proofs.Common.{◌∙◌, sym};
ghost use Rattle.std.proofs.lemmas.Bool.{false≢true};
ghost use Rattle.save_bytes.specs.Cells.{IsUnspoilt};
ghost use Rattle.save_bytes.specs.State.{State, IsInside, IsWritable, CanPut};
ghost use Rattle.save_bytes.specs.Answers.{IsReady};
ghost use Rattle.save_bytes.specs.Refusals.{NeverDamaged};
ghost use Rattle.save_bytes.specs.Puts.{Puts};
ghost use Rattle.save_bytes.specs.Reads.{Reads};
ghost use Rattle.save_bytes.specs.Spots.{MovesOnly};
ghost use Rattle.chain_space.specs.Laid.{extra_of, laid_place, laid_state, LaidLands, LieIn, CanLay, IsLaidRun};
ghost use Rattle.chain_space.specs.LaidLaws.{laid_size_fits, laid_shape-same};
ghost use Rattle.chain_space.specs.LaidHeld.{extra_in, laid, IsBlocksOver};

use save_bytes::{Bad, Space};

/// The bytes of a space, and behind them the bytes of some of its blocks, in the order of a list. Each byte of these
/// has two places, so what is put at one shows at the other. Nothing is read to find a place: the space tells its cells
/// where its base does, and what reads it has read its base.
#[derive(Drop)]
pub struct BlocksSpace<'a, S: Space> {
    base: &'a mut S,
    region_at: u64,
    block: u32,
    blocks: &'a [u32],
}

impl<'a, S: Space> BlocksSpace<'a, S> {
    /// The base, and behind it its blocks with the numbers `blocks`, each of `block` bytes. Block 0 lies at
    /// `region_at`.
    pub fn new(base: &'a mut S, region_at: u64, block: u32, blocks: &'a [u32]) -> BlocksSpace<'a, S>
        requires { CanLay (extra_of region_at block blocks.now) (S.state base.old).shape }
        ensures holds { IsBlocksOver result base.entry (extra_of region_at block blocks.now) }
        ensures sound { IsTrue (laid S.state result).shape.sound }
    {
        BlocksSpace {
            base,
            region_at,
            block,
            blocks,
        }
    }
}

// Where the bytes from `at` on, a place behind a base of `size` places, lie in it, and how many lie there in one piece,
// up to `most`.
fn behind_run(
    region_at: u64,
    block: u64,
    blocks: &[u32],
    size: u64,
    at: u64,
    most: u64,
) -> (u64, u64)
    requires lie { LieIn (extra_of region_at block blocks.now) size }
    requires behind { size ≤ at }
    requires inside { at < size + length blocks.now * block }
    requires some { 1 ≤ most }
    ensures { IsLaidRun (extra_of region_at block blocks.now) size at most result }
{
    let number = u64::from(blocks[((at - size) / block) as usize]);
    let skipped = (at - size) % block;
    (
        region_at + number * block + skipped,
        most.min(block - skipped),
    )
}

// Where the bytes from `at` on lie in the base, and how many lie there in one piece, up to `most`.
fn laid_run<S: Space>(
    base: &S,
    region_at: u64,
    block: u32,
    blocks: &[u32],
    at: u64,
    most: u64,
) -> (u64, u64)
    requires inside { IsInside (laid_state (extra_of region_at block blocks.now) (S.state base.now)).shape at 1 }
    requires some { 1 ≤ most }
    ensures { IsLaidRun (extra_of region_at block blocks.now) (S.state base.now).shape.size at most result }
{
    let size = base.len();
    if at < size {
        return (at, most.min(size - at));
    }
    behind_run(region_at, u64::from(block), blocks, size, at, most)
}

// Whether none of `n` places from `at` on is spoilt.
fn ready_laid<S: Space>(
    base: &mut S,
    region_at: u64,
    block: u32,
    blocks: &[u32],
    at: u64,
    n: u64,
) -> Result<(), Bad>
    requires { IsInside (laid_state (extra_of region_at block blocks.now) (S.state base.old)).shape at n }
    ensures ready { let extra = extra_of region_at block blocks.now in
        IsReady (laid_state extra (S.state base.old)) at n (result_err result) }
    ensures reads { Reads S.state S.keeps S.lands base.old base.new (result_err result) }
{
    let mut done = 0;
    while done < n {
        let (place, run) = laid_run(base, region_at, block, blocks, at + done, n - done);
        match base.ready(place, run) {
            Ok(()) => {}
            Err(bad) => return Err(bad),
        }
        done += run;
    }
    Ok(())
}

// Puts the front of some bytes at `at`, as many as lie there in one piece of the base, and says how many.
fn put_laid_run<S: Space>(
    base: &mut S,
    region_at: u64,
    block: u32,
    blocks: &[u32],
    at: u64,
    bytes: &[u8],
) -> Result<usize, Bad>
    requires writable { let extra = extra_of region_at block blocks.now in
        IsWritable (laid_state extra (S.state base.old)).shape at (length bytes.now) }
    requires some { 1 ≤ length bytes.now }
    ensures count { IfOk result (λ n. (1 ≤ n) × (n ≤ length bytes.now)) }
    ensures never { let old = laid_state (extra_of region_at block blocks.now) (S.state base.old) in
        CanPut old at (length bytes.now) → ((k : ℕ) → k < length bytes.now → IsUnspoilt (old.cells (at + k)))
        → NeverDamaged (result_err result) }
    ensures plain { IsTrue (S.state base.old).shape.plain → NeverDamaged (result_err result) }
    ensures puts { let extra = extra_of region_at block blocks.now in
        let old = laid_state extra (S.state base.old) in let new = laid_state extra (S.state base.new) in
        MatchResult result (λ n. Puts old at (take n bytes.now) new None)
        (λ bad. Puts old at bytes.now new (Some bad)) }
    ensures moves { let extra = extra_of region_at block blocks.now in let was = laid_state extra (S.state base.old) in
        let lands = LaidLands S.state S.lands extra in
        MatchResult result (λ n. MovesOnly S.keeps lands was base.old at n base.new None)
        (λ bad. MovesOnly S.keeps lands was base.old at (length bytes.now) base.new (Some bad)) }
{
    let (place, run) = laid_run(base, region_at, block, blocks, at, bytes.len() as u64);
    let run = run as usize;
    match base.put(place, &bytes[..run]) {
        Ok(()) => Ok(run),
        Err(bad) => Err(bad),
    }
}

// Puts bytes at `at`. It is refused as `ready_laid` is, and then changes nothing.
fn put_laid<S: Space>(
    base: &mut S,
    region_at: u64,
    block: u32,
    blocks: &[u32],
    at: u64,
    bytes: &[u8],
) -> Result<(), Bad>
    requires { let extra = extra_of region_at block blocks.now in
        IsWritable (laid_state extra (S.state base.old)).shape at (length bytes.now) }
    ensures ready { let old = laid_state (extra_of region_at block blocks.now) (S.state base.old) in
        CanPut old at (length bytes.now) → IsReady old at (length bytes.now) (result_err result) }
    ensures plain { IsTrue (S.state base.old).shape.plain → NeverDamaged (result_err result) }
    ensures puts { let extra = extra_of region_at block blocks.now in
        Puts (laid_state extra (S.state base.old)) at bytes.now (laid_state extra (S.state base.new))
        (result_err result) }
    ensures moves { let extra = extra_of region_at block blocks.now in
        MovesOnly S.keeps (LaidLands S.state S.lands extra) (laid_state extra (S.state base.old)) base.old at
        (length bytes.now) base.new (result_err result) }
{
    match ready_laid(base, region_at, block, blocks, at, bytes.len() as u64) {
        Ok(()) => {}
        Err(bad) => return Err(bad),
    }
    let mut done = 0;
    while done < bytes.len() {
        match put_laid_run(
            base,
            region_at,
            block,
            blocks,
            at + done as u64,
            &bytes[done..],
        ) {
            Ok(n) => done += n,
            Err(bad) => return Err(bad),
        }
    }
    Ok(())
}

impl<S: Space> Space for BlocksSpace<'_, S> {
    ghost state = { laid S.state };

    ghost keeps = { λ spot s t. (t.base.ghost_name ≡ s.base.ghost_name) × (extra_in t ≡ extra_in s)
        × S.keeps spot s.base.now t.base.now };

    ghost lands = { λ v. LaidLands S.state S.lands (extra_in v) v.base.now };

    ghost size_fits = { λ v. laid_size_fits (extra_in v) (S.state v.base.now).shape };

    ghost plain_bytes = { λ v plain told x. S.plain_bytes v.base.now plain told
        (laid_place (extra_in v) (S.state v.base.now).shape.size x) };

    ghost no_twins = { λ v single. absurd (false≢true (sym single)) };

    ghost keeps_same = { λ spot v. (refl, refl, S.keeps_same spot v.base.now) };

    ghost keeps_join = { λ spot s t u h k.
        (k.0 ∙ h.0, k.1 ∙ h.1, S.keeps_join spot s.base.now t.base.now u.base.now h.2 k.2) };

    ghost keeps_hold = { λ s t h. (h.0, h.1, S.keeps_hold s.base.now t.base.now h.2) };

    ghost keeps_shape = { λ s t h. laid_shape-same (extra_in s) (extra_in t) (S.state s.base.now) (S.state t.base.now)
        h.1 (S.keeps_shape s.base.now t.base.now h.2) };

    ghost keeps_cells = { λ s t sound single told still kept. absurd (false≢true (sym single)) };

    ghost keeps_lands = { λ s t sound single. absurd (false≢true (sym single)) };

    fn len(&self) -> u64 {
        let extra = self.blocks.len() as u64;
        self.base
            .len()
            .saturating_add(extra.saturating_mul(u64::from(self.block)))
    }

    fn piece(&mut self, at: u64, most: usize) -> Result<&[u8], Bad> {
        let (place, run) = laid_run(
            &*self.base,
            self.region_at,
            self.block,
            self.blocks,
            at,
            most as u64,
        );
        let base = &mut *self.base;
        base.piece(place, run as usize)
    }

    fn ready(&mut self, at: u64, n: u64) -> Result<(), Bad> {
        let base = &mut *self.base;
        ready_laid(base, self.region_at, self.block, self.blocks, at, n)
    }

    fn put(&mut self, at: u64, bytes: &[u8]) -> Result<(), Bad> {
        let base = &mut *self.base;
        put_laid(base, self.region_at, self.block, self.blocks, at, bytes)
    }
}
