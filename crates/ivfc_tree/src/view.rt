//! A view through the hash tree.

ghost use Rattle.std.specs.Prelude.{refl, ◌≡◌, ℕ, ◌/◌, ◌<◌, ◌≤◌, length, replicate, IsTrue, IfOk, []};
ghost use Rattle.std.specs.Borrow.{sem};
ghost use Rattle.std.specs.Io.BufRead.{Rests};
ghost use Rattle.std.specs.Result.{result_err};
ghost use Rattle.save_bytes.specs.State.{IsInside, IsWritable, CanPut};
ghost use Rattle.save_bytes.specs.Refusals.{NeverDamaged};
ghost use Rattle.save_bytes.specs.Answers.{IsPiece, IsReady, IsClearReady};
ghost use Rattle.save_bytes.specs.Cells.{IsClearable};
ghost use Rattle.ivfc_tree.specs.PutViews.{KeepsOrigins};
ghost use Rattle.ivfc_tree.specs.FloorLaws.{view_ground, view_blocks, view_alike};
ghost use Rattle.save_bytes.specs.Stays.{SameSpace};
ghost use Rattle.save_bytes.specs.Puts.{Puts};
ghost use Rattle.save_bytes.specs.Spots.{MovesOnly};
ghost use Rattle.save_bytes.proofs.PutLemmas.{AreUnspoilt};
ghost use Rattle.std.proofs.lemmas.Bool.{false≢true};
ghost use Rattle.ivfc_tree.specs.KeepLaws.{shown_fits, HashKeeps-same, HashKeeps-join, HashKeeps-hold};
ghost use Rattle.ivfc_tree.specs.KeepLaws.{HashKeeps-shape, HashKeeps-cells, HashKeeps-lands};
ghost use Rattle.save_bytes.specs.Reads.{Reads};
ghost use Rattle.difi.specs.Places.{block_size};
ghost use Rattle.ivfc_tree.specs.Levels.{HasBlock};
ghost use Rattle.ivfc_tree.specs.Paths.{block_state};
ghost use Rattle.ivfc_tree.specs.View.{CanViewHashes, IsVerified, IsReadyRun, status_of, rest_of};
ghost use Rattle.ivfc_tree.specs.Held.{shown, IsHashViewOf, LooksUp, HashKeeps, hash_lands};
ghost use Rattle.ivfc_tree.specs.SealViews.{SealsView};
ghost use Rattle.ivfc_tree.specs.contracts.view.IvfcView.{the_row};
ghost use mir.Syntax.{named};

use crate::clear::clear_in;
use crate::levels::{block_size, level_of, parent_of};
use crate::path::{BlockState, block_state};
use crate::put::put_in;
use crate::seal::seal_in;
use crate::state::IvfcState;
use difi::Difi;
use save_bytes::{Bad, Floor, Space};

/// Whether a block's path holds.
#[derive(Clone, Copy, Debug, PartialEq, Eq)]
pub enum Status {
    /// Each hash from the block up to the master hash holds.
    Good,
    /// The topmost hash that fails is one of a block that was never written.
    Blank,
    /// The topmost hash that fails is another.
    Bad,
}

/// The bytes of level four, each lent only where its block has a hash path up to the master hash, or was put or
/// cleared in the present transaction.
#[derive(Drop)]
pub struct IvfcView<'a, S: Space> {
    base: &'a mut S,
    part: u8,
    difi: &'a Difi,
    master: &'a mut [u8],
    state: &'a mut IvfcState,
}

impl<'a, S: Space> IvfcView<'a, S> {
    /// The view of a part over the contents of its double-copy tree.
    pub fn new(
        base: &'a mut S,
        part: u8,
        difi: &'a Difi,
        master: &'a mut [u8],
        state: &'a mut IvfcState,
    ) -> IvfcView<'a, S>
        requires { CanViewHashes (S.state base.old).shape difi.now (length master.old) state.old }
        ensures holds { IsHashViewOf result base.entry part difi.now master.entry state.entry }
        ensures sound { IsTrue (shown S.state result).shape.sound }
    {
        IvfcView {
            base,
            part,
            difi,
            master,
            state,
        }
    }

    // What the path of a block comes to.
    fn found(&mut self, level: u8, block: u64) -> Result<BlockState, Bad>
        requires sound { IsTrue (shown S.state self.old).shape.sound }
        requires there { HasBlock self.old.difi.now level block }
        ensures found { IsTrue (shown S.state self.old).told → IfOk result (λ found. found
            ≡ block_state (S.state self.old.base.now).cells self.old.master.now self.old.difi.now self.old.state.now
            level block) }
        ensures plain { NeverDamaged (result_err result) }
        ensures reads { Reads (shown S.state) (HashKeeps S.keeps) (hash_lands S.lands) self.old self.new
            (result_err result) }
        ensures base { Reads S.state S.keeps S.lands self.old.base.now self.new.base.now (result_err result) }
        ensures looks { LooksUp level block self.old self.new (result_err result) }
    {
        let base = &mut *self.base;
        let master = &mut *self.master;
        let state = &mut *self.state;
        block_state(base, self.difi, master, state, level, block)
    }

    /// Tries the hash path of the byte at `at`, and answers how many bytes from there on are good by it: at least 1
    /// and at most `most`. `Damaged` comes exactly where the byte has no hash path, and names the topmost block that
    /// fails.
    pub fn verify(&mut self, at: u64, most: usize) -> Result<usize, Bad>
        requires inside { IsInside (shown S.state self.old).shape at 1 }
        requires some { 1 ≤ most }
        ensures verified { IsVerified (shown S.state self.old) at most result }
        ensures reads { Reads (shown S.state) (HashKeeps S.keeps) (hash_lands S.lands) self.old self.new
            (result_err result) }
        ensures base { Reads S.state S.keeps S.lands self.old.base.now self.new.base.now (result_err result) }
        ensures looks { LooksUp 4 (at / block_size self.old.difi.now.ivfc4) self.old self.new (result_err result) }
    {
        let block = at / block_size(&self.difi.ivfc4);
        let rest = rest_of_block(self.difi, at).min(most as u64) as usize;
        let part = self.part;
        let found = match self.found(4, block) {
            Ok(found) => found,
            Err(bad) => return Err(bad),
        };
        match found {
            BlockState::Good => Ok(rest),
            BlockState::Blank { level, block } | BlockState::Bad { level, block } => {
                Err(Bad::Damaged { part, level, block })
            }
        }
    }

    // Clears the block of `at`, for whose sake no block is looked at: none above it should be spoilt.
    fn clear_block(&mut self, at: u64) -> Result<(), Bad>
        requires { IsInside (shown S.state self.old).shape at 1 }
        ensures plain { NeverDamaged (result_err result) }
        ensures space { SameSpace ⊥ (shown S.state self.old) (shown S.state self.new) (result_err result) }
        ensures puts { let block = (shown S.state self.old).shape in IsClearable ((shown S.state self.old).cells at)
            → Puts (shown S.state self.old) (block.block_start at) (replicate (block.block_len at) 0)
            (shown S.state self.new) (result_err result) }
        ensures came { IsClearable ((shown S.state self.old).cells at)
            → KeepsOrigins S.state self.old self.new (result_err result) }
        ensures master { self.new.master.now ≡ self.old.master.now }
        ensures moves { let block = (shown S.state self.old).shape in
            MovesOnly (HashKeeps S.keeps) (hash_lands S.lands) (shown S.state self.old) self.old
            (block.block_start at) (block.block_len at) self.new (result_err result) }
    {
        let block = at / block_size(&self.difi.ivfc4);
        let base = &mut *self.base;
        let master = &mut *self.master;
        let state = &mut *self.state;
        clear_in(base, self.difi, master, state, block)
    }

    // How many bytes from `at` on, up to `most`, lie in a block that may be written.
    fn ready_run(&mut self, at: u64, most: u64) -> Result<u64, Bad>
        requires inside { IsInside (shown S.state self.old).shape at 1 }
        requires some { 1 ≤ most }
        ensures ready { IsReadyRun (shown S.state self.old) at most result }
        ensures reads { Reads (shown S.state) (HashKeeps S.keeps) (hash_lands S.lands) self.old self.new
            (result_err result) }
    {
        let block = at / block_size(&self.difi.ivfc4);
        let rest = rest_of_block(self.difi, at).min(most);
        let found = match self.found(4, block) {
            Ok(found) => found,
            Err(bad) => return Err(bad),
        };
        match found {
            BlockState::Bad { level, block } => Err(Bad::Damaged {
                part: self.part,
                level,
                block,
            }),
            _ => Ok(rest),
        }
    }

    // Puts bytes, for whose sake no block is looked at that they meet: none of them should be spoilt.
    fn put_ready(&mut self, at: u64, bytes: &[u8]) -> Result<(), Bad>
        requires { IsInside (shown S.state self.old).shape at (length bytes.now) }
        ensures plain { NeverDamaged (result_err result) }
        ensures space { SameSpace ⊥ (shown S.state self.old) (shown S.state self.new) (result_err result) }
        ensures puts { AreUnspoilt (shown S.state self.old) at (length bytes.now)
            → Puts (shown S.state self.old) at bytes.now (shown S.state self.new) (result_err result) }
        ensures came { AreUnspoilt (shown S.state self.old) at (length bytes.now)
            → KeepsOrigins S.state self.old self.new (result_err result) }
        ensures master { self.new.master.now ≡ self.old.master.now }
        ensures moves { MovesOnly (HashKeeps S.keeps) (hash_lands S.lands) (shown S.state self.old)
            self.old at (length bytes.now)
            self.new (result_err result) }
    {
        let base = &mut *self.base;
        let master = &mut *self.master;
        let state = &mut *self.state;
        put_in(base, self.difi, master, state, at, bytes)
    }

    /// Lends 1 to `most` bytes from `at` on, as they lie in the base, where they have a hash path. `Damaged` comes
    /// exactly where the byte at `at` has none, and names the topmost block that fails.
    pub fn lend(&mut self, at: u64, most: usize) -> Result<&[u8], Bad>
        requires inside { IsInside (shown S.state self.old).shape at 1 }
        requires some { 1 ≤ most }
        ensures piece { IsPiece (shown S.state self.old) at most result }
        ensures* after { sem 𝓛 (Rests (the_row (record { mir = named 0; lft = [] }) S.row) self.entry (λ new.
            Reads (shown S.state) (HashKeeps S.keeps) (hash_lands S.lands) self.old new (result_err result)
            × Reads S.state S.keeps S.lands self.old.base.now new.base.now (result_err result)
            × LooksUp 4 (at / block_size self.old.difi.now.ivfc4) self.old new (result_err result))) }
    {
        let place = level_of(self.difi, 4).at + at;
        let most = match self.verify(at, most) {
            Ok(most) => most,
            Err(bad) => return Err(bad),
        };
        let base = &mut *self.base;
        base.piece(place, most)
    }

    /// Whether the path of a block of one of the four levels holds. It is refused only where the disk below failed.
    pub fn status(&mut self, level: u8, block: u64) -> Result<Status, Bad>
        requires sound { IsTrue (shown S.state self.old).shape.sound }
        requires there { HasBlock self.old.difi.now level block }
        ensures status { IsTrue (shown S.state self.old).told → IfOk result (λ status. status
            ≡ status_of (block_state (S.state self.old.base.now).cells self.old.master.now self.old.difi.now
            self.old.state.now level block)) }
        ensures plain { NeverDamaged (result_err result) }
        ensures reads { Reads (shown S.state) (HashKeeps S.keeps) (hash_lands S.lands) self.old self.new
            (result_err result) }
        ensures base { Reads S.state S.keeps S.lands self.old.base.now self.new.base.now (result_err result) }
        ensures looks { LooksUp level block self.old self.new (result_err result) }
    {
        match self.found(level, block) {
            Ok(BlockState::Good) => Ok(Status::Good),
            Ok(BlockState::Blank { .. }) => Ok(Status::Blank),
            Ok(BlockState::Bad { .. }) => Ok(Status::Bad),
            Err(bad) => Err(bad),
        }
    }
}

impl<'a, S: Space> IvfcView<'a, S> {
    /// Writes the hashes of all blocks that were put or cleared in this transaction into the levels above them and into
    /// the master hash. It looks at no hash, so it is refused only where the disk below failed. No cell changes.
    pub fn seal(&mut self) -> Result<(), Bad>
        requires { IsTrue (shown S.state self.old).shape.sound }
        ensures { SealsView S.state S.keeps S.lands self.old self.new (result_err result) }
    {
        let base = &mut *self.base;
        let master = &mut *self.master;
        let state = &mut *self.state;
        seal_in(base, self.difi, master, state)
    }
}

// A view lends from its base what has a hash path, and writes into it what it marks.
impl<S: Space> Space for IvfcView<'_, S> {
    ghost state = { shown S.state };

    ghost keeps = { HashKeeps S.keeps };

    ghost lands = { hash_lands S.lands };

    ghost size_fits = { λ s sound. shown_fits S.state S.size_fits s sound };

    ghost plain_bytes = { λ s plain told x. absurd (false≢true plain) };

    ghost no_twins = { λ s single. record { apart = λ x y same. same; free = λ x. refl } };

    ghost keeps_same = { HashKeeps-same S.keeps S.keeps_same };

    ghost keeps_join = { HashKeeps-join S.keeps S.keeps_join };

    ghost keeps_hold = { HashKeeps-hold S.keeps S.keeps_hold };

    ghost keeps_shape = { HashKeeps-shape S.state S.keeps S.keeps_shape };

    ghost keeps_cells = { HashKeeps-cells S.state S.size_fits S.keeps S.keeps_cells };

    ghost keeps_lands = { HashKeeps-lands S.state S.size_fits S.keeps S.lands S.keeps_lands };

    fn len(&self) -> u64 {
        self.difi.ivfc4.size
    }

    fn piece(&mut self, at: u64, most: usize) -> Result<&[u8], Bad> {
        self.lend(at, most)
    }

    fn ready(&mut self, at: u64, n: u64) -> Result<(), Bad> {
        let mut done = 0;
        while done < n {
            match self.ready_run(at + done, n - done) {
                Ok(run) => done += run,
                Err(bad) => return Err(bad),
            }
        }
        Ok(())
    }

    /// Beside what each space promises: a tree that the view's came from as the transaction began is one that it comes
    /// from, and the master hash stays until the seal.
    fn put(&mut self, at: u64, bytes: &[u8]) -> Result<(), Bad>
        requires { IsWritable (shown S.state self.old).shape at (length bytes.now) }
        ensures ready { CanPut (shown S.state self.old) at (length bytes.now)
            → IsReady (shown S.state self.old) at (length bytes.now) (result_err result) }
        ensures plain { IsTrue (shown S.state self.old).shape.plain → NeverDamaged (result_err result) }
        ensures puts { Puts (shown S.state self.old) at bytes.now (shown S.state self.new) (result_err result) }
        ensures moves { MovesOnly (HashKeeps S.keeps) (hash_lands S.lands) (shown S.state self.old)
            self.old at (length bytes.now)
            self.new (result_err result) }
        ensures came { KeepsOrigins S.state self.old self.new (result_err result) }
        ensures master { self.new.master.now ≡ self.old.master.now }
    {
        match self.ready(at, bytes.len() as u64) {
            Ok(()) => self.put_ready(at, bytes),
            Err(bad) => Err(bad),
        }
    }
}

// Damage spreads in blocks of level four.
impl<S: Space> Floor for IvfcView<'_, S> {
    ghost ground = { λ s. view_ground (S.state s.base.now) s.part s.master.now s.difi.now s.state.now };

    ghost blocks = { λ s sound. view_blocks (S.state s.base.now) s.part s.master.now s.difi.now s.state.now };

    ghost alike = { λ s told. view_alike (S.state s.base.now) s.part s.master.now s.difi.now s.state.now };

    fn block_of(&self, at: u64) -> (u64, u64) {
        let size = block_size(&self.difi.ivfc4);
        let start = at / size * size;
        (start, size.min(self.difi.ivfc4.size - start))
    }

    fn clear_ready(&mut self, at: u64) -> Result<(), Bad> {
        let block = at / block_size(&self.difi.ivfc4);
        let above = parent_of(self.difi, 3, block);
        let found = match self.found(3, above) {
            Ok(found) => found,
            Err(bad) => return Err(bad),
        };
        match found {
            BlockState::Bad { level, block } => Err(Bad::Damaged {
                part: self.part,
                level,
                block,
            }),
            _ => Ok(()),
        }
    }

    /// Beside what each floor promises: a tree that the view's came from as the transaction began is one that it comes
    /// from, and the master hash stays until the seal.
    fn clear(&mut self, at: u64) -> Result<(), Bad>
        requires { IsInside (shown S.state self.old).shape at 1 }
        ensures ready { IsClearReady (shown S.state self.old) at (result_err result) }
        ensures puts { let block = (shown S.state self.old).shape in
            Puts (shown S.state self.old) (block.block_start at) (replicate (block.block_len at) 0)
            (shown S.state self.new) (result_err result) }
        ensures moves { let block = (shown S.state self.old).shape in
            MovesOnly (HashKeeps S.keeps) (hash_lands S.lands) (shown S.state self.old) self.old
            (block.block_start at) (block.block_len at)
            self.new (result_err result) }
        ensures came { KeepsOrigins S.state self.old self.new (result_err result) }
        ensures master { self.new.master.now ≡ self.old.master.now }
    {
        match self.clear_ready(at) {
            Ok(()) => self.clear_block(at),
            Err(bad) => Err(bad),
        }
    }
}

// How many bytes from a place of level four on lie in its block.
fn rest_of_block(difi: &Difi, at: u64) -> u64
    requires log { difi.now.ivfc4.log ≤ 16 }
    requires inside { at < difi.now.ivfc4.size }
    ensures { result ≡ rest_of difi.now at }
{
    let size = block_size(&difi.ivfc4);
    (size - at % size).min(difi.ivfc4.size - at)
}
