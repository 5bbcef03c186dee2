//! A partition's level four as a space.

ghost use Rattle.std.specs.Prelude.{refl, ◌≡◌, ℕ, ◌≤◌, length, replicate, IsTrue, IfOk, []};
ghost use Rattle.std.specs.Borrow.{sem};
ghost use Rattle.std.specs.Io.BufRead.{Rests};
ghost use Rattle.std.specs.Result.{result_err};
ghost use Rattle.save_bytes.specs.State.{IsInside, IsWritable, CanPut};
ghost use Rattle.save_bytes.specs.Refusals.{NeverDamaged};
ghost use Rattle.save_bytes.specs.Answers.{IsPiece, IsReady, IsClearReady};
ghost use Rattle.save_bytes.specs.Puts.{Puts};
ghost use Rattle.save_bytes.specs.Spots.{MovesOnly};
ghost use Rattle.save_bytes.specs.Reads.{Reads};
ghost use Rattle.difi.specs.Places.{block_size};
ghost use Rattle.ivfc_tree.specs.Levels.{HasBlock};
ghost use Rattle.part_store.specs.FloorLaws.{shown_ground, shown_blocks, shown_alike};
ghost use Rattle.part_store.specs.Parts.{CanViewPart, status_in, IsFound};
ghost use Rattle.part_store.specs.Held.{shown, IsPartViewOf, PartKeeps, part_lands, SameNames, KeepsViewOrigins};
ghost use Rattle.part_store.specs.Seals.{IsSealedPart};
ghost use Rattle.std.proofs.lemmas.Bool.{false≢true};
ghost use Rattle.part_store.specs.ViewLaws.{shown_fits, part_shape, PartKeeps-same, PartKeeps-join, PartKeeps-cells, PartKeeps-lands};
ghost use Rattle.part_store.specs.contracts.view.PartView.{the_row};
ghost use mir.Syntax.{named};

use crate::calls::{find, status};
use crate::part::Part;
use crate::puts::{clear_in, clear_ready_in, put_in, ready_in};
use crate::seal::seal_in;
use difi::LevelPlace;
use ivfc_tree::Status;
use save_bytes::{Bad, Floor, Space};

/// The bytes of a partition's level four, each lent only where it has a hash path up to the master hash in the table.
#[derive(Drop)]
pub struct PartView<'a, S: Space> {
    base: &'a mut S,
    part: &'a mut Part,
    table: &'a mut [u8],
}

impl<'a, S: Space> PartView<'a, S> {
    /// The view of a part over the image, with the table that has its descriptor.
    pub fn new(base: &'a mut S, part: &'a mut Part, table: &'a mut [u8]) -> PartView<'a, S>
        requires { CanViewPart (S.state base.old).shape part.old (length table.old) }
        ensures holds { IsPartViewOf result base.entry part.entry table.entry }
        ensures sound { IsTrue (shown S.state result).shape.sound }
    {
        PartView { base, part, table }
    }

    /// Where the bytes from `at` on lie in the base, and how many lie there in one piece, up to `most`, where they
    /// have a hash path. `Damaged` comes exactly where the byte at `at` has none, and names the topmost block that fails.
    pub fn locate(&mut self, at: u64, most: usize) -> Result<(u64, usize), Bad>
        requires inside { IsInside (shown S.state self.old).shape at 1 }
        requires some { 1 ≤ most }
        ensures found { IsFound (shown S.state self.old) (S.state self.new.base.now) at most result }
        ensures reads { Reads (shown S.state) (PartKeeps S.keeps) (part_lands S.state S.lands) self.old self.new (result_err result) }
        ensures base { Reads S.state S.keeps S.lands self.old.base.now self.new.base.now (result_err result) }
    {
        let base = &mut *self.base;
        let part = &mut *self.part;
        let table = &mut *self.table;
        find(base, part, table, at, most)
    }

    /// Lends 1 to `most` bytes from `at` on, as they lie in the base, where they have a hash path. `Damaged` comes
    /// exactly where the byte at `at` has none, and names the topmost block that fails.
    pub fn lend(&mut self, at: u64, most: usize) -> Result<&[u8], Bad>
        requires inside { IsInside (shown S.state self.old).shape at 1 }
        requires some { 1 ≤ most }
        ensures piece { IsPiece (shown S.state self.old) at most result }
        ensures* after { sem 𝓛 (Rests (the_row (record { mir = named 0; lft = [] }) S.row) self.entry (λ new.
            Reads (shown S.state) (PartKeeps S.keeps) (part_lands S.state S.lands) self.old new (result_err result)
            × Reads S.state S.keeps S.lands self.old.base.now new.base.now (result_err result))) }
    {
        let (place, most) = match self.locate(at, most) {
            Ok(run) => run,
            Err(bad) => return Err(bad),
        };
        let base = &mut *self.base;
        base.piece(place, most)
    }

    /// Whether the path of a block of one of the four hash levels holds. It is refused only where the disk below
    /// failed.
    pub fn status(&mut self, level: u8, block: u64) -> Result<Status, Bad>
        requires sound { IsTrue (shown S.state self.old).shape.sound }
        requires there { HasBlock self.old.part.now.difi level block }
        ensures status { IsTrue (shown S.state self.old).told → IfOk result (λ status. status
            ≡ status_in (S.state self.old.base.now) self.old.part.now self.old.table.now level block) }
        ensures plain { NeverDamaged (result_err result) }
        ensures reads { Reads (shown S.state) (PartKeeps S.keeps) (part_lands S.state S.lands) self.old self.new (result_err result) }
        ensures base { Reads S.state S.keeps S.lands self.old.base.now self.new.base.now (result_err result) }
    {
        let base = &mut *self.base;
        let part = &mut *self.part;
        let table = &mut *self.table;
        status(base, part, table, level, block)
    }
}

impl<'a, S: Space> PartView<'a, S> {
    /// Writes the hashes of all blocks that were put or cleared in this transaction into the levels above them and into the
    /// master hash in the table, then which copies hold the contents, and then the selector that chooses these into the
    /// table: the other one, which it answers. So the base and the table hold the cells as the view shows them, which
    /// stay. The copies that were chosen keep their bytes. It is refused only where the disk below failed.
    pub fn seal(&mut self) -> Result<u8, Bad>
        requires { IsTrue (shown S.state self.old).shape.sound }
        ensures names { SameNames self.old self.new }
        ensures sealed { IsSealedPart S.state S.keeps S.lands self.old.base.now self.old.part.now self.old.table.now
            self.new.base.now self.new.part.now self.new.table.now result }
    {
        let base = &mut *self.base;
        let part = &mut *self.part;
        let table = &mut *self.table;
        seal_in(base, part, table)
    }
}

// A view lends from its base what has a hash path, and writes to it below its marks.
impl<S: Space> Space for PartView<'_, S> {
    ghost state = { shown S.state };

    ghost keeps = { PartKeeps S.keeps };

    ghost lands = { part_lands S.state S.lands };

    ghost size_fits = { λ s sound. shown_fits S.state S.size_fits s sound };

    ghost plain_bytes = { λ s plain told x. absurd (false≢true plain) };

    ghost no_twins = { λ s single. record { apart = λ x y same. same; free = λ x. refl } };

    ghost keeps_same = { PartKeeps-same S.keeps S.keeps_same };

    ghost keeps_join = { PartKeeps-join S.keeps S.keeps_join };

    ghost keeps_hold = { λ s t h. (h.0, tt, S.keeps_hold s.base.now t.base.now h.2) };

    ghost keeps_shape = { λ s t h. part_shape S.state s t h.0 (S.keeps_shape s.base.now t.base.now h.2) };

    ghost keeps_cells = { PartKeeps-cells S.state S.size_fits S.keeps S.keeps_cells };

    ghost keeps_lands = { PartKeeps-lands S.state S.size_fits S.keeps S.lands S.keeps_lands S.keeps_cells };

    fn len(&self) -> u64 {
        self.part.difi.ivfc4.size
    }

    fn piece(&mut self, at: u64, most: usize) -> Result<&[u8], Bad> {
        self.lend(at, most)
    }

    fn ready(&mut self, at: u64, n: u64) -> Result<(), Bad> {
        let base = &mut *self.base;
        let part = &mut *self.part;
        let table = &mut *self.table;
        ready_in(base, part, table, at, n)
    }

    /// Beside what each space promises: contents and a master hash from which the part's tree came as the transaction
    /// began are those from which it comes, and the table stays until the seal.
    fn put(&mut self, at: u64, bytes: &[u8]) -> Result<(), Bad>
        requires { IsWritable (shown S.state self.old).shape at (length bytes.now) }
        ensures ready { CanPut (shown S.state self.old) at (length bytes.now)
            → IsReady (shown S.state self.old) at (length bytes.now) (result_err result) }
        ensures plain { IsTrue (shown S.state self.old).shape.plain → NeverDamaged (result_err result) }
        ensures puts { Puts (shown S.state self.old) at bytes.now (shown S.state self.new) (result_err result) }
        ensures moves { MovesOnly (PartKeeps S.keeps) (part_lands S.state S.lands) (shown S.state self.old) self.old at
            (length bytes.now) self.new (result_err result) }
        ensures came { KeepsViewOrigins S.state self.old self.new (result_err result) }
        ensures table { self.new.table.now ≡ self.old.table.now }
    {
        let base = &mut *self.base;
        let part = &mut *self.part;
        let table = &mut *self.table;
        put_in(base, part, table, at, bytes)
    }
}

// Damage spreads in blocks of level four.
impl<S: Space> Floor for PartView<'_, S> {
    ghost ground = { shown_ground S.state };

    ghost blocks = { shown_blocks S.state };

    ghost alike = { shown_alike S.state };

    fn block_of(&self, at: u64) -> (u64, u64) {
        let size = block_size(&self.part.difi.ivfc4);
        let start = at / size * size;
        (start, size.min(self.part.difi.ivfc4.size - start))
    }

    fn clear_ready(&mut self, at: u64) -> Result<(), Bad> {
        let base = &mut *self.base;
        let part = &mut *self.part;
        let table = &mut *self.table;
        clear_ready_in(base, part, table, at)
    }

    /// Beside what each floor promises: contents and a master hash from which the part's tree came as the transaction
    /// began are those from which it comes, and the table stays until the seal.
    fn clear(&mut self, at: u64) -> Result<(), Bad>
        requires { IsInside (shown S.state self.old).shape at 1 }
        ensures ready { IsClearReady (shown S.state self.old) at (result_err result) }
        ensures puts { let block = (shown S.state self.old).shape in
            Puts (shown S.state self.old) (block.block_start at) (replicate (block.block_len at) 0) (shown S.state self.new)
            (result_err result) }
        ensures moves { let block = (shown S.state self.old).shape in
            MovesOnly (PartKeeps S.keeps) (part_lands S.state S.lands) (shown S.state self.old) self.old
            (block.block_start at) (block.block_len at) self.new (result_err result) }
        ensures came { KeepsViewOrigins S.state self.old self.new (result_err result) }
        ensures table { self.new.table.now ≡ self.old.table.now }
    {
        let base = &mut *self.base;
        let part = &mut *self.part;
        let table = &mut *self.table;
        clear_in(base, part, table, at)
    }
}

// How many bytes the blocks of level four have; the last may be shorter.
fn block_size(level: &LevelPlace) -> u64
    requires { level.now.log ≤ 16 }
    ensures { result ≡ block_size level.now }
{
    1 << level.log
}
