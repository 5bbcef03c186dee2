//! A space over bytes in memory.

ghost use Rattle.std.specs.Prelude.{refl, [], ◌≡◌, ◌+◌, ◌-◌, ◌^◌, ◌≤◌, min, length, replicate, slice_range, IsTrue, None};
ghost use Rattle.std.specs.Borrow.{sem};
ghost use Rattle.std.specs.Io.BufRead.{Rests};
ghost use Rattle.std.specs.Result.{result_err};
ghost use mir.Syntax.{named};
ghost use Rattle.save_bytes.specs.contracts.memory.MemSpace.{the_row};
ghost use Rattle.save_bytes.specs.State.{IsInside, IsWritable, CanPut};
ghost use Rattle.save_bytes.specs.Answers.{IsPiece, IsReady, IsClearReady};
ghost use Rattle.save_bytes.specs.Refusals.{NeverDamaged};
ghost use Rattle.save_bytes.specs.Puts.{Puts};
ghost use Rattle.save_bytes.specs.Reads.{Reads};
ghost use Rattle.std.proofs.Common.{ap};
ghost use Rattle.save_bytes.specs.Cells.{Byte};
ghost use Rattle.save_bytes.specs.Fields.{with_bytes};
ghost use Rattle.save_bytes.specs.Spots.{Place, MovesOnly};
ghost use Rattle.save_bytes.specs.Memory.{memory_state, IsMemoryOf, MemoryKeeps, MemoryLands};
ghost use Rattle.save_bytes.specs.MemoryLaws.{memory_size_fits, MemoryKeeps-same, MemoryKeeps-join, SameMemory-shape, memory_blocks};

use crate::space::{Bad, Floor, Space};

/// Bytes in memory as a space. Damage spreads in blocks of one length, the last one cut by the end.
#[derive(Drop)]
pub struct MemSpace<'a> {
    bytes: &'a mut [u8],
    block: u64,
    lent: u64,
}

impl<'a> MemSpace<'a> {
    /// The space of these bytes, with blocks of `block` bytes.
    pub fn new(bytes: &'a mut [u8], block: u64) -> MemSpace<'a>
        requires { 1 ≤ block }
        ensures memory { IsMemoryOf result bytes.entry block }
        ensures sound { IsTrue (memory_state result).shape.sound }
        ensures lent { result.lent ≡ 0 }
    {
        MemSpace {
            bytes,
            block,
            lent: 0,
        }
    }

    /// The lengths of all pieces that were lent, added up. It stays at its last value.
    pub fn lent(&self) -> u64
        ensures { result ≡ self.now.lent }
    {
        self.lent
    }

    // The piece from `at` on: at most `most` bytes, and none past the end. It is counted.
    fn lend(&mut self, at: u64, most: usize) -> &[u8]
        requires inside { IsInside (memory_state self.old).shape at 1 }
        requires some { 1 ≤ most }
        ensures piece { IsPiece (memory_state self.old) at most (Ok result) }
        ensures* after { sem 𝓛 (Rests (the_row (record { mir = named 0; lft = [] })) self.entry (λ new.
            Reads memory_state MemoryKeeps (λ _. MemoryLands) self.old new None
            × (new.lent ≡ min (self.old.lent + length result.now) (2 ^ 64 - 1)))) }
    {
        let start = at as usize;
        let end = start + most.min(self.bytes.len() - start);
        self.lent = self.lent.saturating_add((end - start) as u64);
        part(&self.bytes, start, end)
    }
}

impl Space for MemSpace<'_> {
    ghost state = { memory_state };

    ghost keeps = { MemoryKeeps };

    ghost lands = { λ s. MemoryLands };

    ghost size_fits = { memory_size_fits };

    ghost plain_bytes = { λ s plain told x. tt };

    ghost no_twins = { λ s single. record { apart = λ x y same. same; free = λ x. refl } };

    ghost keeps_same = { MemoryKeeps-same };

    ghost keeps_join = { MemoryKeeps-join };

    ghost keeps_hold = { λ s t kept. kept };

    ghost keeps_shape = { λ s t kept. SameMemory-shape s t kept.0 };

    ghost keeps_cells = { λ s t sound single told still kept. (
      λ x inside. ap Byte (kept (Place x)).1,
      record { bottom = λ x inside. refl; is_fixed = λ x inside. refl },
    ) };

    ghost keeps_lands = { λ s t sound single told still kept x below spot lands. lands };

    fn len(&self) -> u64 {
        self.bytes.len() as u64
    }

    fn piece(&mut self, at: u64, most: usize) -> Result<&[u8], Bad> {
        Ok(self.lend(at, most))
    }

    fn ready(&mut self, at: u64, n: u64) -> Result<(), Bad>
        requires { IsInside (memory_state self.old).shape at n }
        ensures ready { IsReady (memory_state self.old) at n (result_err result) }
        ensures reads { Reads memory_state MemoryKeeps (λ _. MemoryLands) self.old self.new (result_err result) }
        ensures lent { self.new.lent ≡ self.old.lent }
    {
        Ok(())
    }

    fn put(&mut self, at: u64, bytes: &[u8]) -> Result<(), Bad>
        requires { IsWritable (memory_state self.old).shape at (length bytes.now) }
        ensures ready { CanPut (memory_state self.old) at (length bytes.now)
            → IsReady (memory_state self.old) at (length bytes.now) (result_err result) }
        ensures plain { IsTrue (memory_state self.old).shape.plain → NeverDamaged (result_err result) }
        ensures puts { Puts (memory_state self.old) at bytes.now (memory_state self.new) (result_err result) }
        ensures moves { MovesOnly MemoryKeeps (λ _. MemoryLands) (memory_state self.old) self.old at (length bytes.now)
            self.new (result_err result) }
        ensures lent { self.new.lent ≡ self.old.lent }
    {
        write_part(&mut *self.bytes, at as usize, bytes);
        Ok(())
    }
}

impl Floor for MemSpace<'_> {
    ghost ground = { λ s. record { first = refl; single = refl; bottom = λ x. refl } };

    ghost blocks = { λ s. memory_blocks (length s.bytes.now) s.block };

    ghost alike = { λ s told x y h i same. tt };

    fn block_of(&self, at: u64) -> (u64, u64) {
        let start = at / self.block * self.block;
        (start, self.block.min(self.bytes.len() as u64 - start))
    }

    fn clear_ready(&mut self, at: u64) -> Result<(), Bad>
        requires { IsInside (memory_state self.old).shape at 1 }
        ensures ready { IsClearReady (memory_state self.old) at (result_err result) }
        ensures reads { Reads memory_state MemoryKeeps (λ _. MemoryLands) self.old self.new (result_err result) }
        ensures lent { self.new.lent ≡ self.old.lent }
    {
        Ok(())
    }

    fn clear(&mut self, at: u64) -> Result<(), Bad>
        requires { IsInside (memory_state self.old).shape at 1 }
        ensures ready { IsClearReady (memory_state self.old) at (result_err result) }
        ensures puts { let block = (memory_state self.old).shape in
            Puts (memory_state self.old) (block.block_start at) (replicate (block.block_len at) 0)
            (memory_state self.new) (result_err result) }
        ensures moves { let block = (memory_state self.old).shape in
            MovesOnly MemoryKeeps (λ _. MemoryLands) (memory_state self.old) self.old (block.block_start at)
            (block.block_len at) self.new (result_err result) }
        ensures lent { self.new.lent ≡ self.old.lent }
    {
        let (start, len) = self.block_of(at);
        zero_part(&mut *self.bytes, start as usize, len as usize);
        Ok(())
    }
}

// The bytes from `start` up to `end`.
fn part<'b>(bytes: &'b &mut [u8], start: usize, end: usize) -> &'b [u8]
    requires ordered { start ≤ end }
    requires inside { end ≤ length bytes.now.now }
    ensures { result.now ≡ slice_range bytes.now.now start end }
{
    &bytes[start..end]
}

// Puts a piece into the bytes from `start` on.
fn write_part(bytes: &mut [u8], start: usize, piece: &[u8])
    requires { start + length piece.now ≤ length bytes.old }
    ensures { bytes.new ≡ with_bytes bytes.old start piece.now }
{
    bytes[start..start + piece.len()].copy_from_slice(piece);
}

// Makes `len` bytes from `start` on zero.
fn zero_part(bytes: &mut [u8], start: usize, len: usize)
    requires { start + len ≤ length bytes.old }
    ensures { bytes.new ≡ with_bytes bytes.old start (replicate len 0) }
{
    bytes[start..start + len].fill(0);
}
