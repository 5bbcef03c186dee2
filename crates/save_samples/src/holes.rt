//! A floor over bytes in memory, some of whose blocks are never written or spoilt.

ghost use Rattle.std.specs.Prelude.{refl, ◌≡◌, ℕ, ◌+◌, ◌-◌, ◌*◌, ◌/◌, ◌^◌, ◌<◌, ◌≤◌, min, [], ◌∷◌, length, replicate};
ghost use Rattle.std.specs.Prelude.{None, slice_index, slice_index_or, slice_set, slice_range, IsTrue, IfOk};
ghost use Rattle.save_bytes.specs.Cells.{Byte, IsUnspoilt, Blames};
ghost use Rattle.save_bytes.specs.Refusals.{IfDamaged, OnDisk};
ghost use Rattle.save_bytes.specs.Answers.{IsReady, IsClearReady};
ghost use Rattle.std.specs.Result.{result_err};
ghost use Rattle.save_bytes.specs.Fields.{with_bytes};
ghost use Rattle.save_bytes.specs.Puts.{Puts};
ghost use Rattle.save_bytes.specs.Spots.{MovesOnly};
ghost use Rattle.save_bytes.specs.State.{IsInside, IsWritable};
ghost use Rattle.save_samples.specs.declared.holes.Hole.TheVariants.{Filled};
ghost use Rattle.save_samples.specs.Holes.{hole_shape, hole_state, IsHoleSpaceOf, IsRun, HoleKeeps, HoleLands};
ghost use Rattle.save_samples.specs.HoleLaws.{hole_size_fits, hole_plain, HoleKeeps-same, HoleKeeps-join, SameHoles-shape, hole_cells_kept};
ghost use Rattle.save_samples.specs.HoleLaws.{hole_blocks, hole_alike, hole_lands_kept};

use save_bytes::{Bad, Floor, Space};

/// What a block of a test's floor is. What is at fault is a block of this level.
#[derive(Clone, Copy, Debug, PartialEq, Eq)]
pub enum Hole {
    /// Its bytes are what they are.
    Filled,
    /// It was never written.
    NeverWritten(u8),
    /// It is spoilt.
    Broken(u8),
}

/// Bytes in memory as a floor, with a hole for each block. The block at fault has part 0 and the block's own number.
#[derive(Drop)]
pub struct HoleSpace<'a> {
    bytes: &'a mut [u8],
    block: u64,
    holes: &'a mut [Hole],
}

impl<'a> HoleSpace<'a> {
    /// The floor of these bytes, with blocks of `block` bytes.
    pub fn new(bytes: &'a mut [u8], block: u64, holes: &'a mut [Hole]) -> HoleSpace<'a>
        requires some { 1 ≤ block }
        requires covered { length bytes.old ≤ length holes.old * block }
        ensures holes { IsHoleSpaceOf result bytes.entry block holes.entry }
        ensures sound { IsTrue (hole_state result).shape.sound }
    {
        HoleSpace {
            bytes,
            block,
            holes,
        }
    }

    // The hole at a place, and the number of its block.
    fn hole_at(&self, at: u64) -> (Hole, u64)
        requires { IsInside (hole_state self.now).shape at 1 }
        ensures hole { result.0 ≡ slice_index_or self.now.holes.now (at / self.now.block) Filled }
        ensures number { result.1 ≡ at / self.now.block }
        ensures inside { result.1 < length self.now.holes.now }
    {
        let number = at / self.block;
        (self.holes[number as usize], number)
    }

    // Where the block of a place begins, and how long it is.
    fn bounds(&self, at: u64) -> (u64, u64)
        requires { IsInside (hole_state self.now).shape at 1 }
        ensures start { result.0 ≡ (hole_state self.now).shape.block_start at }
        ensures len { result.1 ≡ (hole_state self.now).shape.block_len at }
    {
        let start = at / self.block * self.block;
        (start, self.block.min(self.bytes.len() as u64 - start))
    }

    // How many bytes, at most `most`, lie from a place on in one block without a hole.
    fn run_at(&self, at: u64, most: usize) -> Result<usize, Bad>
        requires inside { IsInside (hole_state self.now).shape at 1 }
        requires some { 1 ≤ most }
        ensures run { IfOk result (IsRun (hole_state self.now) self.now.bytes.now at most) }
        ensures hole { IfDamaged (result_err result) (Blames ((hole_state self.now).cells at)) }
        ensures kind { OnDisk (result_err result) ⊥ }
    {
        let (hole, block) = self.hole_at(at);
        match hole {
            Hole::Filled => {
                let (start, len) = self.bounds(at);
                Ok(most.min((start + len - at) as usize))
            }
            Hole::NeverWritten(level) | Hole::Broken(level) => Err(Bad::Damaged {
                part: 0,
                level,
                block,
            }),
        }
    }

    // The first of some places that is spoilt.
    fn spoilt_in(&self, at: u64, n: u64) -> Option<Bad>
        requires { IsInside (hole_state self.now).shape at n }
        ensures ready { IsReady (hole_state self.now) at n result }
        ensures kind { OnDisk result ⊥ }
    {
        for k in 0..n {
            let (hole, block) = self.hole_at(at + k);
            if let Hole::Broken(level) = hole {
                return Some(Bad::Damaged {
                    part: 0,
                    level,
                    block,
                });
            }
        }
        None
    }

    // Why the block of a place may not be cleared.
    fn not_clearable(&self, at: u64) -> Option<Bad>
        requires { IsInside (hole_state self.now).shape at 1 }
        ensures ready { IsClearReady (hole_state self.now) at result }
        ensures kind { OnDisk result ⊥ }
    {
        let (hole, block) = self.hole_at(at);
        match hole {
            Hole::Broken(level) if level < 4 => Some(Bad::Damaged {
                part: 0,
                level,
                block,
            }),
            _ => None,
        }
    }

    // Puts a byte into a block that is not spoilt. One that was never written is zero from then on.
    fn put_byte(&mut self, at: u64, byte: u8)
        requires writable { IsWritable (hole_state self.old).shape at 1 }
        requires unspoilt { IsUnspoilt ((hole_state self.old).cells at) }
        ensures puts { Puts (hole_state self.old) at (byte ∷ []) (hole_state self.new) None }
        ensures moves { MovesOnly HoleKeeps HoleLands (hole_state self.old) self.old at 1 self.new None }
    {
        let (hole, number) = self.hole_at(at);
        if let Hole::NeverWritten(_) = hole {
            let (start, len) = self.bounds(at);
            zero_part(&mut *self.bytes, start as usize, len as usize);
            self.holes[number as usize] = Hole::Filled;
        }
        self.bytes[at as usize] = byte;
    }

    // Makes each byte of the block of a place zero. It has no hole from then on.
    fn clear_block(&mut self, at: u64)
        requires { IsInside (hole_state self.old).shape at 1 }
        ensures puts { let block = (hole_state self.old).shape in
            Puts (hole_state self.old) (block.block_start at) (replicate (block.block_len at) 0) (hole_state self.new) None }
        ensures moves { let block = (hole_state self.old).shape in
            MovesOnly HoleKeeps HoleLands (hole_state self.old) self.old (block.block_start at) (block.block_len at)
            self.new None }
    {
        let (_, number) = self.hole_at(at);
        let (start, len) = self.bounds(at);
        zero_part(&mut *self.bytes, start as usize, len as usize);
        self.holes[number as usize] = Hole::Filled;
    }
}

impl Space for HoleSpace<'_> {
    ghost state = { hole_state };

    ghost keeps = { HoleKeeps };

    ghost lands = { HoleLands };

    ghost size_fits = { hole_size_fits };

    ghost plain_bytes = { hole_plain };

    ghost no_twins = { λ s single. record { apart = λ x y same. same; free = λ x. refl } };

    ghost keeps_same = { HoleKeeps-same };

    ghost keeps_join = { HoleKeeps-join };

    ghost keeps_hold = { λ s t kept. kept };

    ghost keeps_shape = { λ s t kept. SameHoles-shape s t kept.0 };

    ghost keeps_cells = { λ s t sound single told still kept. hole_cells_kept s t kept };

    ghost keeps_lands = { λ s t sound single told still kept x below spot lands. hole_lands_kept s t (kept spot).0 x spot lands };

    fn len(&self) -> u64 {
        self.bytes.len() as u64
    }

    fn piece(&mut self, at: u64, most: usize) -> Result<&[u8], Bad> {
        match self.run_at(at, most) {
            Ok(run) => Ok(part(&self.bytes, at as usize, at as usize + run)),
            Err(bad) => Err(bad),
        }
    }

    fn ready(&mut self, at: u64, n: u64) -> Result<(), Bad> {
        match self.spoilt_in(at, n) {
            None => Ok(()),
            Some(bad) => Err(bad),
        }
    }

    fn put(&mut self, at: u64, bytes: &[u8]) -> Result<(), Bad> {
        match self.spoilt_in(at, bytes.len() as u64) {
            None => {
                put_bytes(self, at, bytes);
                Ok(())
            }
            Some(bad) => Err(bad),
        }
    }
}

impl Floor for HoleSpace<'_> {
    ghost ground = { λ s. record { first = refl; single = refl; bottom = λ x. refl } };

    ghost blocks = { λ s. hole_blocks (length s.bytes.now) s.block (length s.holes.now) };

    ghost alike = { hole_alike };

    fn block_of(&self, at: u64) -> (u64, u64) {
        self.bounds(at)
    }

    fn clear_ready(&mut self, at: u64) -> Result<(), Bad> {
        match self.not_clearable(at) {
            None => Ok(()),
            Some(bad) => Err(bad),
        }
    }

    fn clear(&mut self, at: u64) -> Result<(), Bad> {
        match self.not_clearable(at) {
            None => {
                self.clear_block(at);
                Ok(())
            }
            Some(bad) => Err(bad),
        }
    }
}

// Puts bytes into blocks that are not spoilt.
fn put_bytes(space: &mut HoleSpace, at: u64, bytes: &[u8])
    requires writable { IsWritable (hole_state space.old).shape at (length bytes.now) }
    requires unspoilt { (k : ℕ) → k < length bytes.now → IsUnspoilt ((hole_state space.old).cells (at + k)) }
    ensures puts { Puts (hole_state space.old) at bytes.now (hole_state space.new) None }
    ensures moves { MovesOnly HoleKeeps HoleLands (hole_state space.old) space.old at (length bytes.now) space.new None }
{
    for (k, byte) in bytes.iter().enumerate() {
        space.put_byte(at + k as u64, *byte);
    }
}

// The bytes from `start` up to `end`.
fn part<'b>(bytes: &'b &mut [u8], start: usize, end: usize) -> &'b [u8]
    requires ordered { start ≤ end }
    requires inside { end ≤ length bytes.now.now }
    ensures { result.now ≡ slice_range bytes.now.now start end }
{
    &bytes[start..end]
}

// Makes `len` bytes from `start` on zero.
fn zero_part(bytes: &mut [u8], start: usize, len: usize)
    requires { start + len ≤ length bytes.old }
    ensures size { length bytes.new ≡ length bytes.old }
    ensures zeros { (x : ℕ) → start ≤ x → x < start + len → slice_index bytes.new x ≡ 0 }
    ensures before { (x : ℕ) → x < start → slice_index bytes.new x ≡ slice_index bytes.old x }
    ensures behind { (x : ℕ) → start + len ≤ x → slice_index bytes.new x ≡ slice_index bytes.old x }
{
    bytes[start..start + len].fill(0);
}
