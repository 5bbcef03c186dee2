//! A space: a list of cells that is read and written in pieces.

ghost use Rattle.std.specs.Prelude.{◌≡◌, ℕ, ◌^◌, ◌<◌, ◌≤◌, length, replicate, IsTrue, IsFalse};
ghost use Rattle.std.specs.Borrow.{sem};
ghost use Rattle.std.specs.Io.BufRead.{Rests};
ghost use Rattle.std.specs.Result.{result_err};
ghost use Rattle.save_bytes.specs.Cells.{IsByte};
ghost use Rattle.save_bytes.specs.State.{State, IsInside, IsWritable, CanPut, HasNoTwins};
ghost use Rattle.save_bytes.specs.Blocks.{IsGround, HasBlocks, HasAlikeBlocks};
ghost use Rattle.save_bytes.specs.Refusals.{NeverDamaged};
ghost use Rattle.save_bytes.specs.Answers.{IsPiece, IsReady, IsClearReady};
ghost use Rattle.save_bytes.specs.Stays.{SameCells, SameTwins};
ghost use Rattle.save_bytes.specs.Puts.{Puts};
ghost use Rattle.save_bytes.specs.Reads.{Reads};
ghost use Rattle.save_bytes.specs.Spots.{Spot, Frame, Hold, LandsAsBefore, MovesOnly};

/// Why a call of a space is refused.
#[derive(Clone, Copy, Debug, PartialEq, Eq)]
pub enum Bad {
    /// The disk below failed.
    Disk,
    /// A cell was never written, or is spoilt: the topmost block at fault.
    Damaged { part: u8, level: u8, block: u64 },
}

/// A list of cells, each a byte or none, that is read and written in pieces.
pub trait Space {
    // What contracts see of the space.
    ghost state: { Self → State };

    // From the one value to the other this spot was left alone.
    ghost keeps: { Spot → Self → Self → Type 0 };

    // A put whose range has this place may touch this spot.
    ghost lands: { Self → ℕ → Spot → Type 0 };

    /// How many places there are. It never changes.
    fn len(&self) -> u64
        ensures { IsTrue (state self.now).shape.sound → result ≡ (state self.now).shape.size };

    /// Lends 1 to `most` bytes from `at` on, as they lie in the space. `Damaged` comes exactly where the cell at `at`
    /// is no byte.
    fn piece(&mut self, at: u64, most: usize) -> Result<&[u8], Bad>
        requires inside { IsInside (state self.old).shape at 1 }
        requires some { 1 ≤ most }
        ensures piece { IsPiece (state self.old) at most result }
        ensures* after { sem 𝓛 (Rests Self.row self.entry (λ new. Reads state keeps lands self.old new (result_err result))) };

    /// Whether the `n` places from `at` on may be written: `Damaged` comes exactly where a cell of them is spoilt,
    /// and names the first. No cell changes.
    fn ready(&mut self, at: u64, n: u64) -> Result<(), Bad>
        requires { IsInside (state self.old).shape at n }
        ensures ready { IsReady (state self.old) at n (result_err result) }
        ensures reads { Reads state keeps lands self.old self.new (result_err result) };

    /// Puts bytes at `at`. It is refused as `ready` is, and then changes nothing.
    fn put(&mut self, at: u64, bytes: &[u8]) -> Result<(), Bad>
        requires { IsWritable (state self.old).shape at (length bytes.now) }
        ensures ready { CanPut (state self.old) at (length bytes.now) → IsReady (state self.old) at (length bytes.now) (result_err result) }
        ensures plain { IsTrue (state self.old).shape.plain → NeverDamaged (result_err result) }
        ensures puts { Puts (state self.old) at bytes.now (state self.new) (result_err result) }
        ensures moves { MovesOnly keeps lands (state self.old) self.old at (length bytes.now) self.new (result_err result) };

    ghost size_fits: { (s : Self) → IsTrue (state s).shape.sound → (state s).shape.size < 2 ^ 64 };

    ghost plain_bytes: { (s : Self) → IsTrue (state s).shape.plain → IsTrue (state s).told → (x : ℕ) → IsByte ((state s).cells x) };

    ghost no_twins: { (s : Self) → IsFalse (state s).shape.doubled → HasNoTwins (state s) };

    ghost keeps_same: { (spot : Spot) (s : Self) → keeps spot s s };

    ghost keeps_join: { (spot : Spot) (s t u : Self) → keeps spot s t → keeps spot t u → keeps spot s u };

    ghost keeps_hold: { (s t : Self) → keeps Frame s t → keeps Hold s t };

    ghost keeps_shape: { (s t : Self) → keeps Hold s t → (state t).shape ≡ (state s).shape };

    ghost keeps_cells: { (s t : Self) → IsTrue (state s).shape.sound → IsFalse (state s).shape.doubled → IsTrue (state s).told → IsTrue (state t).told
        → ((spot : Spot) → keeps spot s t) → SameCells (state s) (state t) × SameTwins (state s) (state t) };

    ghost keeps_lands: { (s t : Self) → IsTrue (state s).shape.sound → IsFalse (state s).shape.doubled → IsTrue (state s).told → IsTrue (state t).told
        → ((spot : Spot) → keeps spot s t) → LandsAsBefore (state s).shape.size (lands s) (lands t) };
}

/// A space whose damage spreads in blocks that can be cleared.
pub trait Floor: Space {
    /// Where the block of `at` begins, and how long it is.
    fn block_of(&self, at: u64) -> (u64, u64)
        requires { IsInside (Self.state self.now).shape at 1 }
        ensures start { result.0 ≡ (Self.state self.now).shape.block_start at }
        ensures len { result.1 ≡ (Self.state self.now).shape.block_len at };

    /// Whether the block of `at` may be cleared: `Damaged` comes exactly where its cells are spoilt at level 1, 2
    /// or 3. No cell changes.
    fn clear_ready(&mut self, at: u64) -> Result<(), Bad>
        requires { IsInside (Self.state self.old).shape at 1 }
        ensures ready { IsClearReady (Self.state self.old) at (result_err result) }
        ensures reads { Reads Self.state Self.keeps Self.lands self.old self.new (result_err result) };

    /// Makes each byte of the block of `at` zero. It is refused as `clear_ready` is, and then changes nothing.
    fn clear(&mut self, at: u64) -> Result<(), Bad>
        requires { IsInside (Self.state self.old).shape at 1 }
        ensures ready { IsClearReady (Self.state self.old) at (result_err result) }
        ensures puts { let block = (Self.state self.old).shape in
            Puts (Self.state self.old) (block.block_start at) (replicate (block.block_len at) 0) (Self.state self.new) (result_err result) }
        ensures moves { let block = (Self.state self.old).shape in
            MovesOnly Self.keeps Self.lands (Self.state self.old) self.old (block.block_start at) (block.block_len at) self.new (result_err result) };

    ghost ground: { (s : Self) → IsGround (Self.state s) };

    ghost blocks: { (s : Self) → IsTrue (Self.state s).shape.sound → HasBlocks (Self.state s).shape };

    ghost alike: { (s : Self) → IsTrue (Self.state s).told → HasAlikeBlocks (Self.state s) };
}
