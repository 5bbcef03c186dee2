//! Copying bits, of which some are turned.

ghost use Rattle.std.specs.Prelude.{◌≡◌, ℕ, ◌+◌, ◌*◌, ◌^◌, ◌<◌, ◌≤◌, Bool, IsTrue, IsFalse, if◌then◌else◌, bit_xor};
ghost use Rattle.std.specs.Result.{result_err};
ghost use Rattle.save_bytes.specs.CellNumbers.{number_in};
ghost use Rattle.save_bytes.specs.State.{IsWritable};
ghost use Rattle.save_bytes.specs.Refusals.{IfDone};
ghost use Rattle.save_bytes.specs.Writes.{IsWithin, Writes};
ghost use Rattle.dpfs_tree.specs.Marks.{is_marked};
ghost use Rattle.dpfs_tree.specs.Copies.{CanCopy};
ghost use Rattle.dpfs_tree.specs.Turns.{mask_of, AreTurned, IsTurned};

use crate::copy::{copy_range, put_bytes};
use crate::state::DpfsState;
use save_bytes::{Bad, Space, set_u32, space_u32};

/// Which bits of a level are turned.
pub(crate) trait Turns {
    ghost flags: { Self → ℕ → Bool };

    fn is_turned(&self, k: u64) -> bool
        ensures { result ≡ flags self.now k };
}

// The bits of level 2 that belong to marked blocks.
impl Turns for DpfsState {
    ghost flags = { λ state. is_marked state.touched.items };

    fn is_turned(&self, k: u64) -> bool {
        self.touched(k)
    }
}

fn bit(turned: bool) -> u64
    ensures value { result ≡ (if turned then 1 else 0) }
    ensures small { result ≤ 1 }
{
    if turned { 1 } else { 0 }
}

// The bits of word `n` that are turned.
fn mask<T: Turns>(turns: &T, n: u64) -> u32
    requires { 32 * n + 32 < 2 ^ 64 }
    ensures { result ≡ mask_of (T.flags turns.now) (32 * n) 32 }
{
    let mut bits: u64 = 0;
    for i in 0..32u64 {
        bits = 2 * bits + bit(turns.is_turned(32 * n + i));
    }
    bits as u32
}

// Turns bits of the word at a place.
fn turn_word<S: Space>(base: &mut S, at: u64, mask: u32) -> Result<(), Bad>
    requires writable { IsWritable (S.state base.old).shape at 4 }
    requires plain { IsTrue (S.state base.old).shape.plain }
    requires single { IsFalse (S.state base.old).shape.doubled }
    ensures turned { IsTrue (S.state base.old).told → IfDone (result_err result)
        (number_in 4 (S.state base.new).cells at ≡ bit_xor (number_in 4 (S.state base.old).cells at) mask) }
    ensures writes { Writes S.state S.keeps S.lands (IsWithin at 4) base.old base.new (result_err result) }
{
    let word = match space_u32(base, at) {
        Ok(word) => word,
        Err(bad) => return Err(bad),
    };
    let mut field = [0; 4];
    set_u32(&mut field, 0, word ^ mask);
    put_bytes(base, at, &field)
}

// Turns bits of the words from a place on. The first of them is word `first` of its level.
fn turn_words<S: Space, T: Turns>(
    base: &mut S,
    turns: &T,
    at: u64,
    first: u64,
    count: u64,
) -> Result<(), Bad>
    requires writable { IsWritable (S.state base.old).shape at (4 * count) }
    requires plain { IsTrue (S.state base.old).shape.plain }
    requires single { IsFalse (S.state base.old).shape.doubled }
    requires small { (S.state base.old).shape.size < 2 ^ 64 }
    requires few { 32 * (first + count) < 2 ^ 64 }
    ensures turned { IsTrue (S.state base.old).told → IfDone (result_err result)
        (AreTurned (T.flags turns.now) (S.state base.old).cells at at first count (S.state base.new).cells) }
    ensures writes { Writes S.state S.keeps S.lands (IsWithin at (4 * count)) base.old base.new (result_err result) }
{
    let mut done = 0;
    while done < count {
        match turn_word(base, at + 4 * done, mask(turns, first + done)) {
            Ok(()) => {}
            Err(bad) => return Err(bad),
        }
        done += 1;
    }
    Ok(())
}

/// Copies a block of bits to its other copy, with some of them turned. Its words are `count` from word `first` of its level on.
pub(crate) fn turn_block<S: Space, T: Turns>(
    base: &mut S,
    turns: &T,
    from: u64,
    to: u64,
    len: u64,
    first: u64,
    count: u64,
) -> Result<(), Bad>
    requires copies { CanCopy (S.state base.old).shape from to len }
    requires inside { 4 * count ≤ len }
    requires few { 32 * (first + count) < 2 ^ 64 }
    ensures turned { IsTrue (S.state base.old).told → IfDone (result_err result)
        (IsTurned (T.flags turns.now) (S.state base.old).cells from to len first count (S.state base.new).cells) }
    ensures writes { Writes S.state S.keeps S.lands (IsWithin to len) base.old base.new (result_err result) }
{
    match copy_range(base, from, to, len) {
        Ok(()) => {}
        Err(bad) => return Err(bad),
    }
    turn_words(base, turns, to, first, count)
}
