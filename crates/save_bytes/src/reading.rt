//! Reading a space across its pieces.

ghost use Rattle.std.specs.Prelude.{◌≡◌, ℕ, ◌+◌, ◌≤◌, length, take, drop, IsTrue, IfOk, OnOk};
ghost use Rattle.std.specs.Result.{result_err};
ghost use Rattle.save_bytes.specs.Cells.{AreBytesAt, Blames};
ghost use Rattle.save_bytes.specs.CellNumbers.{number_in};
ghost use Rattle.save_bytes.specs.State.{IsInside};
ghost use Rattle.save_bytes.specs.Refusals.{IfDamaged, NeverDamaged};
ghost use Rattle.save_bytes.specs.Answers.{IsRead};
ghost use Rattle.save_bytes.specs.Reads.{Reads};

use crate::fields::{u32_at, u64_at};
use crate::space::{Bad, Space};

/// Copies the bytes from `at` on into `out`, which it fills. `Damaged` comes exactly where one of them is no byte,
/// and names the first.
pub fn space_copy<S: Space>(space: &mut S, at: u64, out: &mut [u8]) -> Result<(), Bad>
    requires { IsInside (S.state space.old).shape at (length out.old) }
    ensures read { IsRead (S.state space.old) at (length out.old) (result_err result) }
    ensures bytes { IsTrue (S.state space.old).told → OnOk result (AreBytesAt (S.state space.old).cells at out.new) }
    ensures reads { Reads S.state S.keeps S.lands space.old space.new (result_err result) }
{
    let mut done = 0;
    while done < out.len() {
        done += copy_piece(space, at + done as u64, &mut out[done..])?;
    }
    Ok(())
}

/// The 32-bit number in the four bytes from `at` on. It is refused as `space_copy` of them is.
pub fn space_u32<S: Space>(space: &mut S, at: u64) -> Result<u32, Bad>
    requires { IsInside (S.state space.old).shape at 4 }
    ensures read { IsRead (S.state space.old) at 4 (result_err result) }
    ensures number { IsTrue (S.state space.old).told → IfOk result (λ n. n ≡ number_in 4 (S.state space.old).cells at) }
    ensures reads { Reads S.state S.keeps S.lands space.old space.new (result_err result) }
{
    let mut field = [0; 4];
    space_copy(space, at, &mut field)?;
    Ok(u32_at(&field, 0))
}

/// The 64-bit number in the eight bytes from `at` on. It is refused as `space_copy` of them is.
pub fn space_u64<S: Space>(space: &mut S, at: u64) -> Result<u64, Bad>
    requires { IsInside (S.state space.old).shape at 8 }
    ensures read { IsRead (S.state space.old) at 8 (result_err result) }
    ensures number { IsTrue (S.state space.old).told → IfOk result (λ n. n ≡ number_in 8 (S.state space.old).cells at) }
    ensures reads { Reads S.state S.keeps S.lands space.old space.new (result_err result) }
{
    let mut field = [0; 8];
    space_copy(space, at, &mut field)?;
    Ok(u64_at(&field, 0))
}

// Copies the front of `out.len()` bytes from `at` on, and says how many it copied: at least one.
fn copy_piece<S: Space>(space: &mut S, at: u64, out: &mut [u8]) -> Result<usize, Bad>
    requires inside { IsInside (S.state space.old).shape at (length out.old) }
    requires some { 1 ≤ length out.old }
    ensures count { IfOk result (λ n. (1 ≤ n) × (n ≤ length out.old)) }
    ensures bytes { IsTrue (S.state space.old).told → IfOk result (λ n. AreBytesAt (S.state space.old).cells at (take n out.new)) }
    ensures rest { IfOk result (λ n. drop n out.new ≡ drop n out.old) }
    ensures damaged { IsTrue (S.state space.old).told → IfDamaged (result_err result) (Blames ((S.state space.old).cells at)) }
    ensures plain { IsTrue (S.state space.old).shape.plain → NeverDamaged (result_err result) }
    ensures reads { Reads S.state S.keeps S.lands space.old space.new (result_err result) }
{
    let piece = space.piece(at, out.len())?;
    let n = piece.len();
    out[..n].copy_from_slice(piece);
    Ok(n)
}
