//! Copying out of a store, across its pieces.

ghost use Rattle.std.specs.Prelude.{◌≡◌, ℕ, ◌+◌, ◌≤◌, length, take, drop, IsTrue, IfOk, OnOk};
ghost use Rattle.std.specs.Result.{result_err};
ghost use Rattle.save_bytes.specs.Cells.{AreBytesAt, Blames};
ghost use Rattle.save_bytes.specs.State.{IsInside};
ghost use Rattle.save_bytes.specs.Refusals.{IfDamaged};
ghost use Rattle.save_bytes.specs.Reads.{Reads};
ghost use Rattle.save_bytes.specs.Answers.{IsRead};
ghost use Rattle.container.specs.StoreHeld.{shown, StoreKeeps, store_lands};

use crate::store::Store;
use save_bytes::{Bad, Space};
use save_disk::Disk;

impl<'a, D: Disk> Store<'a, D> {
    /// Copies the bytes from `at` on into `out`, which it fills. `Damaged` comes exactly where one of them has no hash
    /// path, and names the topmost block that fails for the first.
    pub fn copy(&mut self, at: u64, out: &mut [u8]) -> Result<(), Bad>
        requires { IsInside (shown D.state self.old).shape at (length out.old) }
        ensures read { IsRead (shown D.state self.old) at (length out.old) (result_err result) }
        ensures bytes { IsTrue (shown D.state self.old).told → OnOk result (AreBytesAt (shown D.state self.old).cells at out.new) }
        ensures reads { Reads (shown D.state) (StoreKeeps D.state) (store_lands D.state) self.old self.new (result_err result) }
    {
        let mut done = 0;
        while done < out.len() {
            done += self.copy_piece(at + done as u64, &mut out[done..])?;
        }
        Ok(())
    }

    // Copies the front of `out.len()` bytes from `at` on, and says how many it copied: at least one.
    fn copy_piece(&mut self, at: u64, out: &mut [u8]) -> Result<usize, Bad>
        requires inside { IsInside (shown D.state self.old).shape at (length out.old) }
        requires some { 1 ≤ length out.old }
        ensures count { IfOk result (λ n. (1 ≤ n) × (n ≤ length out.old)) }
        ensures bytes { IsTrue (shown D.state self.old).told → IfOk result (λ n. AreBytesAt (shown D.state self.old).cells at (take n out.new)) }
        ensures rest { IfOk result (λ n. drop n out.new ≡ drop n out.old) }
        ensures damaged { IsTrue (shown D.state self.old).told → IfDamaged (result_err result) (Blames ((shown D.state self.old).cells at)) }
        ensures reads { Reads (shown D.state) (StoreKeeps D.state) (store_lands D.state) self.old self.new (result_err result) }
    {
        let piece = self.piece(at, out.len())?;
        let n = piece.len();
        out[..n].copy_from_slice(piece);
        Ok(n)
    }
}
