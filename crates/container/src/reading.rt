//! Reading bytes of an image straight from its disk.

ghost use Rattle.std.specs.Prelude.{◌≡◌, ◌+◌, ◌≤◌, length, take, drop, IsTrue, IfOk, OnOk};
ghost use Rattle.save_disk.specs.State.{IsQuiet, IsSteady, HasCause};
ghost use Rattle.save_disk.specs.Tells.{tells, image_told};

use save_disk::{Disk, Failed};

/// The most bytes that a sector has.
const MAX_GRAIN: usize = 4096;

/// Reads the image's bytes from `at` on into `out`, which it fills. Each sector is read once.
pub(crate) fn read_part<D: Disk>(disk: &mut D, at: u64, out: &mut [u8]) -> Result<(), Failed>
    requires { at + length out.old ≤ (D.state disk.old).size }
    ensures bytes { IsTrue (tells (D.state disk.old)) → OnOk result (out.new ≡ take (length out.old) (drop at (image_told (D.state disk.old)))) }
    ensures quiet { IsQuiet (D.state disk.old) (D.state disk.new) }
    ensures steady { IsSteady (D.state disk.old) (D.state disk.new) }
    ensures cause { HasCause (D.state disk.old).counts.disk (D.state disk.new).counts.disk result }
{
    let grain = disk.grain() as usize;
    let mut buffer = [0; MAX_GRAIN];
    let mut done = 0;
    while done < out.len() {
        let sector = &mut buffer[..grain];
        done += read_piece(disk, sector, at + done as u64, &mut out[done..])?;
    }
    Ok(())
}

// Reads what the sector of the place `at` has of the next bytes, and answers how many.
fn read_piece<D: Disk>(
    disk: &mut D,
    buffer: &mut [u8],
    at: u64,
    out: &mut [u8],
) -> Result<usize, Failed>
    requires inside { at + length out.old ≤ (D.state disk.old).size }
    requires some { 1 ≤ length out.old }
    requires whole { length buffer.old ≡ (D.state disk.old).grain }
    requires grain { 1 ≤ length buffer.old }
    ensures some { IfOk result (λ n. 1 ≤ n) }
    ensures count { IfOk result (λ n. n ≤ length out.old) }
    ensures bytes { IsTrue (tells (D.state disk.old)) → IfOk result (λ n. take n out.new ≡ take n (drop at (image_told (D.state disk.old)))) }
    ensures quiet { IsQuiet (D.state disk.old) (D.state disk.new) }
    ensures steady { IsSteady (D.state disk.old) (D.state disk.new) }
    ensures cause { HasCause (D.state disk.old).counts.disk (D.state disk.new).counts.disk result }
{
    let grain = buffer.len() as u64;
    disk.read(at / grain, buffer)?;
    let from = (at % grain) as usize;
    let n = (buffer.len() - from).min(out.len());
    out[..n].copy_from_slice(&buffer[from..from + n]);
    Ok(n)
}
