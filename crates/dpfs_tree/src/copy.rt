//! Writing into the base of a view.

ghost use Rattle.std.specs.Prelude.{◌≡◌, ℕ, ◌+◌, ◌^◌, ◌<◌, ◌≤◌, length, IsTrue, IsFalse};
ghost use Rattle.std.specs.Result.{result_err};
ghost use Rattle.save_bytes.specs.Cells.{AreBytesAt};
ghost use Rattle.save_bytes.specs.State.{IsWritable};
ghost use Rattle.save_bytes.specs.Refusals.{IfDone};
ghost use Rattle.save_bytes.specs.Writes.{IsWithin, Writes};
ghost use Rattle.dpfs_tree.specs.Copies.{CanCopy, IsCopied, IsCopiedAround, IsFilled};

use save_bytes::{Bad, Space, space_copy};

/// How many bytes are copied at once.
const CHUNK: usize = 512;

/// Puts bytes into a base whose cells are all bytes.
pub(crate) fn put_bytes<S: Space>(base: &mut S, at: u64, bytes: &[u8]) -> Result<(), Bad>
    requires writable { IsWritable (S.state base.old).shape at (length bytes.now) }
    requires plain { IsTrue (S.state base.old).shape.plain }
    requires single { IsFalse (S.state base.old).shape.doubled }
    ensures bytes { IsTrue (S.state base.old).told → IfDone (result_err result) (AreBytesAt (S.state base.new).cells at bytes.now) }
    ensures writes { Writes S.state S.keeps S.lands (IsWithin at (length bytes.now)) base.old base.new (result_err result) }
{
    base.put(at, bytes)
}

// Copies a few bytes of a base to another place of it.
fn copy_few<S: Space>(base: &mut S, from: u64, to: u64, n: usize) -> Result<(), Bad>
    requires few { n ≤ 512 }
    requires apart { CanCopy (S.state base.old).shape from to n }
    ensures copied { IsTrue (S.state base.old).told
        → IfDone (result_err result) (IsCopied (S.state base.old).cells from to n (S.state base.new).cells) }
    ensures writes { Writes S.state S.keeps S.lands (IsWithin to n) base.old base.new (result_err result) }
{
    let mut buffer = [0; CHUNK];
    let part = &mut buffer[..n];
    match space_copy(base, from, part) {
        Ok(()) => {}
        Err(bad) => return Err(bad),
    }
    put_bytes(base, to, part)
}

/// Copies bytes of a base to another place of it.
pub(crate) fn copy_range<S: Space>(base: &mut S, from: u64, to: u64, n: u64) -> Result<(), Bad>
    requires { CanCopy (S.state base.old).shape from to n }
    ensures copied { IsTrue (S.state base.old).told
        → IfDone (result_err result) (IsCopied (S.state base.old).cells from to n (S.state base.new).cells) }
    ensures writes { Writes S.state S.keeps S.lands (IsWithin to n) base.old base.new (result_err result) }
{
    let mut done = 0;
    while done < n {
        let part = (n - done).min(CHUNK as u64);
        match copy_few(base, from + done, to + done, part as usize) {
            Ok(()) => {}
            Err(bad) => return Err(bad),
        }
        done += part;
    }
    Ok(())
}

// Copies a block of a base but for `n` bytes behind its first ones.
fn copy_around<S: Space>(
    base: &mut S,
    from: u64,
    to: u64,
    len: u64,
    skipped: u64,
    n: u64,
) -> Result<(), Bad>
    requires copies { CanCopy (S.state base.old).shape from to len }
    requires inside { skipped + n ≤ len }
    ensures copied { IsTrue (S.state base.old).told
        → IfDone (result_err result) (IsCopiedAround (S.state base.old).cells from to len skipped n (S.state base.new).cells) }
    ensures writes { Writes S.state S.keeps S.lands (IsWithin to len) base.old base.new (result_err result) }
{
    match copy_range(base, from, to, skipped) {
        Ok(()) => {}
        Err(bad) => return Err(bad),
    }
    let behind = skipped + n;
    copy_range(base, from + behind, to + behind, len - behind)
}

/// Puts bytes into the copy of a block at `to`, behind its first ones. Where the block is not marked, what lies around them is
/// copied from the chosen copy, at `from`, before.
pub(crate) fn fill_block<S: Space>(
    base: &mut S,
    from: u64,
    to: u64,
    len: u64,
    skipped: u64,
    bytes: &[u8],
    marked: bool,
) -> Result<(), Bad>
    requires copies { CanCopy (S.state base.old).shape from to len }
    requires inside { skipped + length bytes.now ≤ len }
    ensures filled { IsTrue (S.state base.old).told
        → IfDone (result_err result) (IsFilled (S.state base.old).cells from to len skipped bytes.now marked (S.state base.new).cells) }
    ensures writes { Writes S.state S.keeps S.lands (IsWithin to len) base.old base.new (result_err result) }
{
    if marked {
        return put_bytes(base, to + skipped, bytes);
    }
    match copy_around(base, from, to, len, skipped, bytes.len() as u64) {
        Ok(()) => put_bytes(base, to + skipped, bytes),
        Err(bad) => Err(bad),
    }
}
