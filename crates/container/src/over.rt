//! Calls on one part over a base, through its view.

ghost use Rattle.std.specs.Prelude.{◌≡◌, ℕ, ◌+◌, ◌≤◌, length, replicate};
ghost use Rattle.std.specs.Result.{result_err};
ghost use Rattle.save_bytes.specs.State.{CanPut};
ghost use Rattle.save_bytes.specs.Answers.{IsReady, IsClearReady};
ghost use Rattle.save_bytes.specs.Puts.{Puts};
ghost use Rattle.save_bytes.specs.Reads.{Reads};
ghost use Rattle.save_bytes.specs.Spots.{MovesOnly};
ghost use Rattle.part_store.specs.Parts.{CanViewPart, part_state};
ghost use Rattle.part_store.specs.Ends.{KeepsPartOrigins};
ghost use Rattle.container.specs.Overs.{Over, over_state, OverKeeps, over_lands};

use part_store::{Part, PartView};
use save_bytes::{Bad, Floor, Space};

/// Whether bytes of a part may be written.
pub(crate) fn ready_over<S: Space>(
    base: &mut S,
    part: &mut Part,
    table: &mut [u8],
    at: u64,
    n: u64,
) -> Result<(), Bad>
    requires view { CanViewPart (S.state base.old).shape part.old (length table.old) }
    requires inside { at + n ≤ part.old.difi.ivfc4.size }
    ensures ready { IsReady (part_state (S.state base.old) part.old table.old) at n (result_err result) }
    ensures reads { Reads (over_state S.state) (OverKeeps S.keeps) (over_lands S.state S.lands)
        (record { base = base.old; part = part.old; table = table.old })
        (record { base = base.new; part = part.new; table = table.new }) (result_err result) }
{
    let mut view = PartView::new(base, part, table);
    view.ready(at, n)
}

/// Puts bytes into a part.
pub(crate) fn put_over<S: Space>(
    base: &mut S,
    part: &mut Part,
    table: &mut [u8],
    at: u64,
    bytes: &[u8],
) -> Result<(), Bad>
    requires view { CanViewPart (S.state base.old).shape part.old (length table.old) }
    requires inside { at + length bytes.now ≤ part.old.difi.ivfc4.size }
    ensures ready { CanPut (part_state (S.state base.old) part.old table.old) at (length bytes.now)
        → IsReady (part_state (S.state base.old) part.old table.old) at (length bytes.now) (result_err result) }
    ensures puts { Puts (part_state (S.state base.old) part.old table.old) at bytes.now
        (part_state (S.state base.new) part.new table.new) (result_err result) }
    ensures moves { MovesOnly (OverKeeps S.keeps) (over_lands S.state S.lands) (part_state (S.state base.old) part.old table.old)
        (record { base = base.old; part = part.old; table = table.old }) at (length bytes.now)
        (record { base = base.new; part = part.new; table = table.new }) (result_err result) }
    ensures came { KeepsPartOrigins (S.state base.old) part.old table.old (S.state base.new) part.new table.new (result_err result) }
{
    let mut view = PartView::new(base, part, table);
    view.put(at, bytes)
}

/// Whether the block of a byte of a part may be cleared.
pub(crate) fn clear_ready_over<S: Space>(
    base: &mut S,
    part: &mut Part,
    table: &mut [u8],
    at: u64,
) -> Result<(), Bad>
    requires view { CanViewPart (S.state base.old).shape part.old (length table.old) }
    requires inside { at + 1 ≤ part.old.difi.ivfc4.size }
    ensures ready { IsClearReady (part_state (S.state base.old) part.old table.old) at (result_err result) }
    ensures reads { Reads (over_state S.state) (OverKeeps S.keeps) (over_lands S.state S.lands)
        (record { base = base.old; part = part.old; table = table.old })
        (record { base = base.new; part = part.new; table = table.new }) (result_err result) }
{
    let mut view = PartView::new(base, part, table);
    view.clear_ready(at)
}

/// Clears the block of a byte of a part.
pub(crate) fn clear_over<S: Space>(
    base: &mut S,
    part: &mut Part,
    table: &mut [u8],
    at: u64,
) -> Result<(), Bad>
    requires view { CanViewPart (S.state base.old).shape part.old (length table.old) }
    requires inside { at + 1 ≤ part.old.difi.ivfc4.size }
    ensures ready { IsClearReady (part_state (S.state base.old) part.old table.old) at (result_err result) }
    ensures puts { let old = part_state (S.state base.old) part.old table.old in
        Puts old (old.shape.block_start at) (replicate (old.shape.block_len at) 0)
        (part_state (S.state base.new) part.new table.new) (result_err result) }
    ensures moves { let old = part_state (S.state base.old) part.old table.old in
        MovesOnly (OverKeeps S.keeps) (over_lands S.state S.lands) old
        (record { base = base.old; part = part.old; table = table.old }) (old.shape.block_start at) (old.shape.block_len at)
        (record { base = base.new; part = part.new; table = table.new }) (result_err result) }
    ensures came { KeepsPartOrigins (S.state base.old) part.old table.old (S.state base.new) part.new table.new (result_err result) }
{
    let mut view = PartView::new(base, part, table);
    view.clear(at)
}
