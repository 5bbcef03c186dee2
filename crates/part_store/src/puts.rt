//! Writing into a partition through both of its trees.

ghost use Rattle.std.specs.Prelude.{◌≡◌, ℕ, ◌+◌, ◌≤◌, length, replicate};
ghost use Rattle.std.specs.Result.{result_err};
ghost use Rattle.save_bytes.specs.State.{CanPut};
ghost use Rattle.save_bytes.specs.Answers.{IsReady, IsClearReady};
ghost use Rattle.save_bytes.specs.Puts.{Puts};
ghost use Rattle.save_bytes.specs.Reads.{Reads};
ghost use Rattle.save_bytes.specs.Spots.{MovesOnly};
ghost use Rattle.part_store.specs.Parts.{CanViewPart, part_state};
ghost use Rattle.part_store.specs.Held.{shown, PartKeeps, part_lands, OfViews};
ghost use Rattle.part_store.specs.Ends.{KeepsPartOrigins};

use crate::over::{clear_over, clear_ready_over, put_over, ready_over};
use crate::part::Part;
use dpfs_tree::DpfsView;
use save_bytes::{Bad, Space};

/// Whether bytes of a partition's level four may be written.
pub(crate) fn ready_in<S: Space>(
    base: &mut S,
    part: &mut Part,
    table: &mut [u8],
    at: u64,
    n: u64,
) -> Result<(), Bad>
    requires view { CanViewPart (S.state base.old).shape part.old (length table.old) }
    requires inside { at + n ≤ part.old.difi.ivfc4.size }
    ensures ready { IsReady (part_state (S.state base.old) part.old table.old) at n (result_err result) }
    ensures reads { OfViews base.old part.old table.old base.new part.new table.new (λ old new.
        Reads (shown S.state) (PartKeeps S.keeps) (part_lands S.state S.lands) old new (result_err result)) }
{
    let start = (part.difi.place + part.difi.master.at) as usize;
    let end = start + part.difi.master.size as usize;
    let difi = part.difi;
    let number = part.number;
    let place = part.at;
    let dpfs = &mut part.dpfs;
    let ivfc = &mut part.ivfc;
    let master = &mut table[start..end];
    let mut contents = DpfsView::new(base, place, &difi, dpfs);
    ready_over(&mut contents, number, &difi, master, ivfc, at, n)
}

/// Puts bytes into a partition's level four.
pub(crate) fn put_in<S: Space>(
    base: &mut S,
    part: &mut Part,
    table: &mut [u8],
    at: u64,
    bytes: &[u8],
) -> Result<(), Bad>
    requires view { CanViewPart (S.state base.old).shape part.old (length table.old) }
    requires inside { at + length bytes.now ≤ part.old.difi.ivfc4.size }
    ensures ready { CanPut (part_state (S.state base.old) part.old table.old) at (length bytes.now)
        → IsReady (part_state (S.state base.old) part.old table.old) at (length bytes.now) (result_err result) }
    ensures puts { OfViews base.old part.old table.old base.new part.new table.new (λ old new.
        Puts (shown S.state old) at bytes.now (shown S.state new) (result_err result)) }
    ensures moves { OfViews base.old part.old table.old base.new part.new table.new (λ old new.
        MovesOnly (PartKeeps S.keeps) (part_lands S.state S.lands) (shown S.state old) old at (length bytes.now) new (result_err result)) }
    ensures came { KeepsPartOrigins (S.state base.old) part.old table.old (S.state base.new) part.new table.new (result_err result) }
    ensures table { table.new ≡ table.old }
{
    let start = (part.difi.place + part.difi.master.at) as usize;
    let end = start + part.difi.master.size as usize;
    let difi = part.difi;
    let number = part.number;
    let place = part.at;
    let dpfs = &mut part.dpfs;
    let ivfc = &mut part.ivfc;
    let master = &mut table[start..end];
    let mut contents = DpfsView::new(base, place, &difi, dpfs);
    put_over(&mut contents, number, &difi, master, ivfc, at, bytes)
}

/// Whether the block of a byte of a partition's level four may be cleared.
pub(crate) fn clear_ready_in<S: Space>(
    base: &mut S,
    part: &mut Part,
    table: &mut [u8],
    at: u64,
) -> Result<(), Bad>
    requires view { CanViewPart (S.state base.old).shape part.old (length table.old) }
    requires inside { at + 1 ≤ part.old.difi.ivfc4.size }
    ensures ready { IsClearReady (part_state (S.state base.old) part.old table.old) at (result_err result) }
    ensures reads { OfViews base.old part.old table.old base.new part.new table.new (λ old new.
        Reads (shown S.state) (PartKeeps S.keeps) (part_lands S.state S.lands) old new (result_err result)) }
{
    let start = (part.difi.place + part.difi.master.at) as usize;
    let end = start + part.difi.master.size as usize;
    let difi = part.difi;
    let number = part.number;
    let place = part.at;
    let dpfs = &mut part.dpfs;
    let ivfc = &mut part.ivfc;
    let master = &mut table[start..end];
    let mut contents = DpfsView::new(base, place, &difi, dpfs);
    clear_ready_over(&mut contents, number, &difi, master, ivfc, at)
}

/// Clears the block of a byte of a partition's level four.
pub(crate) fn clear_in<S: Space>(
    base: &mut S,
    part: &mut Part,
    table: &mut [u8],
    at: u64,
) -> Result<(), Bad>
    requires view { CanViewPart (S.state base.old).shape part.old (length table.old) }
    requires inside { at + 1 ≤ part.old.difi.ivfc4.size }
    ensures ready { IsClearReady (part_state (S.state base.old) part.old table.old) at (result_err result) }
    ensures puts { OfViews base.old part.old table.old base.new part.new table.new (λ old new. let block = (shown S.state old).shape in
        Puts (shown S.state old) (block.block_start at) (replicate (block.block_len at) 0) (shown S.state new) (result_err result)) }
    ensures moves { OfViews base.old part.old table.old base.new part.new table.new (λ old new. let block = (shown S.state old).shape in
        MovesOnly (PartKeeps S.keeps) (part_lands S.state S.lands) (shown S.state old) old (block.block_start at) (block.block_len at)
        new (result_err result)) }
    ensures came { KeepsPartOrigins (S.state base.old) part.old table.old (S.state base.new) part.new table.new (result_err result) }
    ensures table { table.new ≡ table.old }
{
    let start = (part.difi.place + part.difi.master.at) as usize;
    let end = start + part.difi.master.size as usize;
    let difi = part.difi;
    let number = part.number;
    let place = part.at;
    let dpfs = &mut part.dpfs;
    let ivfc = &mut part.ivfc;
    let master = &mut table[start..end];
    let mut contents = DpfsView::new(base, place, &difi, dpfs);
    clear_over(&mut contents, number, &difi, master, ivfc, at)
}
