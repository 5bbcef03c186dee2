//! Calls over the contents of a partition's double-copy tree.

ghost use Rattle.std.specs.Prelude.{◌≡◌, ℕ, ◌+◌, ◌≤◌, length, replicate};
ghost use Rattle.std.specs.Result.{result_err};
ghost use Rattle.save_bytes.specs.State.{CanPut};
ghost use Rattle.save_bytes.specs.Answers.{IsReady, IsClearReady};
ghost use Rattle.save_bytes.specs.Puts.{Puts};
ghost use Rattle.save_bytes.specs.Reads.{Reads};
ghost use Rattle.save_bytes.specs.Spots.{MovesOnly};
ghost use Rattle.ivfc_tree.specs.View.{CanViewHashes};
ghost use Rattle.part_store.specs.Under.{under_state, UnderKeeps, under_lands, KeepsUnderOrigins};

use difi::Difi;
use ivfc_tree::{IvfcState, IvfcView};
use save_bytes::{Bad, Floor, Space};

/// Whether bytes may be written.
pub(crate) fn ready_over<S: Space>(
    contents: &mut S,
    number: u8,
    difi: &Difi,
    master: &mut [u8],
    state: &mut IvfcState,
    at: u64,
    n: u64,
) -> Result<(), Bad>
    requires view { CanViewHashes (S.state contents.old).shape difi.now (length master.old) state.old }
    requires inside { at + n ≤ difi.now.ivfc4.size }
    ensures ready { IsReady (under_state S.state number difi.now (record { contents = contents.old; master = master.old; ivfc = state.old }))
        at n (result_err result) }
    ensures reads { Reads (under_state S.state number difi.now) (UnderKeeps S.keeps) (under_lands S.lands difi.now)
        (record { contents = contents.old; master = master.old; ivfc = state.old })
        (record { contents = contents.new; master = master.new; ivfc = state.new }) (result_err result) }
{
    let mut view = IvfcView::new(contents, number, difi, master, state);
    view.ready(at, n)
}

/// Puts bytes.
pub(crate) fn put_over<S: Space>(
    contents: &mut S,
    number: u8,
    difi: &Difi,
    master: &mut [u8],
    state: &mut IvfcState,
    at: u64,
    bytes: &[u8],
) -> Result<(), Bad>
    requires view { CanViewHashes (S.state contents.old).shape difi.now (length master.old) state.old }
    requires inside { at + length bytes.now ≤ difi.now.ivfc4.size }
    ensures ready { let old = under_state S.state number difi.now (record { contents = contents.old; master = master.old; ivfc = state.old }) in
        CanPut old at (length bytes.now) → IsReady old at (length bytes.now) (result_err result) }
    ensures puts { Puts (under_state S.state number difi.now (record { contents = contents.old; master = master.old; ivfc = state.old })) at bytes.now
        (under_state S.state number difi.now (record { contents = contents.new; master = master.new; ivfc = state.new })) (result_err result) }
    ensures moves { MovesOnly (UnderKeeps S.keeps) (under_lands S.lands difi.now)
        (under_state S.state number difi.now (record { contents = contents.old; master = master.old; ivfc = state.old }))
        (record { contents = contents.old; master = master.old; ivfc = state.old }) at (length bytes.now)
        (record { contents = contents.new; master = master.new; ivfc = state.new }) (result_err result) }
    ensures came { KeepsUnderOrigins S.state number difi.now (record { contents = contents.old; master = master.old; ivfc = state.old })
        (record { contents = contents.new; master = master.new; ivfc = state.new }) (result_err result) }
    ensures master { master.new ≡ master.old }
{
    let mut view = IvfcView::new(contents, number, difi, master, state);
    view.put(at, bytes)
}

/// Whether the block of a byte may be cleared.
pub(crate) fn clear_ready_over<S: Space>(
    contents: &mut S,
    number: u8,
    difi: &Difi,
    master: &mut [u8],
    state: &mut IvfcState,
    at: u64,
) -> Result<(), Bad>
    requires view { CanViewHashes (S.state contents.old).shape difi.now (length master.old) state.old }
    requires inside { at + 1 ≤ difi.now.ivfc4.size }
    ensures ready { IsClearReady (under_state S.state number difi.now (record { contents = contents.old; master = master.old; ivfc = state.old }))
        at (result_err result) }
    ensures reads { Reads (under_state S.state number difi.now) (UnderKeeps S.keeps) (under_lands S.lands difi.now)
        (record { contents = contents.old; master = master.old; ivfc = state.old })
        (record { contents = contents.new; master = master.new; ivfc = state.new }) (result_err result) }
{
    let mut view = IvfcView::new(contents, number, difi, master, state);
    view.clear_ready(at)
}

/// Clears the block of a byte.
pub(crate) fn clear_over<S: Space>(
    contents: &mut S,
    number: u8,
    difi: &Difi,
    master: &mut [u8],
    state: &mut IvfcState,
    at: u64,
) -> Result<(), Bad>
    requires view { CanViewHashes (S.state contents.old).shape difi.now (length master.old) state.old }
    requires inside { at + 1 ≤ difi.now.ivfc4.size }
    ensures ready { IsClearReady (under_state S.state number difi.now (record { contents = contents.old; master = master.old; ivfc = state.old }))
        at (result_err result) }
    ensures puts { let old = under_state S.state number difi.now (record { contents = contents.old; master = master.old; ivfc = state.old }) in
        Puts old (old.shape.block_start at) (replicate (old.shape.block_len at) 0)
        (under_state S.state number difi.now (record { contents = contents.new; master = master.new; ivfc = state.new })) (result_err result) }
    ensures moves { let old = under_state S.state number difi.now (record { contents = contents.old; master = master.old; ivfc = state.old }) in
        MovesOnly (UnderKeeps S.keeps) (under_lands S.lands difi.now) old
        (record { contents = contents.old; master = master.old; ivfc = state.old }) (old.shape.block_start at) (old.shape.block_len at)
        (record { contents = contents.new; master = master.new; ivfc = state.new }) (result_err result) }
    ensures came { KeepsUnderOrigins S.state number difi.now (record { contents = contents.old; master = master.old; ivfc = state.old })
        (record { contents = contents.new; master = master.new; ivfc = state.new }) (result_err result) }
    ensures master { master.new ≡ master.old }
{
    let mut view = IvfcView::new(contents, number, difi, master, state);
    view.clear(at)
}
