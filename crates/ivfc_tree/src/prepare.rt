//! Blocks that are made ready for a put: each below a marked one is marked, and zero where it was never written.

ghost use Rattle.std.specs.Prelude.{◌≡◌, ℕ, ◌+◌, ◌<◌, ◌≤◌, true, List, length, IsTrue, IsFalse, IfOk, MatchResult};
ghost use Rattle.std.specs.Result.{result_err};
ghost use Rattle.save_bytes.specs.Cells.{Byte, AreBytesAt};
ghost use Rattle.save_bytes.specs.State.{Shape, IsWritable};
ghost use Rattle.save_bytes.specs.Refusals.{IfDone, UnlessDisk, NeverDamaged};
ghost use Rattle.save_bytes.specs.Reads.{Reads};
ghost use Rattle.save_bytes.specs.Writes.{IsWithin, Writes};
ghost use Rattle.ivfc_tree.specs.Levels.{IsLevel, HasBlock, block_begin, len_of};
ghost use Rattle.ivfc_tree.specs.Marks.{is_marked, IsMadeFor, MarksBlock};
ghost use Rattle.ivfc_tree.specs.Paths.{block_above, block_state};
ghost use Rattle.ivfc_tree.specs.Known.{is_told, Learns};
ghost use Rattle.ivfc_tree.specs.View.{HasLevels, HasTree};
ghost use Rattle.ivfc_tree.specs.Eases.{MeetsBlock, ZeroesBlock, ReadiesBlock, Prepares, IsGoodTo};
ghost use Rattle.ivfc_tree.specs.Readies.{IsUnspoiltPath, IsBlankFrom, PathSites, IsInPath, MarksWithin, PutsPath};
ghost use Rattle.ivfc_tree.specs.Readies.{ReadiesPath};

use crate::levels::{block_size, level_of, parent_of};
use crate::path::{BlockState, block_state};
use crate::state::IvfcState;
use difi::Difi;
use save_bytes::{Bad, Space};

/// How many zero bytes are put at once.
const CHUNK: usize = 512;

/// Puts bytes into a base whose cells are all bytes.
pub(crate) fn put_bytes<S: Space>(base: &mut S, at: u64, bytes: &[u8]) -> Result<(), Bad>
    requires writable { IsWritable (S.state base.old).shape at (length bytes.now) }
    requires plain { IsTrue (S.state base.old).shape.plain }
    requires single { IsFalse (S.state base.old).shape.doubled }
    ensures bytes { IsTrue (S.state base.old).told
        → IfDone (result_err result) (AreBytesAt (S.state base.new).cells at bytes.now) }
    ensures writes { Writes S.state S.keeps S.lands (IsWithin at (length bytes.now)) base.old base.new
        (result_err result) }
{
    base.put(at, bytes)
}

// Puts a few zero bytes.
fn put_few_zeros<S: Space>(base: &mut S, at: u64, n: usize) -> Result<(), Bad>
    requires few { n ≤ 512 }
    requires writable { IsWritable (S.state base.old).shape at n }
    requires plain { IsTrue (S.state base.old).shape.plain }
    requires single { IsFalse (S.state base.old).shape.doubled }
    ensures zeros { IsTrue (S.state base.old).told
        → IfDone (result_err result) ((k : ℕ) → k < n → (S.state base.new).cells (at + k) ≡ Byte 0) }
    ensures writes { Writes S.state S.keeps S.lands (IsWithin at n) base.old base.new (result_err result) }
{
    let zeros = [0; CHUNK];
    put_bytes(base, at, &zeros[..n])
}

// Makes `n` bytes from `at` on zero.
fn put_zeros<S: Space>(base: &mut S, at: u64, n: u64) -> Result<(), Bad>
    requires writable { IsWritable (S.state base.old).shape at n }
    requires plain { IsTrue (S.state base.old).shape.plain }
    requires single { IsFalse (S.state base.old).shape.doubled }
    ensures zeros { IsTrue (S.state base.old).told
        → IfDone (result_err result) ((k : ℕ) → k < n → (S.state base.new).cells (at + k) ≡ Byte 0) }
    ensures writes { Writes S.state S.keeps S.lands (IsWithin at n) base.old base.new (result_err result) }
{
    let mut done = 0;
    while done < n {
        let part = (n - done).min(CHUNK as u64);
        match put_few_zeros(base, at + done, part as usize) {
            Ok(()) => done += part,
            Err(bad) => return Err(bad),
        }
    }
    Ok(())
}

/// Makes each byte of a block zero.
pub(crate) fn zero_block<S: Space>(
    base: &mut S,
    difi: &Difi,
    level: u8,
    block: u64,
) -> Result<(), Bad>
    requires levels { HasLevels (S.state base.old).shape difi.now }
    requires there { HasBlock difi.now level block }
    ensures zeroed { IsTrue (S.state base.old).told → IfDone (result_err result)
        (ZeroesBlock (S.state base.old).shape.size difi.now level block (S.state base.old).cells
        (S.state base.new).cells) }
    ensures writes { Writes S.state S.keeps S.lands
        (IsWithin (block_begin difi.now level block) (len_of difi.now level block))
        base.old base.new (result_err result) }
{
    let place = level_of(difi, level);
    let size = block_size(&place);
    let from = block * size;
    put_zeros(base, place.at + from, size.min(place.size - from))
}

/// Makes each byte of a block zero, and marks it.
pub(crate) fn zero_and_mark<S: Space>(
    base: &mut S,
    difi: &Difi,
    state: &mut IvfcState,
    level: u8,
    block: u64,
) -> Result<(), Bad>
    requires levels { HasLevels (S.state base.old).shape difi.now }
    requires made { IsMadeFor difi.now state.old }
    requires there { HasBlock difi.now level block }
    ensures zeroed { IsTrue (S.state base.old).told → IfDone (result_err result)
        (ZeroesBlock (S.state base.old).shape.size difi.now level block (S.state base.old).cells
        (S.state base.new).cells) }
    ensures marks { MatchResult result (λ done. MarksBlock level block state.old state.new)
        (λ bad. state.new ≡ state.old) }
    ensures writes { Writes S.state S.keeps S.lands
        (IsWithin (block_begin difi.now level block) (len_of difi.now level block))
        base.old base.new (result_err result) }
{
    match zero_block(base, difi, level, block) {
        Ok(()) => {
            state.mark(level, block);
            Ok(())
        }
        Err(bad) => Err(bad),
    }
}

// Marks a block that is not marked. Where it is blank, its bytes become zero before.
fn prepare_block<S: Space>(
    base: &mut S,
    difi: &Difi,
    state: &mut IvfcState,
    level: u8,
    block: u64,
    blank: bool,
) -> Result<(), Bad>
    requires levels { HasLevels (S.state base.old).shape difi.now }
    requires made { IsMadeFor difi.now state.old }
    requires there { HasBlock difi.now level block }
    ensures readied { IsTrue (S.state base.old).told → IfDone (result_err result)
        (ReadiesBlock (S.state base.old).shape.size difi.now level block blank (S.state base.old).cells
        (is_marked state.old)
        (S.state base.new).cells (is_marked state.new)) }
    ensures marks { MatchResult result (λ done. MarksBlock level block state.old state.new)
        (λ bad. state.new ≡ state.old) }
    ensures writes { Writes S.state S.keeps S.lands
        (IsWithin (block_begin difi.now level block) (len_of difi.now level block))
        base.old base.new (result_err result) }
{
    if state.is_marked(level, block) {
        return Ok(());
    }
    if blank {
        return zero_and_mark(base, difi, state, level, block);
    }
    state.mark(level, block);
    Ok(())
}

/// The block of a level on the path of a block of level four.
pub(crate) fn block_above(difi: &Difi, block: u64, level: u8) -> u64
    requires level { IsLevel level }
    requires tree { (shape : Shape) × (master_len : ℕ) × HasTree shape difi.now master_len }
    requires there { HasBlock difi.now 4 block }
    ensures { result ≡ block_above difi.now 4 block level }
{
    let mut upper = 4;
    let mut above = block;
    while upper > level {
        upper -= 1;
        above = parent_of(difi, upper, above);
    }
    above
}

// The level from which on the path of a block is blank, and 5 where it is not.
fn blank_from<S: Space>(
    base: &mut S,
    difi: &Difi,
    master: &[u8],
    state: &mut IvfcState,
    level: u8,
    block: u64,
) -> Result<u8, Bad>
    requires tree { HasTree (S.state base.old).shape difi.now (length master.now) }
    requires made { IsMadeFor difi.now state.old }
    requires there { HasBlock difi.now level block }
    ensures from { IsTrue (is_told (S.state base.old) master.now difi.now state.old) → IfOk result
        (IsBlankFrom (block_state (S.state base.old).cells master.now difi.now state.old level block)) }
    ensures told { IsTrue (is_told (S.state base.old) master.now difi.now state.old)
        → UnlessDisk (result_err result) (IsTrue (is_told (S.state base.new) master.now difi.now state.new)) }
    ensures learns { Learns difi.now level block state.old state.new (result_err result) }
    ensures plain { NeverDamaged (result_err result) }
    ensures reads { Reads S.state S.keeps S.lands base.old base.new (result_err result) }
{
    match block_state(base, difi, master, state, level, block) {
        Ok(BlockState::Blank { level, .. }) => Ok(level),
        Ok(_) => Ok(5),
        Err(bad) => Err(bad),
    }
}

// Marks the blocks down to a level on the path of a block of level four that are not marked. From one level on they
// become zero before.
fn prepare_path<S: Space>(
    base: &mut S,
    difi: &Difi,
    state: &mut IvfcState,
    block: u64,
    from: u8,
    last: u8,
) -> Result<(), Bad>
    requires tree { (master_len : ℕ) × HasTree (S.state base.old).shape difi.now master_len }
    requires made { IsMadeFor difi.now state.old }
    requires there { HasBlock difi.now 4 block }
    requires last { IsLevel last }
    ensures readied { IsTrue (S.state base.old).told → IfDone (result_err result) ((master : List ℕ)
        → HasTree (S.state base.old).shape difi.now (length master)
        → IsGoodTo (S.state base.old).cells master difi.now (is_marked state.old) block last from
        → (at n : ℕ) → at + n ≤ difi.now.ivfc4.size → MeetsBlock difi.now at n block
        → Prepares master difi.now at n (S.state base.old).cells (is_marked state.old) (S.state base.new).cells
        (is_marked state.new)) }
    ensures marked { IfDone (result_err result) ((level : ℕ) → 1 ≤ level → level ≤ last
        → is_marked state.new level (block_above difi.now 4 block level) ≡ true) }
    ensures marks { PutsPath difi.now block last state.old state.new }
    ensures writes { Writes S.state S.keeps S.lands (PathSites difi.now block) base.old base.new (result_err result) }
{
    for level in 1..last + 1 {
        let above = block_above(difi, block, level);
        match prepare_block(base, difi, state, level, above, from <= level) {
            Ok(()) => {}
            Err(bad) => return Err(bad),
        }
    }
    Ok(())
}

/// Makes the path of a block of level four ready for a put, down to a level: each block of it that is not marked is
/// marked, and becomes zero before where it is blank.
pub(crate) fn prepare<S: Space>(
    base: &mut S,
    difi: &Difi,
    master: &[u8],
    state: &mut IvfcState,
    block: u64,
    last: u8,
) -> Result<(), Bad>
    requires tree { HasTree (S.state base.old).shape difi.now (length master.now) }
    requires made { IsMadeFor difi.now state.old }
    requires there { HasBlock difi.now 4 block }
    requires last { IsLevel last }
    ensures readied { IsTrue (is_told (S.state base.old) master.now difi.now state.old)
        → IsUnspoiltPath (block_state (S.state base.old).cells master.now difi.now state.old last
        (block_above difi.now 4 block last))
        → IfDone (result_err result)
        (ReadiesPath master.now difi.now block last (S.state base.old).cells state.old (S.state base.new).cells
        state.new) }
    ensures marks { MarksWithin (IsInPath difi.now block) state.old state.new }
    ensures writes { Writes S.state S.keeps S.lands (PathSites difi.now block) base.old base.new (result_err result) }
{
    let above = block_above(difi, block, last);
    match blank_from(base, difi, master, state, last, above) {
        Ok(from) => prepare_path(base, difi, state, block, from, last),
        Err(bad) => Err(bad),
    }
}
