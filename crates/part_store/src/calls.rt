//! Calls through both trees of a partition.

ghost use Rattle.std.specs.Prelude.{◌≡◌, ℕ, ◌+◌, ◌^◌, ◌<◌, ◌≤◌, IsTrue, IfOk, length};
ghost use Rattle.std.specs.Borrow.{sem};
ghost use Rattle.std.specs.Io.BufRead.{Rests};
ghost use Rattle.std.specs.Result.{result_err};
ghost use Rattle.save_bytes.specs.Refusals.{NeverDamaged};
ghost use Rattle.save_bytes.specs.Answers.{IsPiece};
ghost use Rattle.ivfc_tree.specs.Levels.{HasBlock, level4_of};
ghost use Rattle.ivfc_tree.specs.Paths.{block_state};
ghost use Rattle.ivfc_tree.specs.View.{CanViewHashes, view_state, IsVerified, status_of};
ghost use Rattle.dpfs_tree.specs.Held.{shown_contents, ContentsKeep, contents_land};
ghost use Rattle.part_store.specs.Parts.{CanViewPart, part_state, status_in, IsFound};
ghost use Rattle.part_store.specs.Calls.{ReadsHashed, ReadsPart};

use crate::part::Part;
use difi::Difi;
use dpfs_tree::DpfsView;
use ivfc_tree::{IvfcState, IvfcView, Status};
use save_bytes::{Bad, Space};

// Tries the hash path of a byte over the contents of the double-copy tree.
fn verify_in<S: Space>(
    contents: &mut S,
    number: u8,
    difi: &Difi,
    master: &mut [u8],
    state: &mut IvfcState,
    at: u64,
    most: usize,
) -> Result<usize, Bad>
    requires view { CanViewHashes (S.state contents.old).shape difi.now (length master.old) state.old }
    requires inside { at + 1 ≤ difi.now.ivfc4.size }
    requires some { 1 ≤ most }
    ensures verified { IsVerified (view_state (S.state contents.old) number master.old difi.now state.old) at most result }
    ensures left { ReadsHashed S.state S.keeps S.lands number difi.now contents.old contents.new master.old master.new state.old state.new
        (result_err result) }
{
    let mut view = IvfcView::new(contents, number, difi, master, state);
    view.verify(at, most)
}

// Tells the state of a block over the contents of the double-copy tree.
fn status_over<S: Space>(
    contents: &mut S,
    number: u8,
    difi: &Difi,
    master: &mut [u8],
    state: &mut IvfcState,
    level: u8,
    block: u64,
) -> Result<Status, Bad>
    requires view { CanViewHashes (S.state contents.old).shape difi.now (length master.old) state.old }
    requires there { HasBlock difi.now level block }
    ensures status { IsTrue (view_state (S.state contents.old) number master.old difi.now state.old).told → IfOk result (λ status. status
        ≡ status_of (block_state (S.state contents.old).cells master.old difi.now state.old level block)) }
    ensures plain { NeverDamaged (result_err result) }
    ensures left { ReadsHashed S.state S.keeps S.lands number difi.now contents.old contents.new master.old master.new state.old state.new
        (result_err result) }
{
    let mut view = IvfcView::new(contents, number, difi, master, state);
    view.status(level, block)
}

/// Tells the state of a block of one of the four hash levels.
pub(crate) fn status<S: Space>(
    base: &mut S,
    part: &mut Part,
    table: &mut [u8],
    level: u8,
    block: u64,
) -> Result<Status, Bad>
    requires view { CanViewPart (S.state base.old).shape part.old (length table.old) }
    requires there { HasBlock part.old.difi level block }
    ensures status { IsTrue (part_state (S.state base.old) part.old table.old).told
        → IfOk result (λ status. status ≡ status_in (S.state base.old) part.old table.old level block) }
    ensures plain { NeverDamaged (result_err result) }
    ensures left { ReadsPart S.state S.keeps S.lands base.old base.new part.old part.new table.old table.new (result_err result) }
{
    let start = (part.difi.place + part.difi.master.at) as usize;
    let end = start + part.difi.master.size as usize;
    let difi = part.difi;
    let number = part.number;
    let place = part.at;
    let dpfs = &mut part.dpfs;
    let ivfc = &mut part.ivfc;
    let master = &mut table[start..end];
    let mut contents = DpfsView::new(base, place, &difi, dpfs);
    status_over(&mut contents, number, &difi, master, ivfc, level, block)
}

// Where a byte of level four lies in the contents.
fn place_in_contents(difi: &Difi, at: u64) -> u64
    requires { (level4_of difi.now).at + at < 2 ^ 64 }
    ensures { result ≡ (level4_of difi.now).at + at }
{
    let from = if difi.external {
        difi.dpfs3.size
    } else {
        difi.ivfc4.at
    };
    from + at
}

// Where bytes of level four lie in the base of the contents, and how many lie there in one piece, up to `most`, where they
// have a hash path.
fn find_in<S: Space>(
    contents: &mut DpfsView<'_, S>,
    number: u8,
    difi: &Difi,
    master: &mut [u8],
    state: &mut IvfcState,
    at: u64,
    most: usize,
) -> Result<(u64, usize), Bad>
    requires of { contents.old.difi.now ≡ difi.now }
    requires view { CanViewHashes (shown_contents S.state contents.old).shape difi.now (length master.old) state.old }
    requires inside { at + 1 ≤ difi.now.ivfc4.size }
    requires some { 1 ≤ most }
    ensures found { IsFound (view_state (shown_contents S.state contents.old) number master.old difi.now state.old)
        (S.state contents.new.base.now) at most result }
    ensures left { ReadsHashed (shown_contents S.state) (ContentsKeep S.keeps) (contents_land S.state S.lands) number difi.now contents.old contents.new
        master.old master.new state.old state.new (result_err result) }
{
    let most = match verify_in(contents, number, difi, master, state, at, most) {
        Ok(most) => most,
        Err(bad) => return Err(bad),
    };
    contents.locate(place_in_contents(difi, at), most)
}

/// Where the bytes of level four from `at` on lie in the base, and how many lie there in one piece, up to `most`,
/// where they have a hash path.
pub(crate) fn find<S: Space>(
    base: &mut S,
    part: &mut Part,
    table: &mut [u8],
    at: u64,
    most: usize,
) -> Result<(u64, usize), Bad>
    requires view { CanViewPart (S.state base.old).shape part.old (length table.old) }
    requires inside { at + 1 ≤ part.old.difi.ivfc4.size }
    requires some { 1 ≤ most }
    ensures found { IsFound (part_state (S.state base.old) part.old table.old) (S.state base.new) at most result }
    ensures left { ReadsPart S.state S.keeps S.lands base.old base.new part.old part.new table.old table.new (result_err result) }
{
    let start = (part.difi.place + part.difi.master.at) as usize;
    let end = start + part.difi.master.size as usize;
    let difi = part.difi;
    let number = part.number;
    let part_at = part.at;
    let dpfs = &mut part.dpfs;
    let ivfc = &mut part.ivfc;
    let master = &mut table[start..end];
    let mut contents = DpfsView::new(base, part_at, &difi, dpfs);
    find_in(&mut contents, number, &difi, master, ivfc, at, most)
}

/// Lends 1 to `most` bytes of a partition's level four from `at` on, as they lie in the base, where they have a hash path:
/// for as long as the base is lent. `Damaged` comes exactly where the byte at `at` has none, and names the topmost
/// block that fails.
pub fn lend<'a, S: Space>(
    base: &'a mut S,
    part: &mut Part,
    table: &mut [u8],
    at: u64,
    most: usize,
) -> Result<&'a [u8], Bad>
    requires view { CanViewPart (S.state base.old).shape part.old (length table.old) }
    requires inside { at + 1 ≤ part.old.difi.ivfc4.size }
    requires some { 1 ≤ most }
    ensures piece { IsPiece (part_state (S.state base.old) part.old table.old) at most result }
    ensures* after { sem 𝓛 (Rests S.row base.entry (λ new.
        ReadsPart S.state S.keeps S.lands base.old new part.old part.new table.old table.new (result_err result))) }
{
    let (place, most) = match find(&mut *base, part, table, at, most) {
        Ok(run) => run,
        Err(bad) => return Err(bad),
    };
    base.piece(place, most)
}
