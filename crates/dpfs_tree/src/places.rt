//! Where the bytes of a view lie.

ghost use Rattle.std.specs.Prelude.{◌≡◌, ℕ, ◌+◌, ◌-◌, ◌*◌, ◌^◌, ◌<◌, ◌≤◌, IsTrue, IfOk};
ghost use Rattle.std.specs.Result.{result_err};
ghost use Rattle.save_bytes.specs.State.{IsInside};
ghost use Rattle.save_bytes.specs.Refusals.{NeverDamaged};
ghost use Rattle.dpfs_tree.specs.Picks.{bytes_of};
ghost use Rattle.difi.specs.Contents.{view_size};
ghost use Rattle.dpfs_tree.specs.Marks.{is_marked, copy_read, place_of, run_of};
ghost use Rattle.save_bytes.specs.Reads.{Reads};
ghost use Rattle.dpfs_tree.specs.View.{contents_state, HasContents, IsLocated};

use crate::bits::{copy_start, level3_copy};
use crate::state::DpfsState;
use difi::Difi;
use save_bytes::{Bad, Space};

/// How many bytes a view has.
pub(crate) fn view_len(difi: &Difi) -> u64
    ensures { view_size difi.now < 2 ^ 64 → result ≡ view_size difi.now }
{
    let external = if difi.external { difi.ivfc4.size } else { 0 };
    difi.dpfs3.size.saturating_add(external)
}

// How many bytes from a place of a view on lie in one copy of one block, or in external level four.
#[tactic(auto, unfolding(crate::specs::Marks::run_of))]
pub(crate) fn run_at(difi: &Difi, at: u64) -> u64
    requires log { difi.now.dpfs3.log ≤ 16 }
    requires inside { at < view_size difi.now }
    requires small { view_size difi.now < 2 ^ 64 }
    ensures { result ≡ run_of difi.now at }
{
    if at >= difi.dpfs3.size {
        return view_len(difi) - at;
    }
    let block = 1 << difi.dpfs3.log;
    (block - at % block).min(difi.dpfs3.size - at)
}

impl DpfsState {
    // The copy in which a block is read that this bit chooses.
    fn copy_read(&self, block: u64, chosen: u8) -> u8
        requires { chosen < 2 }
        ensures copy { result ≡ copy_read (is_marked self.now.touched.items block) chosen }
        ensures one_of_two { result < 2 }
    {
        if self.touched(block) {
            1 - chosen
        } else {
            chosen
        }
    }
}

// Where a byte of level 3 lies in the base.
fn level3_place<S: Space>(
    base: &mut S,
    part_at: u64,
    difi: &Difi,
    state: &DpfsState,
    at: u64,
) -> Result<u64, Bad>
    requires tree { HasContents (S.state base.old).shape part_at difi.now state.now.selector }
    requires inside { at < difi.now.dpfs3.size }
    ensures place { IsTrue (S.state base.old).told
        → IfOk result (λ place. place ≡ place_of (bytes_of (S.state base.old).cells) part_at difi.now state.now at) }
    ensures in_base { IfOk result (λ place. place + (difi.now.dpfs3.size - at) ≤ (S.state base.old).shape.size) }
    ensures plain { NeverDamaged (result_err result) }
    ensures reads { Reads S.state S.keeps S.lands base.old base.new (result_err result) }
{
    let block = at >> difi.dpfs3.log;
    match level3_copy(base, part_at, difi, state.selector(), block) {
        Ok(chosen) => {
            let copy = state.copy_read(block, chosen);
            Ok(copy_start(part_at, &difi.dpfs3, copy) + at)
        }
        Err(bad) => Err(bad),
    }
}

// Where a byte of a view lies in the base, with all of its run.
fn place_at<S: Space>(
    base: &mut S,
    part_at: u64,
    difi: &Difi,
    state: &DpfsState,
    at: u64,
) -> Result<u64, Bad>
    requires tree { HasContents (S.state base.old).shape part_at difi.now state.now.selector }
    requires inside { at < view_size difi.now }
    ensures place { IsTrue (S.state base.old).told
        → IfOk result (λ place. place ≡ place_of (bytes_of (S.state base.old).cells) part_at difi.now state.now at) }
    ensures in_base { IfOk result (λ place. place + run_of difi.now at ≤ (S.state base.old).shape.size) }
    ensures plain { NeverDamaged (result_err result) }
    ensures reads { Reads S.state S.keeps S.lands base.old base.new (result_err result) }
{
    if at >= difi.dpfs3.size {
        return Ok(part_at + difi.external_at + (at - difi.dpfs3.size));
    }
    level3_place(base, part_at, difi, state, at)
}

/// Where the bytes of a view from `at` on lie in its base, and how many of them lie there in one piece, up to `most`.
pub(crate) fn locate<S: Space>(
    base: &mut S,
    part_at: u64,
    difi: &Difi,
    state: &DpfsState,
    at: u64,
    most: usize,
) -> Result<(u64, usize), Bad>
    requires inside { IsInside (contents_state (S.state base.old) part_at difi.now state.now).shape at 1 }
    requires some { 1 ≤ most }
    ensures located { IsLocated (S.state base.old) part_at difi.now state.now at most result }
    ensures reads { Reads S.state S.keeps S.lands base.old base.new (result_err result) }
{
    let place = match place_at(base, part_at, difi, state, at) {
        Ok(place) => place,
        Err(bad) => return Err(bad),
    };
    let run = run_at(difi, at).min(most as u64);
    Ok((place, run as usize))
}
