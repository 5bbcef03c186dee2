//! A view through the double-copy tree.

ghost use Rattle.std.specs.Prelude.{refl, ◌≡◌, ◌≤◌, length, IsTrue};
ghost use Rattle.std.specs.Result.{result_err};
ghost use Rattle.save_bytes.specs.State.{IsInside, IsWritable, CanPut};
ghost use Rattle.save_bytes.specs.Answers.{IsReady};
ghost use Rattle.save_bytes.specs.Refusals.{NeverDamaged};
ghost use Rattle.save_bytes.specs.Puts.{Puts};
ghost use Rattle.save_bytes.specs.Reads.{Reads};
ghost use Rattle.dpfs_tree.specs.Puts.{PutsInto};
ghost use Rattle.dpfs_tree.specs.View.{CanViewContents, IsLocated};
ghost use Rattle.dpfs_tree.specs.Picks.{bytes_of};
ghost use Rattle.dpfs_tree.specs.Marks.{place_of};
ghost use Rattle.dpfs_tree.specs.Held.{shown_contents, IsContentsOf, SameContents, ContentsKeep, contents_land};
ghost use Rattle.dpfs_tree.specs.Seals.{IsSealed};
ghost use Rattle.dpfs_tree.specs.Spares.{Spares};
ghost use Rattle.save_bytes.specs.Spots.{Frame, MovesOnly};
ghost use Rattle.dpfs_tree.specs.ViewLaws.{true-can_view_contents, contents_tree, view_size_fits, ContentsKeep-same, ContentsKeep-join};
ghost use Rattle.dpfs_tree.specs.ViewLaws.{contents_shape, contents_cells, contents_lands};

use crate::places::{locate, view_len};
use crate::seal::seal_in;
use crate::state::DpfsState;
use crate::write::put_in;
use difi::Difi;
use save_bytes::{Bad, Space};

/// What a partition's two copies of each level mean: the chosen bytes of level 3, a touched block from its other
/// copy, then external level four where there is one.
#[derive(Drop)]
pub struct DpfsView<'a, S: Space> {
    base: &'a mut S,
    part_at: u64,
    difi: &'a Difi,
    state: &'a mut DpfsState,
}

impl<'a, S: Space> DpfsView<'a, S> {
    /// The view of the partition that begins at `part_at` in the base.
    pub fn new(
        base: &'a mut S,
        part_at: u64,
        difi: &'a Difi,
        state: &'a mut DpfsState,
    ) -> DpfsView<'a, S>
        requires { CanViewContents (S.state base.old).shape part_at difi.now state.old }
        ensures holds { IsContentsOf result base.entry part_at difi.now state.entry }
        ensures sound { IsTrue (shown_contents S.state result).shape.sound }
    {
        DpfsView {
            base,
            part_at,
            difi,
            state,
        }
    }

    /// Where the bytes from `at` on lie in the base, and how many lie there in one piece: at least 1 and at most
    /// `most`. It is refused only where the disk below failed.
    pub fn locate(&mut self, at: u64, most: usize) -> Result<(u64, usize), Bad>
        requires inside { IsInside (shown_contents S.state self.old).shape at 1 }
        requires some { 1 ≤ most }
        ensures located { IsLocated (S.state self.old.base.now) self.old.part_at self.old.difi.now self.old.state.now at most result }
        ensures reads { Reads (shown_contents S.state) (ContentsKeep S.keeps) (contents_land S.state S.lands) self.old self.new (result_err result) }
        ensures base { Reads S.state S.keeps S.lands self.old.base.now self.new.base.now (result_err result) }
    {
        let base = &mut *self.base;
        locate(base, self.part_at, self.difi, &*self.state, at, most)
    }
}

impl<'a, S: Space> DpfsView<'a, S> {
    /// Writes which copies hold the view's bytes, and answers the selector that chooses them: the other one. The copies that
    /// are chosen keep their bytes, and so does the view. It is refused only where the disk below failed.
    pub fn seal(&mut self) -> Result<u8, Bad>
        requires { IsTrue (shown_contents S.state self.old).shape.sound }
        ensures sealed { IsSealed S.state S.keeps S.lands self.old.part_at self.old.difi.now self.old.state.now self.old.base.now
            self.new.base.now result }
        ensures spares { Spares S.state self.old.part_at self.old.difi.now self.old.state.now.selector self.old.base.now self.new.base.now
            (result_err result) }
        ensures holds { SameContents self.old self.new }
        ensures marks { self.new.state.now ≡ self.old.state.now }
    {
        let base = &mut *self.base;
        seal_in(base, self.part_at, self.difi, &*self.state)
    }
}

// A view lends from its base, and writes to the copies of its base that are not chosen.
impl<S: Space> Space for DpfsView<'_, S> {
    ghost state = { shown_contents S.state };

    ghost keeps = { ContentsKeep S.keeps };

    ghost lands = { contents_land S.state S.lands };

    ghost size_fits = { λ s. view_size_fits (S.state s.base.now) s.part_at s.difi.now s.state.now (S.size_fits s.base.now) };

    ghost plain_bytes = { λ s plain told x. S.plain_bytes s.base.now plain told
        (place_of (bytes_of (S.state s.base.now).cells) s.part_at s.difi.now s.state.now x) };

    ghost no_twins = { λ s single. record { apart = λ x y same. same; free = λ x. refl } };

    ghost keeps_same = { ContentsKeep-same S.keeps S.keeps_same };

    ghost keeps_join = { ContentsKeep-join S.keeps S.keeps_join };

    ghost keeps_hold = { λ s t h. (h.0, tt, S.keeps_hold s.base.now t.base.now h.2) };

    ghost keeps_shape = { λ s t h. contents_shape S.state s t h.0 (S.keeps_shape s.base.now t.base.now h.2) };

    ghost keeps_cells = { λ s t sound single told still kept.
        (let view = true-can_view_contents (S.state s.base.now).shape s.part_at s.difi.now s.state.now sound in
        let tree = contents_tree (S.state s.base.now).shape s.part_at s.difi.now s.state.now (S.size_fits s.base.now) sound in
        let below = S.keeps_cells s.base.now t.base.now view.sound view.single told still (λ spot. (kept spot).2) in
        contents_cells S.state s t (kept Frame).0 (kept Frame).1 tree below.0) };

    ghost keeps_lands = { λ s t sound single told still kept.
        (let view = true-can_view_contents (S.state s.base.now).shape s.part_at s.difi.now s.state.now sound in
        let tree = contents_tree (S.state s.base.now).shape s.part_at s.difi.now s.state.now (S.size_fits s.base.now) sound in
        let cells = S.keeps_cells s.base.now t.base.now view.sound view.single told still (λ spot. (kept spot).2) in
        let below = S.keeps_lands s.base.now t.base.now view.sound view.single told still (λ spot. (kept spot).2) in
        contents_lands S.state s t (kept Frame).0 S.lands tree cells.0 below) };

    fn len(&self) -> u64 {
        view_len(self.difi)
    }

    fn piece(&mut self, at: u64, most: usize) -> Result<&[u8], Bad> {
        let (place, most) = match self.locate(at, most) {
            Ok(run) => run,
            Err(bad) => return Err(bad),
        };
        let base = &mut *self.base;
        base.piece(place, most)
    }

    fn ready(&mut self, _at: u64, _n: u64) -> Result<(), Bad> {
        Ok(())
    }

    /// Beside what each space promises: only blocks that the range meets are marked, and in the base only their copies that are
    /// not chosen are written, and external level four.
    fn put(&mut self, at: u64, bytes: &[u8]) -> Result<(), Bad>
        requires { IsWritable (shown_contents S.state self.old).shape at (length bytes.now) }
        ensures ready { CanPut (shown_contents S.state self.old) at (length bytes.now)
            → IsReady (shown_contents S.state self.old) at (length bytes.now) (result_err result) }
        ensures plain { IsTrue (shown_contents S.state self.old).shape.plain → NeverDamaged (result_err result) }
        ensures puts { Puts (shown_contents S.state self.old) at bytes.now (shown_contents S.state self.new) (result_err result) }
        ensures moves { MovesOnly (ContentsKeep S.keeps) (contents_land S.state S.lands) (shown_contents S.state self.old) self.old at
            (length bytes.now) self.new (result_err result) }
        ensures into { PutsInto S.state S.keeps S.lands self.old.part_at self.old.difi.now self.old.state.now self.new.state.now at
            bytes.now self.old.base.now self.new.base.now (result_err result) }
        ensures spares { Spares S.state self.old.part_at self.old.difi.now self.old.state.now.selector self.old.base.now self.new.base.now
            (result_err result) }
    {
        let base = &mut *self.base;
        let state = &mut *self.state;
        put_in(base, self.part_at, self.difi, state, at, bytes)
    }
}
