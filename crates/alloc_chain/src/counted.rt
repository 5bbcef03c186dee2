//! A space that counts how often it is read, for tests.

ghost use Rattle.std.specs.Prelude.{◌≡◌, refl};
ghost use Rattle.std.proofs.Common.{◌∙◌};

use save_bytes::{Bad, Space};

/// A space, and how many pieces it has lent.
#[derive(Drop)]
pub(crate) struct Counted<'a, S: Space> {
    base: &'a mut S,
    pieces: u64,
}

impl<'a, S: Space> Counted<'a, S> {
    /// The space, before its first piece.
    pub(crate) fn new(base: &'a mut S) -> Counted<'a, S>
        ensures { result.base.now ≡ base.old }
    {
        Counted { base, pieces: 0 }
    }

    /// How many pieces it has lent.
    pub(crate) fn pieces(&self) -> u64 {
        self.pieces
    }
}

impl<S: Space> Space for Counted<'_, S> {
    ghost state = { λ v. S.state v.base.now };

    ghost keeps = { λ spot s t. (t.base.ghost_name ≡ s.base.ghost_name) × S.keeps spot s.base.now t.base.now };

    ghost lands = { λ v. S.lands v.base.now };

    ghost size_fits = { λ v. S.size_fits v.base.now };

    ghost plain_bytes = { λ v. S.plain_bytes v.base.now };

    ghost no_twins = { λ v. S.no_twins v.base.now };

    ghost keeps_same = { λ spot v. (refl, S.keeps_same spot v.base.now) };

    ghost keeps_join = { λ spot s t u h k. (k.0 ∙ h.0, S.keeps_join spot s.base.now t.base.now u.base.now h.1 k.1) };

    ghost keeps_hold = { λ s t h. (h.0, S.keeps_hold s.base.now t.base.now h.1) };

    ghost keeps_shape = { λ s t h. S.keeps_shape s.base.now t.base.now h.1 };

    ghost keeps_cells = { λ s t sound single told still kept.
        S.keeps_cells s.base.now t.base.now sound single told still (λ spot. (kept spot).1) };

    ghost keeps_lands = { λ s t sound single told still kept.
        S.keeps_lands s.base.now t.base.now sound single told still (λ spot. (kept spot).1) };

    fn len(&self) -> u64 {
        self.base.len()
    }

    fn piece(&mut self, at: u64, most: usize) -> Result<&[u8], Bad> {
        self.pieces = self.pieces.saturating_add(1);
        let base = &mut *self.base;
        base.piece(at, most)
    }

    fn ready(&mut self, at: u64, n: u64) -> Result<(), Bad> {
        let base = &mut *self.base;
        base.ready(at, n)
    }

    fn put(&mut self, at: u64, bytes: &[u8]) -> Result<(), Bad> {
        let base = &mut *self.base;
        base.put(at, bytes)
    }
}
