//! A space, and behind it the bytes of a chain's blocks once more.

ghost use Rattle.std.specs.Prelude.{◌≡◌, ℕ, IsTrue, List, refl};
ghost use Rattle.std.proofs.Common.{◌∙◌, sym};
ghost use Rattle.std.proofs.lemmas.Bool.{false≢true};
ghost use Rattle.save_bytes.specs.State.{State};
ghost use Rattle.chain_nodes.specs.declared.node.Lead.TheVariants.{Opens};
ghost use Rattle.chain_nodes.specs.Table.{table_in};
ghost use Rattle.chain_nodes.specs.Chains.{IsLinkedBy};
ghost use Rattle.chain_space.specs.Shown.{chain_list, LinksBlocks, place_of, ShownLands};
ghost use Rattle.chain_space.specs.ShownLaws.{CanShow, with_blocks, shown_size_fits, shown_told, shown_twins};
ghost use Rattle.chain_space.specs.ShownLaws.{shown_shape};
ghost use Rattle.chain_space.specs.Behind.{seen, IsSpaceOver};

use crate::space::{Shown, locate, put_shown, ready_runs, shown_len};
use chain_nodes::ChainInfo;
use save_bytes::{Bad, Space};

/// The bytes of a space, and behind them the bytes of the first blocks of a chain. Each byte of these blocks has two
/// places, so what is put at one shows at the other. The allocation table may not be written through it.
#[derive(Drop)]
pub struct ChainSpace<'a, S: Space> {
    base: &'a mut S,
    shown: Shown,
}

impl<'a, S: Space> ChainSpace<'a, S> {
    /// The base, and behind it the first `blocks` blocks of the chain that begins with entry `first`.
    pub fn new(base: &'a mut S, info: ChainInfo, first: u32, blocks: u32) -> ChainSpace<'a, S>
        requires { CanShow (S.state base.old).shape info blocks }
        ensures holds { IsSpaceOver result base.entry info first blocks }
        ensures sound { IsTrue (seen S.state result).shape.sound }
        ensures told { LinksBlocks (S.state base.old) info first blocks
            → (seen S.state result).told ≡ (S.state base.old).told }
        ensures chain { LinksBlocks (S.state base.old) info first blocks → (list : List ℕ)
            → IsLinkedBy (table_in (S.state base.old).cells info) info.count Opens first list
            → chain_list (S.state base.old) info first ≡ list }
    {
        let shown = Shown {
            info,
            first,
            blocks,
        };
        ChainSpace { base, shown }
    }
}

impl<S: Space> Space for ChainSpace<'_, S> {
    ghost state = { λ v. with_blocks v.shown (S.state v.base.now) };

    ghost keeps = { λ spot s t. (t.base.ghost_name ≡ s.base.ghost_name)
        × (t.shown ≡ s.shown) × S.keeps spot s.base.now t.base.now };

    ghost lands = { λ v. ShownLands S.state S.lands v.shown.info v.shown.first v.base.now };

    ghost size_fits = { λ v. shown_size_fits v.shown (S.state v.base.now) };

    ghost plain_bytes = { λ v plain told x. S.plain_bytes v.base.now plain
        (shown_told v.shown (S.state v.base.now) told)
        (place_of (S.state v.base.now) v.shown.info v.shown.first x) };

    ghost no_twins = { λ v. shown_twins v.shown (S.state v.base.now) };

    ghost keeps_same = { λ spot v. (refl, refl, S.keeps_same spot v.base.now) };

    ghost keeps_join = { λ spot s t u h k. (
      k.0 ∙ h.0,
      k.1 ∙ h.1,
      S.keeps_join spot s.base.now t.base.now u.base.now h.2 k.2,
    ) };

    ghost keeps_hold = { λ s t h. (h.0, h.1, S.keeps_hold s.base.now t.base.now h.2) };

    ghost keeps_shape = { λ s t h. shown_shape s.shown t.shown (S.state s.base.now) (S.state t.base.now) h.1
        (S.keeps_shape s.base.now t.base.now h.2) };

    ghost keeps_cells = { λ s t sound single told still kept. absurd (false≢true (sym single)) };

    ghost keeps_lands = { λ s t sound single. absurd (false≢true (sym single)) };

    fn len(&self) -> u64 {
        self.base.len().saturating_add(shown_len(self.shown))
    }

    fn piece(&mut self, at: u64, most: usize) -> Result<&[u8], Bad> {
        let base = &mut *self.base;
        let (place, run) = match locate(base, self.shown, at, most as u64) {
            Ok(run) => run,
            Err(bad) => return Err(bad),
        };
        let base = &mut *self.base;
        base.piece(place, run as usize)
    }

    fn ready(&mut self, at: u64, n: u64) -> Result<(), Bad> {
        let base = &mut *self.base;
        ready_runs(base, self.shown, at, n)
    }

    fn put(&mut self, at: u64, bytes: &[u8]) -> Result<(), Bad> {
        let base = &mut *self.base;
        put_shown(base, self.shown, at, bytes)
    }
}
