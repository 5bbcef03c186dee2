//! What is found before the tables of entries can be read.

ghost use Rattle.std.specs.Prelude.{◌≡◌, ℕ, ◌≤◌, IsTrue, IfOk, IfErr, IfSome, None, IsErrAnd};
ghost use Rattle.save_bytes.specs.Reads.{Reads};
ghost use Rattle.container_header.specs.Conditions.{first_failing};
ghost use Rattle.held_lists.specs.Sets.{HasRoomFor};
ghost use Rattle.tree_layout.specs.Headers.{IsOther};
ghost use Rattle.tree_rules.specs.Layout.{place_faults};
ghost use Rattle.tree_rules.specs.Places.{places_of};
ghost use Rattle.save_mount.specs.Held.{AreTableBlocks};
ghost use Rattle.save_mount.specs.Causes.{refusal_in, IsNotSaveOrDisk};
ghost use Rattle.save_mount.specs.Mounts.{IsBegun, HasMountCause};

use crate::fault::MountFault;
use crate::places::read_places;
use crate::structure::{Structure, hold_structure};
use save_bytes::Space;
use std::alloc::Global;
use tree_layout::places_of;
use tree_rules::{Information, Places, TreeKind};

/// Where a filesystem lies, and what its lists hold, those of files left out.
#[derive(Debug, Drop)]
pub struct Begun {
    pub info: Information,
    pub places: Places,
    pub found: Structure,
}

/// Reads where a filesystem lies, and walks its free list and the chains of its tables.
pub fn begin<S: Space>(
    alloc: Global,
    store: &mut S,
    kind: TreeKind,
    split: Option<u64>,
) -> Result<Begun, MountFault>
    requires sound { IsTrue (S.state store.old).shape.sound }
    requires first { (S.state store.old).shape.first ≡ 0 }
    requires inside { IfSome split (λ n. n ≤ (S.state store.old).shape.size) }
    ensures begun { IsTrue (S.state store.old).told → IfOk result
        (IsBegun kind (S.state store.old).shape.size split (S.state store.old).cells) }
    ensures places { IfOk result (λ begun. begun.places ≡ places_of kind split begun.info) }
    ensures faultless { IfOk result (λ begun.
        first_failing 1 (place_faults kind split (S.state store.old).shape.size begun.info) ≡ None) }
    ensures few { IfOk result (λ begun. begun.found.free ≤ begun.places.chain.count) }
    ensures blocks { IfOk result (λ begun. AreTableBlocks begun.places begun.found.blocks.items) }
    ensures room { IfOk result (λ begun. (entry : ℕ) → entry ≤ begun.places.chain.count
        → HasRoomFor begun.found.held entry) }
    ensures cause { IsTrue (S.state store.old).told → IfErr result
        (HasMountCause kind (S.state store.old).shape.size split (S.state store.old).cells) }
    ensures not_save { IsTrue (S.state store.old).told
        → IsOther kind (S.state store.old).shape.size (S.state store.old).cells → IsErrAnd result IsNotSaveOrDisk }
    ensures reads { Reads S.state S.keeps S.lands store.old store.new (refusal_in result) }
{
    let info = match read_places(store, kind, split) {
        Ok(info) => info,
        Err(fault) => return Err(fault),
    };
    let places = places_of(kind, split, &info);
    match hold_structure(alloc, store, &places) {
        Ok(found) => Ok(Begun {
            info,
            places,
            found,
        }),
        Err(fault) => Err(fault),
    }
}
