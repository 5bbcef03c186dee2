//! Both tables of entries, where they stand in a store: the data blocks of tables in chains lie once more behind it.

ghost use Rattle.std.specs.Prelude.{◌≡◌, ℕ, IsTrue, IfOk, IfErr, List};
ghost use Rattle.save_bytes.specs.Reads.{Reads};
ghost use Rattle.entry_tables.specs.declared.table.EntryKind.{EntryKind};
ghost use Rattle.entry_tables.specs.declared.table.EntryKind.TheVariants.{Dir, File};
ghost use Rattle.tree_rules.specs.Places.{table_info, laid_cells};
ghost use Rattle.save_mount.specs.Causes.{refusal_in};
ghost use Rattle.save_mount.specs.Audited.{AreTablesRead, HasTablesCause, AreShort, AreLong, IsAudited};
ghost use Rattle.save_mount.specs.Stored.{StandsIn, AreBlocksOf};

use crate::fault::MountFault;
use crate::tables::{Audited, audit_read, read_both, table_infos};
use chain_space::BlocksSpace;
use entry_audit::ReadTables;
use entry_tables::Counts;
use save_bytes::Space;
use std::alloc::Global;
use tree_rules::{Information, Places, TreeKind};

/// Reads both tables of a filesystem that lies in its store as its information says, `blocks` being the data blocks of
/// its tables, the directories' first. Their rules are not tried.
pub fn read_stored<S: Space>(
    alloc: Global,
    store: &mut S,
    kind: TreeKind,
    split: Option<u64>,
    info: &Information,
    places: &Places,
    blocks: &[u32],
) -> Result<(ReadTables, (Counts, Counts)), MountFault>
    requires { StandsIn (S.state store.old).shape kind split info.now places.now blocks.now }
    ensures read { let size = (S.state store.old).shape.size in IsTrue (S.state store.old).told
        → (chains : EntryKind → List ℕ) → AreBlocksOf places.now chains blocks.now → IfOk result (AreTablesRead kind split
        size info.now (table_info size places.now Dir) (table_info size places.now File)
        (laid_cells size places.now chains (S.state store.old).cells)) }
    ensures long { IfOk result AreLong }
    ensures cause { let size = (S.state store.old).shape.size in IsTrue (S.state store.old).told
        → (chains : EntryKind → List ℕ) → AreBlocksOf places.now chains blocks.now → IfErr result (HasTablesCause kind
        split size info.now (table_info size places.now Dir) (table_info size places.now File)
        (laid_cells size places.now chains (S.state store.old).cells)) }
    ensures reads { Reads S.state S.keeps S.lands store.old store.new (refusal_in result) }
{
    let size = store.len();
    let (dirs, files) = table_infos(size, places);
    let mut space = BlocksSpace::new(store, places.chain.region_at, places.chain.block, blocks);
    read_both(alloc, &mut space, kind, split, size, info, dirs, files)
}

/// Reads both tables of such a filesystem, tries their rules, and counts what can be added.
pub fn audit_tables<S: Space>(
    alloc: Global,
    store: &mut S,
    kind: TreeKind,
    split: Option<u64>,
    info: &Information,
    places: &Places,
    blocks: &[u32],
) -> Result<Audited, MountFault>
    requires { StandsIn (S.state store.old).shape kind split info.now places.now blocks.now }
    ensures audited { let size = (S.state store.old).shape.size in IsTrue (S.state store.old).told
        → (chains : EntryKind → List ℕ) → AreBlocksOf places.now chains blocks.now → IfOk result (IsAudited kind split
        size info.now (table_info size places.now Dir) (table_info size places.now File)
        (laid_cells size places.now chains (S.state store.old).cells)) }
    ensures lengths { IfOk result (λ audited. AreShort audited.read) }
    ensures dirs { IfOk result (λ audited. audited.dirs ≡ table_info (S.state store.old).shape.size places.now Dir) }
    ensures files { IfOk result (λ audited. audited.files ≡ table_info (S.state store.old).shape.size places.now File) }
    ensures cause { let size = (S.state store.old).shape.size in IsTrue (S.state store.old).told
        → (chains : EntryKind → List ℕ) → AreBlocksOf places.now chains blocks.now → IfErr result (HasTablesCause kind
        split size info.now (table_info size places.now Dir) (table_info size places.now File)
        (laid_cells size places.now chains (S.state store.old).cells)) }
    ensures reads { Reads S.state S.keeps S.lands store.old store.new (refusal_in result) }
{
    let (dirs, files) = table_infos(store.len(), places);
    match read_stored(alloc, store, kind, split, info, places, blocks) {
        Ok(found) => audit_read(alloc, found, dirs, files),
        Err(fault) => Err(fault),
    }
}
