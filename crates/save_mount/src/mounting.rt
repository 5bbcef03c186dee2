//! Mounting a filesystem as a whole.

ghost use Rattle.std.specs.Prelude.{◌≡◌, ℕ, ◌<◌, ◌≤◌, ◌^◌, IsTrue, IfOk, IfErr, IfSome, List, [], length};
ghost use Rattle.std.specs.Prelude.{IsErrAnd};
ghost use Rattle.save_bytes.specs.Reads.{Reads};
ghost use Rattle.chain_nodes.specs.Table.{table_in, HasAllocationTable};
ghost use Rattle.entry_tables.specs.Tables.{Tables};
ghost use Rattle.held_lists.specs.Sets.{HasRoomFor};
ghost use Rattle.tree_layout.specs.Headers.{IsOther};
ghost use Rattle.tree_model.specs.Trees.{Tree};
ghost use Rattle.tree_model.specs.declared.kind.TreeKind.TheVariants.{Save};
ghost use Rattle.tree_rules.specs.Lists.{Holder};
ghost use Rattle.tree_rules.specs.Reading.{TreeReadsFrom};
ghost use Rattle.save_mount.specs.Causes.{refusal_in, IsNotSaveOrDisk};
ghost use Rattle.save_mount.specs.Counts.{IsCountOf, IsUnheld};
ghost use Rattle.save_mount.specs.Files.{AreReadFiles, HasNoFileLists, HasFileLists, HasFilesCause};
ghost use Rattle.save_mount.specs.Mounts.{HasMountCause};
ghost use Rattle.save_mount.specs.Mounted.{mount_with, IsMountOf, IsPlacedMount, IsMemoryOrDisk};

use crate::audit::audit_tables;
use crate::beginning::{Begun, begin};
use crate::fault::MountFault;
use crate::files::hold_files;
use crate::structure::Structure;
use crate::tables::Audited;
use entry_audit::ReadEntry;
use entry_tables::TableInfo;
use held_lists::EntrySet;
use save_bytes::Space;
use std::alloc::Global;
use tree_model::{Room, TreeKind};
use tree_rules::{Information, Places};

/// A mounted filesystem: what is kept of its lists and tables.
#[derive(Debug, Drop)]
pub struct Mounted {
    pub kind: TreeKind,
    pub info: Information,
    pub places: Places,
    /// Where both tables stand in the store, behind which their data blocks lie once more.
    pub dirs: TableInfo,
    pub files: TableInfo,
    /// The data blocks of both tables, the directories' first.
    pub blocks: Vec<u32>,
    /// The entries of all lists: the free ones, and those of the chains of tables and files.
    pub held: EntrySet,
    pub room: Room,
    /// How many data blocks are in no chain and not free.
    pub lost: u32,
}

// Walks the chains of the files; in a VSXE no file has one.
fn hold_chains<S: Space>(
    store: &mut S,
    kind: TreeKind,
    places: &Places,
    files: &[Option<ReadEntry>],
    held: &mut EntrySet,
) -> Result<(), MountFault>
    requires table { HasAllocationTable (S.state store.old).shape places.now.chain }
    requires room { (entry : ℕ) → entry ≤ places.now.chain.count → HasRoomFor held.old entry }
    requires small { length files.now < 2 ^ 32 }
    ensures held { let table = table_in (S.state store.old).cells places.now.chain in IsTrue (S.state store.old).told
        → (t : Tables) (lists : Holder → List ℕ) → AreReadFiles t files.now
        → HasNoFileLists kind table places.now t held.old lists
        → IfOk result (λ _. (all : Holder → List ℕ) × HasFileLists kind table places.now t lists held.new all) }
    ensures cause { let table = table_in (S.state store.old).cells places.now.chain in IsTrue (S.state store.old).told
        → (t : Tables) (lists : Holder → List ℕ) → AreReadFiles t files.now
        → HasNoFileLists kind table places.now t held.old lists → IfErr result (λ fault.
        (kind ≡ Save) × HasFilesCause table places.now t fault) }
    ensures room { (entry : ℕ) → HasRoomFor held.old entry → HasRoomFor held.new entry }
    ensures reads { Reads S.state S.keeps S.lands store.old store.new (refusal_in result) }
{
    match kind {
        TreeKind::Save => hold_files(store, places, files, held),
        TreeKind::Vsxe => Ok(()),
    }
}

// How many of the entries from 1 up to `count` are in no list.
fn lost_in(held: &EntrySet, count: u32) -> u32
    requires small { count < 2 ^ 31 }
    requires room { (entry : ℕ) → entry ≤ count → HasRoomFor held.now entry }
    ensures few { result ≤ count }
    ensures lost { IsCountOf (IsUnheld count held.now) result }
{
    let mut lost = 0;
    for entry in 1..count + 1 {
        if !held.has(entry) {
            lost += 1;
        }
    }
    lost
}

// What is kept of lists and tables that are as they should be.
fn kept(
    kind: TreeKind,
    info: Information,
    places: Places,
    found: Structure,
    audited: Audited,
) -> Mounted
    requires small { places.chain.count < 2 ^ 31 }
    requires room { (entry : ℕ) → entry ≤ places.chain.count → HasRoomFor found.held entry }
    ensures is { result ≡ mount_with kind info places found audited result.lost }
    ensures lost { IsCountOf (IsUnheld places.chain.count found.held) result.lost }
    ensures few { result.lost ≤ places.chain.count }
{
    let lost = lost_in(&found.held, places.chain.count);
    let Structure { held, blocks, free } = found;
    let room = Room {
        blocks: free,
        dirs: audited.free_dirs,
        files: audited.free_files,
    };
    Mounted {
        kind,
        info,
        places,
        dirs: audited.dirs,
        files: audited.files,
        blocks,
        held,
        room,
        lost,
    }
}

/// Mounts the filesystem of a store of at most 67,108,864 bytes, whose first part ends at `split`, if there is one.
///
/// All bytes that are needed are read, and each rule is checked. `NotSave` comes exactly where the store is too short
/// for a header, or begins with eight bytes of something else. `Layout` names the first condition that fails on where
/// all lies. `Broken` names an entry at which a rule fails, and `Damaged` what a needed cell names that is no byte.
pub fn mount<S: Space>(
    alloc: Global,
    store: &mut S,
    kind: TreeKind,
    split: Option<u64>,
) -> Result<Mounted, MountFault>
    requires sound { IsTrue (S.state store.old).shape.sound }
    requires first { (S.state store.old).shape.first ≡ 0 }
    requires small { (S.state store.old).shape.size ≤ 67108864 }
    requires inside { IfSome split (λ n. n ≤ (S.state store.old).shape.size) }
    ensures mounted { let s = S.state store.old in IsTrue s.told → IfOk result
        (λ m. (lists : Holder → List ℕ) × IsMountOf kind s.shape.size split s.cells m lists) }
    ensures known { IfOk result (IsPlacedMount kind split (S.state store.old).shape.size) }
    ensures cause { let s = S.state store.old in IsTrue s.told
        → IfErr result (HasMountCause kind s.shape.size split s.cells) }
    ensures exact { let s = S.state store.old in IsTrue s.told → (tree : Tree)
        → TreeReadsFrom kind s.shape.size split s.cells tree → IfErr result IsMemoryOrDisk }
    ensures not_save { let s = S.state store.old in IsTrue s.told
        → IsOther kind s.shape.size s.cells → IsErrAnd result IsNotSaveOrDisk }
    ensures reads { Reads S.state S.keeps S.lands store.old store.new (refusal_in result) }
{
    let begun = match begin(alloc, store, kind, split) {
        Ok(begun) => begun,
        Err(fault) => return Err(fault),
    };
    let Begun {
        info,
        places,
        mut found,
    } = begun;
    let audited = match audit_tables(alloc, store, kind, split, &info, &places, &found.blocks) {
        Ok(audited) => audited,
        Err(fault) => return Err(fault),
    };
    match hold_chains(
        store,
        kind,
        &places,
        &audited.read.files.entries,
        &mut found.held,
    ) {
        Ok(()) => Ok(kept(kind, info, places, found, audited)),
        Err(fault) => Err(fault),
    }
}
