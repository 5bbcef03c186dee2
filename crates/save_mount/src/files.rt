//! The chains of the files.

ghost use Rattle.std.specs.Prelude.{◌≡◌, ℕ, ◌<◌, ◌≤◌, ◌^◌, IsTrue, IfOk, IfErr, List, [], length};
ghost use Rattle.save_bytes.specs.Reads.{Reads};
ghost use Rattle.chain_nodes.specs.Table.{table_in, HasAllocationTable};
ghost use Rattle.entry_tables.specs.declared.table.EntryKind.TheVariants.{File};
ghost use Rattle.entry_tables.specs.Tables.{Tables};
ghost use Rattle.entry_audit.specs.Read.{IsReadOf};
ghost use Rattle.held_lists.specs.Sets.{HasRoomFor};
ghost use Rattle.tree_model.specs.declared.kind.TreeKind.TheVariants.{Save};
ghost use Rattle.tree_rules.specs.Lists.{Holder, OfFile};
ghost use Rattle.save_mount.specs.Causes.{refusal_in};
ghost use Rattle.save_mount.specs.Holders.{HoldsLists};
ghost use Rattle.save_mount.specs.Files.{AreReadFiles, HasFileList, HasNoFileLists, HasFileLists, HasFilesCause};

use crate::fault::{MountFault, refused_list};
use crate::lists::{FileFault, hold_file};
use entry_audit::ReadEntry;
use held_lists::EntrySet;
use save_bytes::Space;
use tree_rules::Places;

// The number that names the table of files.
const FILES: u8 = 3;

// Walks the chain of one file; what is not used has none.
fn hold_entry<S: Space>(
    base: &mut S,
    p: &Places,
    entry: u32,
    read: Option<ReadEntry>,
    held: &mut EntrySet,
) -> Result<(), MountFault>
    requires table { HasAllocationTable (S.state base.old).shape p.now.chain }
    requires room { (entry : ℕ) → entry ≤ p.now.chain.count → HasRoomFor held.old entry }
    ensures held { let table = table_in (S.state base.old).cells p.now.chain in IsTrue (S.state base.old).told
        → (t : Tables) (lists : Holder → List ℕ) → IsReadOf File t entry read
        → HoldsLists Save table p.now t held.old lists → lists (OfFile entry) ≡ []
        → IfOk result (λ _. (all : Holder → List ℕ) × HasFileList table p.now t entry lists held.new all) }
    ensures cause { let table = table_in (S.state base.old).cells p.now.chain in IsTrue (S.state base.old).told
        → (t : Tables) (lists : Holder → List ℕ) → IsReadOf File t entry read
        → HoldsLists Save table p.now t held.old lists → lists (OfFile entry) ≡ []
        → IfErr result (HasFilesCause table p.now t) }
    ensures room { (entry : ℕ) → HasRoomFor held.old entry → HasRoomFor held.new entry }
    ensures reads { Reads S.state S.keeps S.lands base.old base.new (refusal_in result) }
{
    let Some(file) = read else {
        return Ok(());
    };
    match hold_file(base, p.chain, file.start, file.wide, held) {
        Ok(()) => Ok(()),
        Err(FileFault::Chain(fault)) => Err(refused_list(fault)),
        Err(FileFault::Wrong) => Err(MountFault::Broken {
            table: FILES,
            entry,
        }),
    }
}

/// Walks the chains of all files that were read, by the numbers of their entries, from 0 on.
///
/// `Broken` names an allocation entry at which a chain is broken, or that stands in it twice or in another list too; or
/// a file whose first data block and size don't agree.
pub fn hold_files<S: Space>(
    base: &mut S,
    p: &Places,
    files: &[Option<ReadEntry>],
    held: &mut EntrySet,
) -> Result<(), MountFault>
    requires table { HasAllocationTable (S.state base.old).shape p.now.chain }
    requires room { (entry : ℕ) → entry ≤ p.now.chain.count → HasRoomFor held.old entry }
    requires small { length files.now < 2 ^ 32 }
    ensures held { let table = table_in (S.state base.old).cells p.now.chain in IsTrue (S.state base.old).told
        → (t : Tables) (lists : Holder → List ℕ) → AreReadFiles t files.now
        → HasNoFileLists Save table p.now t held.old lists
        → IfOk result (λ _. (all : Holder → List ℕ) × HasFileLists Save table p.now t lists held.new all) }
    ensures cause { let table = table_in (S.state base.old).cells p.now.chain in IsTrue (S.state base.old).told
        → (t : Tables) (lists : Holder → List ℕ) → AreReadFiles t files.now
        → HasNoFileLists Save table p.now t held.old lists → IfErr result (HasFilesCause table p.now t) }
    ensures room { (entry : ℕ) → HasRoomFor held.old entry → HasRoomFor held.new entry }
    ensures reads { Reads S.state S.keeps S.lands base.old base.new (refusal_in result) }
{
    for entry in 0..files.len() as u32 {
        match hold_entry(base, p, entry, files[entry as usize], held) {
            Ok(()) => {}
            Err(fault) => return Err(fault),
        }
    }
    Ok(())
}
