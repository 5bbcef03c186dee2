//! The free list and the chains of the tables.

ghost use Rattle.std.specs.Prelude.{◌≡◌, ◌⊎◌, ℕ, ◌≤◌, ◌+◌, ◌<◌, IsTrue, IfOk, IfErr, OnOk, All, List, [], length, ◌++◌};
ghost use Rattle.save_bytes.specs.Reads.{Reads};
ghost use Rattle.chain_nodes.specs.Table.{table_in, HasAllocationTable};
ghost use Rattle.chain_nodes.specs.Chains.{IsFreeList};
ghost use Rattle.chain_nodes.specs.Faults.{IsFreeNeeded};
ghost use Rattle.held_lists.specs.Sets.{HasRoomFor};
ghost use Rattle.held_lists.specs.Walks.{TakesAll};
ghost use Rattle.tree_rules.specs.Lists.{Holder, IsTableList};
ghost use Rattle.tree_rules.specs.Places.{blocks_in_chain, table_blocks};
ghost use Rattle.save_mount.specs.Held.{TableLies, IsTableFault, TableNeeds, AreTableBlocks};
ghost use Rattle.save_mount.specs.Causes.{refusal_in, HasListCause};
ghost use Rattle.save_mount.specs.Structure.{IsFreeHeld, FailsFree, HasStructure, FailsInStructure, NeedsStructure};

use crate::fault::{MountFault, refused_list};
use crate::lists::{hold_free, hold_table};
use chain_nodes::ChainInfo;
use held_lists::{EntrySet, HoldFault};
use save_bytes::Space;
use std::alloc::Global;
use tree_rules::{Places, TableAt};

/// What the lists of a filesystem hold, those of files left out.
#[derive(Debug, Drop)]
pub struct Structure {
    /// The entries of all lists.
    pub held: EntrySet,
    /// The data blocks of both tables, the directories' first.
    pub blocks: Vec<u32>,
    /// How many blocks are free.
    pub free: u32,
}

// The free list.
fn with_free<S: Space>(
    alloc: Global,
    base: &mut S,
    info: ChainInfo,
) -> Result<Structure, MountFault>
    requires { HasAllocationTable (S.state base.old).shape info }
    ensures held { IsTrue (S.state base.old).told
        → IfOk result (IsFreeHeld (table_in (S.state base.old).cells info) info.count) }
    ensures cause { let table = table_in (S.state base.old).cells info in IsTrue (S.state base.old).told
        → IfErr result (HasListCause (S.state base.old).cells info
        (FailsFree table info.count) (IsFreeNeeded table info.count)) }
    ensures few { IfOk result (λ found. found.free ≤ info.count) }
    ensures no_blocks { IfOk result (λ found. found.blocks.items ≡ []) }
    ensures room { IfOk result (λ found. (entry : ℕ) → entry ≤ info.count → HasRoomFor found.held entry) }
    ensures reads { Reads S.state S.keeps S.lands base.old base.new (refusal_in result) }
{
    let Ok(mut held) = EntrySet::new(alloc, info.count) else {
        return Err(MountFault::Memory);
    };
    let free = match hold_free(base, info, &mut held) {
        Ok(free) => free,
        Err(fault) => return Err(refused_list(fault)),
    };
    let blocks = Vec::new(alloc);
    Ok(Structure { held, blocks, free })
}

// The chain of a table.
fn with_table<S: Space>(
    base: &mut S,
    info: ChainInfo,
    at: &TableAt,
    found: &mut Structure,
) -> Result<(), MountFault>
    requires table { HasAllocationTable (S.state base.old).shape info }
    requires lies { TableLies info.count at.now }
    requires room { (entry : ℕ) → entry ≤ info.count → HasRoomFor found.old.held entry }
    ensures held { IsTrue (S.state base.old).told → IfOk result (λ _. (list : List ℕ)
        × (IsTableList (table_in (S.state base.old).cells info) info.count at.now list
        × (TakesAll found.old.held found.new.held list
        × (found.new.blocks.items ≡ found.old.blocks.items ++ table_blocks at.now list)))) }
    ensures free { found.new.free ≡ found.old.free }
    ensures len { OnOk result (length found.new.blocks.items ≡ length found.old.blocks.items + blocks_in_chain at.now) }
    ensures inside { All (λ block. block < info.count) found.old.blocks.items
        → OnOk result (All (λ block. block < info.count) found.new.blocks.items) }
    ensures cause { let table = table_in (S.state base.old).cells info in IsTrue (S.state base.old).told
        → IfErr result (HasListCause (S.state base.old).cells info
        (IsTableFault table info.count at.now found.old.held) (TableNeeds table info.count at.now)) }
    ensures room { (entry : ℕ) → HasRoomFor found.old.held entry → HasRoomFor found.new.held entry }
    ensures reads { Reads S.state S.keeps S.lands base.old base.new (refusal_in result) }
{
    match hold_table(base, info, at, &mut found.held, &mut found.blocks) {
        Ok(()) => Ok(()),
        Err(HoldFault::Memory) => Err(MountFault::Memory),
        Err(HoldFault::Chain(fault)) => Err(refused_list(fault)),
    }
}

/// Walks the free list and the chains of both tables.
pub(crate) fn hold_structure<S: Space>(
    alloc: Global,
    base: &mut S,
    p: &Places,
) -> Result<Structure, MountFault>
    requires table { HasAllocationTable (S.state base.old).shape p.now.chain }
    requires dirs { TableLies p.now.chain.count p.now.dirs.table }
    requires files { TableLies p.now.chain.count p.now.files.table }
    ensures held { IsTrue (S.state base.old).told
        → IfOk result (λ found. (lists : Holder → List ℕ) × HasStructure (S.state base.old).cells p.now found lists) }
    ensures cause { IsTrue (S.state base.old).told → IfErr result (HasListCause (S.state base.old).cells p.now.chain
        (FailsInStructure (S.state base.old).cells p.now)
        (NeedsStructure (table_in (S.state base.old).cells p.now.chain) p.now)) }
    ensures few { IfOk result (λ found. found.free ≤ p.now.chain.count) }
    ensures blocks { IfOk result (λ found. AreTableBlocks p.now found.blocks.items) }
    ensures room { IfOk result (λ found. (entry : ℕ) → entry ≤ p.now.chain.count → HasRoomFor found.held entry) }
    ensures reads { Reads S.state S.keeps S.lands base.old base.new (refusal_in result) }
{
    let mut found = match with_free(alloc, base, p.chain) {
        Ok(found) => found,
        Err(fault) => return Err(fault),
    };
    match with_table(base, p.chain, &p.dirs.table, &mut found) {
        Ok(()) => {}
        Err(fault) => return Err(fault),
    }
    match with_table(base, p.chain, &p.files.table, &mut found) {
        Ok(()) => Ok(found),
        Err(fault) => Err(fault),
    }
}
