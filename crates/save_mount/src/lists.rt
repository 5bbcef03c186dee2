//! The lists of allocation entries, each walked once.

ghost use Rattle.std.specs.Prelude.{◌≡◌, ◌≢◌, ◌⊎◌, ℕ, ◌+◌, ◌<◌, ◌≤◌, IsTrue, IfOk, OnOk, All, List, [], length, ◌++◌};
ghost use Rattle.std.specs.Result.{result_err};
ghost use Rattle.save_bytes.specs.Reads.{Reads};
ghost use Rattle.chain_nodes.specs.declared.node.Lead.TheVariants.{Opens};
ghost use Rattle.chain_nodes.specs.Table.{table_in, HasAllocationTable};
ghost use Rattle.chain_nodes.specs.Chains.{IsFreeList};
ghost use Rattle.chain_nodes.specs.Faults.{FailsAt, IsFreeNeeded, refusal_of, FaultsOnly};
ghost use Rattle.held_lists.specs.Sets.{HasRoomFor};
ghost use Rattle.held_lists.specs.Walks.{TakesAll, IsListFault, chain_fault_of};
ghost use Rattle.tree_rules.specs.Lists.{IsTableList, IsFileList};
ghost use Rattle.tree_rules.specs.Places.{blocks_in_chain, table_blocks};
ghost use Rattle.save_mount.specs.Held.{
  IsFreeFault,
  TableLies,
  IsTableFault,
  TableNeeds,
  IsFileFault,
  FileNeeds,
  HasFileCause,
  file_refusal,
};

use chain_nodes::{ChainFault, ChainInfo, FLAG, Lead, read_entry};
use held_lists::{EntrySet, HoldFault, hold_blocks, hold_list};
use save_bytes::Space;
use tree_rules::TableAt;

/// What a file without data blocks has as its first.
const NO_BLOCK: u32 = 0x8000_0000;

/// Walks the free list: how many blocks it has.
pub fn hold_free<S: Space>(
    base: &mut S,
    info: ChainInfo,
    held: &mut EntrySet,
) -> Result<u32, ChainFault>
    requires table { HasAllocationTable (S.state base.old).shape info }
    requires room { (entry : ℕ) → entry ≤ info.count → HasRoomFor held.old entry }
    ensures held { IsTrue (S.state base.old).told → IfOk result (λ n. (list : List ℕ)
        × (IsFreeList (table_in (S.state base.old).cells info) info.count list
        × (TakesAll held.old held.new list × (n ≡ length list)))) }
    ensures small { IfOk result (λ n. n ≤ info.count) }
    ensures faults { let table = table_in (S.state base.old).cells info in
        FaultsOnly (S.state base.old) info (IsFreeFault table info.count held.old)
        (IsFreeNeeded table info.count) (result_err result) }
    ensures room { (entry : ℕ) → HasRoomFor held.old entry → HasRoomFor held.new entry }
    ensures reads { Reads S.state S.keeps S.lands base.old base.new (refusal_of (result_err result)) }
{
    let root = match read_entry(base, info, 0) {
        Ok(root) => root,
        Err(bad) => return Err(ChainFault::Bad(bad)),
    };
    let first = root.v % FLAG;
    if first > info.count {
        return Err(ChainFault::Broken { entry: 0 });
    }
    match hold_list(base, info, Lead::OpensFree, first, held) {
        Ok(len) => Ok(len),
        Err(fault) => Err(fault),
    }
}

/// Walks the chain of a table, if it lies in one, and adds the data blocks of the table to `blocks`.
pub fn hold_table<S: Space>(
    base: &mut S,
    info: ChainInfo,
    at: &TableAt,
    held: &mut EntrySet,
    blocks: &mut Vec<u32>,
) -> Result<(), HoldFault>
    requires table { HasAllocationTable (S.state base.old).shape info }
    requires lies { TableLies info.count at.now }
    requires room { (entry : ℕ) → entry ≤ info.count → HasRoomFor held.old entry }
    ensures held { IsTrue (S.state base.old).told → IfOk result (λ _. (list : List ℕ)
        × (IsTableList (table_in (S.state base.old).cells info) info.count at.now list
        × (TakesAll held.old held.new list
        × (blocks.new.items ≡ blocks.old.items ++ table_blocks at.now list)))) }
    ensures len { OnOk result (length blocks.new.items ≡ length blocks.old.items + blocks_in_chain at.now) }
    ensures inside { All (λ block. block < info.count) blocks.old.items
        → OnOk result (All (λ block. block < info.count) blocks.new.items) }
    ensures faults { let table = table_in (S.state base.old).cells info in
        FaultsOnly (S.state base.old) info (IsTableFault table info.count at.now held.old)
        (TableNeeds table info.count at.now) (chain_fault_of result) }
    ensures room { (entry : ℕ) → HasRoomFor held.old entry → HasRoomFor held.new entry }
    ensures reads { Reads S.state S.keeps S.lands base.old base.new (refusal_of (chain_fault_of result)) }
{
    match *at {
        TableAt::Plainly(_) => Ok(()),
        TableAt::InChain {
            first,
            blocks: most,
        } => {
            let entry = first + 1;
            let len = match hold_blocks(base, info, entry, most, held, blocks) {
                Ok(len) => len,
                Err(fault) => return Err(fault),
            };
            if len < most {
                return Err(HoldFault::Chain(ChainFault::Broken { entry }));
            }
            Ok(())
        }
    }
}

/// Why a file is refused: its chain is, or its first data block and its size don't agree.
#[derive(Clone, Copy, Debug, PartialEq, Eq)]
pub enum FileFault {
    Chain(ChainFault),
    Wrong,
}

/// Walks the chain of a file with this first data block and this many bytes.
pub fn hold_file<S: Space>(
    base: &mut S,
    info: ChainInfo,
    start: u32,
    size: u64,
    held: &mut EntrySet,
) -> Result<(), FileFault>
    requires table { HasAllocationTable (S.state base.old).shape info }
    requires room { (entry : ℕ) → entry ≤ info.count → HasRoomFor held.old entry }
    ensures held { IsTrue (S.state base.old).told → IfOk result (λ _. (list : List ℕ)
        × (IsFileList (table_in (S.state base.old).cells info) info start size list × TakesAll held.old held.new list)) }
    ensures faults { HasFileCause (S.state base.old) info start size held.old result }
    ensures room { (entry : ℕ) → HasRoomFor held.old entry → HasRoomFor held.new entry }
    ensures reads { Reads S.state S.keeps S.lands base.old base.new (file_refusal result) }
{
    if start == NO_BLOCK {
        return if size == 0 {
            Ok(())
        } else {
            Err(FileFault::Wrong)
        };
    }
    if start >= info.count {
        return Err(FileFault::Wrong);
    }
    let len = match hold_list(base, info, Lead::Opens, start + 1, held) {
        Ok(len) => len,
        Err(fault) => return Err(FileFault::Chain(fault)),
    };
    if u64::from(len) * u64::from(info.block) < size {
        return Err(FileFault::Wrong);
    }
    Ok(())
}
