//! Walking a list of allocation entries under a set of those that were met.

ghost use Rattle.std.specs.Prelude.{◌≡◌, ◌≢◌, ℕ, ◌+◌, ◌-◌, ◌^◌, ◌<◌, ◌≤◌, min, IsTrue, IfOk, OnOk, All, List, length, ◌++◌, ◌∷◌, [], map, take};
ghost use Rattle.std.specs.Result.{result_err};
ghost use Rattle.std.specs.List.{range_with_len};
ghost use Rattle.save_bytes.specs.Reads.{Reads};
ghost use Rattle.chain_nodes.specs.declared.node.Lead.TheVariants.{Opens};
ghost use Rattle.chain_nodes.specs.declared.node.Node.{Node as ListNode};
ghost use Rattle.chain_nodes.specs.Table.{table_in, HasAllocationTable, IsEntry};
ghost use Rattle.chain_nodes.specs.Faults.{FailsAt, refusal_of, FaultsOnly};
ghost use Rattle.held_lists.specs.Sets.{HasRoomFor};
ghost use Rattle.held_lists.specs.Walks.{IsWalkedBy, IfWalked, IsHeldList, IsListFault, chain_fault_of};

use crate::set::{EntrySet, take_run};
use chain_nodes::{ChainFault, ChainInfo, Lead, Node, read_node};
use save_bytes::Space;
use std::alloc::AllocError;

/// A place between two nodes of a list.
#[derive(Clone, Copy, Debug, PartialEq, Eq)]
pub(crate) struct Place {
    /// How the node behind it begins.
    pub(crate) lead: Lead,
    /// The first entry of that node: 0 for none.
    pub(crate) next: u32,
    /// How many entries lie before it.
    pub(crate) passed: u32,
}

// How many entries a node has.
fn node_len(node: Node) -> u32
    requires ordered { node.first ≤ node.last }
    requires some { 1 ≤ node.first }
    ensures { result ≡ node.last + 1 - node.first }
{
    node.last - node.first + 1
}

// Goes over the node behind a place, and takes its entries in.
fn take_node<S: Space>(
    base: &mut S,
    info: ChainInfo,
    at: &mut Place,
    held: &mut EntrySet,
) -> Result<Node, ChainFault>
    requires table { HasAllocationTable (S.state base.old).shape info }
    requires next { IsEntry info.count at.old.next }
    requires passed { at.old.passed ≤ info.count }
    requires room { (entry : ℕ) → entry ≤ info.count → HasRoomFor held.old entry }
    ensures some { IfOk result (λ node. 1 ≤ node.first) }
    ensures ordered { IfOk result (λ node. node.first ≤ node.last) }
    ensures inside { IfOk result (λ node. node.last ≤ info.count) }
    ensures next { IfOk result (λ node. at.new.next ≤ info.count) }
    ensures passed { IfOk result (λ node. at.new.passed ≡ at.old.passed + (node.last + 1 - node.first)) }
    ensures bounded { IfOk result (λ node. at.new.passed ≤ info.count) }
    ensures walked { let table = table_in (S.state base.old).cells info in IsTrue (S.state base.old).told
        → (lead : Lead) (first : ℕ) (before : EntrySet) (nodes : List ListNode)
        → IsWalkedBy table info.count lead first before nodes at.old held.old
        → IfOk result (λ node. IsWalkedBy table info.count lead first before (nodes ++ node ∷ []) at.new held.new) }
    ensures faults { let table = table_in (S.state base.old).cells info in FaultsOnly (S.state base.old) info
        (λ e. IfWalked table info.count at.old held.old (λ lead first before. IsListFault table info.count lead first before e))
        (λ e. IfWalked table info.count at.old held.old (λ lead first _. FailsAt table info.count lead first e))
        (result_err result) }
    ensures room { (entry : ℕ) → HasRoomFor held.old entry → HasRoomFor held.new entry }
    ensures reads { Reads S.state S.keeps S.lands base.old base.new (refusal_of (result_err result)) }
{
    let link = match read_node(base, info, at.lead, at.next) {
        Ok(link) => link,
        Err(fault) => return Err(fault),
    };
    let node = link.node;
    let len = node_len(node);
    if let Some(entry) = take_run(held, node.first, len) {
        return Err(ChainFault::Broken { entry });
    }
    let passed = u64::from(at.passed) + u64::from(len);
    if passed > u64::from(info.count) {
        return Err(ChainFault::Broken { entry: node.first });
    }
    *at = Place {
        lead: Lead::Follows(node.first),
        next: link.next,
        passed: passed as u32,
    };
    Ok(node)
}

/// Walks the list that begins with `first`, 0 for none, and takes its entries in: how many they are. It is refused with
/// `Broken` also where an entry was in the set before, or is twice in the list.
pub fn hold_list<S: Space>(
    base: &mut S,
    info: ChainInfo,
    lead: Lead,
    first: u32,
    held: &mut EntrySet,
) -> Result<u32, ChainFault>
    requires table { HasAllocationTable (S.state base.old).shape info }
    requires first { first ≤ info.count }
    requires room { (entry : ℕ) → entry ≤ info.count → HasRoomFor held.old entry }
    ensures held { IsTrue (S.state base.old).told → IfOk result (λ n. (list : List ℕ)
        × IsHeldList (table_in (S.state base.old).cells info) info.count lead first held.old held.new list
        × (n ≡ length list)) }
    ensures small { IfOk result (λ n. n ≤ info.count) }
    ensures faults { let table = table_in (S.state base.old).cells info in
        FaultsOnly (S.state base.old) info (IsListFault table info.count lead first held.old)
        (FailsAt table info.count lead first) (result_err result) }
    ensures room { (entry : ℕ) → HasRoomFor held.old entry → HasRoomFor held.new entry }
    ensures reads { Reads S.state S.keeps S.lands base.old base.new (refusal_of (result_err result)) }
{
    let mut at = Place {
        lead,
        next: first,
        passed: 0,
    };
    while at.next != 0 {
        match take_node(base, info, &mut at, held) {
            Ok(_) => {}
            Err(fault) => return Err(fault),
        }
    }
    Ok(at.passed)
}

/// Why the blocks of a list are not given: there is no memory for them, or the list is refused.
#[derive(Clone, Copy, Debug, PartialEq, Eq)]
pub enum HoldFault {
    Memory,
    Chain(ChainFault),
}

// Adds `n` numbers, from `first` on.
fn push_run(numbers: &mut Vec<u32>, first: u32, n: u32) -> Result<(), AllocError>
    requires { first + n < 2 ^ 32 }
    ensures added { OnOk result (numbers.new.items ≡ numbers.old.items ++ range_with_len first n) }
    ensures below { (end : ℕ) → first + n ≤ end → All (λ number. number < end) numbers.old.items
        → OnOk result (All (λ number. number < end) numbers.new.items) }
{
    for number in first..first + n {
        numbers.push(number)?;
    }
    Ok(())
}

/// As `hold_list` of the chain that begins with `first`, and adds the data blocks of its first entries to `blocks`, of
/// up to `most` of them.
pub fn hold_blocks<S: Space>(
    base: &mut S,
    info: ChainInfo,
    first: u32,
    most: u32,
    held: &mut EntrySet,
    blocks: &mut Vec<u32>,
) -> Result<u32, HoldFault>
    requires table { HasAllocationTable (S.state base.old).shape info }
    requires first { IsEntry info.count first }
    requires room { (entry : ℕ) → entry ≤ info.count → HasRoomFor held.old entry }
    ensures held { IsTrue (S.state base.old).told → IfOk result (λ n. (list : List ℕ)
        × IsHeldList (table_in (S.state base.old).cells info) info.count Opens first held.old held.new list
        × ((n ≡ length list) × (blocks.new.items ≡ blocks.old.items ++ map (λ entry. entry - 1) (take most list)))) }
    ensures small { IfOk result (λ n. n ≤ info.count) }
    ensures len { IfOk result (λ n. length blocks.new.items ≡ length blocks.old.items + min most n) }
    ensures inside { All (λ block. block < info.count) blocks.old.items
        → OnOk result (All (λ block. block < info.count) blocks.new.items) }
    ensures faults { let table = table_in (S.state base.old).cells info in
        FaultsOnly (S.state base.old) info (IsListFault table info.count Opens first held.old)
        (FailsAt table info.count Opens first) (chain_fault_of result) }
    ensures room { (entry : ℕ) → HasRoomFor held.old entry → HasRoomFor held.new entry }
    ensures reads { Reads S.state S.keeps S.lands base.old base.new (refusal_of (chain_fault_of result)) }
{
    let mut at = Place {
        lead: Lead::Opens,
        next: first,
        passed: 0,
    };
    while at.next != 0 {
        let passed = at.passed;
        let node = match take_node(base, info, &mut at, held) {
            Ok(node) => node,
            Err(fault) => return Err(HoldFault::Chain(fault)),
        };
        let n = wanted(passed, at.passed, most);
        match push_run(blocks, node.first - 1, n) {
            Ok(()) => {}
            Err(_) => return Err(HoldFault::Memory),
        }
    }
    Ok(at.passed)
}

// How many of the entries from `passed` up to `behind` are among the first `most`.
fn wanted(passed: u32, behind: u32, most: u32) -> u32
    requires { passed ≤ behind }
    ensures { result ≡ min (behind - passed) (most - passed) }
{
    let len = behind - passed;
    let left = most.saturating_sub(passed);
    if len < left { len } else { left }
}
