//! The nodes of a list: runs of entries that follow each other.

ghost use Rattle.std.specs.Prelude.{◌≡◌, ℕ, ◌+◌, ◌%◌, ◌^◌, ◌<◌, ◌≤◌, ◌↔◌, IsTrue, IfOk};
ghost use Rattle.std.specs.Result.{result_err};
ghost use Rattle.save_bytes.specs.Refusals.{IfDamaged, NeverDamaged};
ghost use Rattle.save_bytes.specs.Reads.{Reads};
ghost use Rattle.chain_nodes.specs.Table.{table_in, word_u, word_v, index_of, flagged, HasWords, HasFault};
ghost use Rattle.chain_nodes.specs.Table.{HasAllocationTable, IsEntry};
ghost use Rattle.chain_nodes.specs.Chains.{IsLead, IsInner, IsNode};
ghost use Rattle.chain_nodes.specs.Faults.{IsLong, IsHead, IsSecond, IsFaulty, refusal_of, FaultsOnly};

use crate::fault::ChainFault;
use crate::info::ChainInfo;
use save_bytes::{Bad, Space, space_copy, u32_at};

/// The flag of a word, which is bit 31.
pub const FLAG: u32 = 0x8000_0000;

/// The two words of an entry.
#[derive(Clone, Copy)]
pub struct Entry {
    pub u: u32,
    pub v: u32,
}

/// A run of entries that follow each other.
#[derive(Clone, Copy, Debug, PartialEq, Eq)]
pub struct Node {
    pub first: u32,
    pub last: u32,
}

/// A node, and where the one behind it begins: 0 for none.
#[derive(Clone, Copy)]
pub struct Link {
    pub node: Node,
    pub next: u32,
}

/// How a node begins, by its place in a list.
#[derive(Clone, Copy, Debug, PartialEq, Eq)]
pub enum Lead {
    /// The first node of a chain.
    Opens,
    /// The first node of the free list.
    OpensFree,
    /// A node behind the one with this first entry.
    Follows(u32),
}

impl Lead {
    // Whether the first entry of a node may have this word U.
    fn allows(self, u: u32) -> bool
        ensures { IsTrue result ↔ IsLead self u }
    {
        match self {
            Lead::Opens => u == FLAG,
            Lead::OpensFree => u % FLAG == 0,
            Lead::Follows(before) => u == before,
        }
    }
}

/// Reads an entry's words, by one copy of its eight bytes.
pub fn read_entry<S: Space>(base: &mut S, info: ChainInfo, entry: u32) -> Result<Entry, Bad>
    requires table { HasAllocationTable (S.state base.old).shape info }
    requires inside { entry ≤ info.count }
    ensures words { let table = table_in (S.state base.old).cells info in IsTrue (S.state base.old).told
        → IfOk result (λ e. HasWords table entry × (e.u ≡ word_u table entry) × (e.v ≡ word_v table entry)) }
    ensures damaged { IsTrue (S.state base.old).told
        → IfDamaged (result_err result) (HasFault (table_in (S.state base.old).cells info) entry) }
    ensures plain { IsTrue (S.state base.old).shape.plain → NeverDamaged (result_err result) }
    ensures reads { Reads S.state S.keeps S.lands base.old base.new (result_err result) }
{
    let mut words = [0; 8];
    match space_copy(base, info.table_at + 8 * u64::from(entry), &mut words) {
        Ok(()) => Ok(Entry {
            u: u32_at(&words, 0),
            v: u32_at(&words, 4),
        }),
        Err(bad) => Err(bad),
    }
}

// Reads the first entry of a node, and gives its word V.
fn read_head<S: Space>(
    base: &mut S,
    info: ChainInfo,
    lead: Lead,
    first: u32,
) -> Result<u32, ChainFault>
    requires table { HasAllocationTable (S.state base.old).shape info }
    requires entry { IsEntry info.count first }
    ensures head { let table = table_in (S.state base.old).cells info in IsTrue (S.state base.old).told
        → IfOk result (λ v. IsHead table info.count lead first × (v ≡ word_v table first)) }
    ensures next { IfOk result (λ v. v % 2 ^ 31 ≤ info.count) }
    ensures room { IfOk result (λ v. 2 ^ 31 ≤ v → first < info.count) }
    ensures flag { IfOk result (λ v. 2 ^ 31 ≤ v → v ≡ flagged (index_of v)) }
    ensures faults { let table = table_in (S.state base.old).cells info in
        FaultsOnly (S.state base.old) info (λ e. HasWords table e × IsFaulty table info.count lead first e)
        (IsFaulty table info.count lead first) (result_err result) }
    ensures reads { Reads S.state S.keeps S.lands base.old base.new (refusal_of (result_err result)) }
{
    let entry = match read_entry(base, info, first) {
        Ok(entry) => entry,
        Err(bad) => return Err(ChainFault::Bad(bad)),
    };
    let lacks_second = entry.v >= FLAG && first == info.count;
    if !lead.allows(entry.u) || entry.v % FLAG > info.count || lacks_second {
        return Err(ChainFault::Broken { entry: first });
    }
    Ok(entry.v)
}

// Reads the second entry of a node, and gives its last one.
fn read_second<S: Space>(base: &mut S, info: ChainInfo, first: u32) -> Result<u32, ChainFault>
    requires table { HasAllocationTable (S.state base.old).shape info }
    requires room { first < info.count }
    ensures second { let table = table_in (S.state base.old).cells info in IsTrue (S.state base.old).told
        → IfOk result (λ last. IsSecond table info.count first × (last ≡ word_v table (first + 1))) }
    ensures behind { IfOk result (λ last. first < last) }
    ensures inside { IfOk result (λ last. last ≤ info.count) }
    ensures faults { let table = table_in (S.state base.old).cells info in
        FaultsOnly (S.state base.old) info (λ e. HasWords table e × (e ≡ first + 1) × ¬ IsSecond table info.count first)
        (λ e. (e ≡ first + 1) × ¬ IsSecond table info.count first) (result_err result) }
    ensures reads { Reads S.state S.keeps S.lands base.old base.new (refusal_of (result_err result)) }
{
    let entry = match read_entry(base, info, first + 1) {
        Ok(entry) => entry,
        Err(bad) => return Err(ChainFault::Bad(bad)),
    };
    if entry.u != FLAG + first || entry.v <= first || entry.v > info.count {
        return Err(ChainFault::Broken { entry: first + 1 });
    }
    Ok(entry.v)
}

// Reads the last entry of a node of more than one.
fn read_last<S: Space>(base: &mut S, info: ChainInfo, node: Node) -> Result<(), ChainFault>
    requires table { HasAllocationTable (S.state base.old).shape info }
    requires inside { node.last ≤ info.count }
    requires ordered { node.first < node.last }
    ensures last { IsTrue (S.state base.old).told
        → IfOk result (λ _. IsInner (table_in (S.state base.old).cells info) node node.last) }
    ensures faults { let table = table_in (S.state base.old).cells info in
        FaultsOnly (S.state base.old) info (λ e. HasWords table e × (e ≡ node.last) × ¬ IsInner table node node.last)
        (λ e. (e ≡ node.last) × ¬ IsInner table node node.last) (result_err result) }
    ensures reads { Reads S.state S.keeps S.lands base.old base.new (refusal_of (result_err result)) }
{
    let entry = match read_entry(base, info, node.last) {
        Ok(entry) => entry,
        Err(bad) => return Err(ChainFault::Bad(bad)),
    };
    if entry.u != FLAG + node.first || entry.v != node.last {
        return Err(ChainFault::Broken { entry: node.last });
    }
    Ok(())
}

/// Reads the node that begins with an entry.
pub fn read_node<S: Space>(
    base: &mut S,
    info: ChainInfo,
    lead: Lead,
    first: u32,
) -> Result<Link, ChainFault>
    requires table { HasAllocationTable (S.state base.old).shape info }
    requires entry { IsEntry info.count first }
    ensures node { IsTrue (S.state base.old).told
        → IfOk result (λ link. IsNode (table_in (S.state base.old).cells info) info.count lead link.node link.next) }
    ensures first { IfOk result (λ link. link.node.first ≡ first) }
    ensures ordered { IfOk result (λ link. first ≤ link.node.last) }
    ensures inside { IfOk result (λ link. link.node.last ≤ info.count) }
    ensures next { IfOk result (λ link. link.next ≤ info.count) }
    ensures faults { let table = table_in (S.state base.old).cells info in
        FaultsOnly (S.state base.old) info (λ e. HasWords table e × IsFaulty table info.count lead first e)
        (IsFaulty table info.count lead first) (result_err result) }
    ensures reads { Reads S.state S.keeps S.lands base.old base.new (refusal_of (result_err result)) }
{
    let v = match read_head(base, info, lead, first) {
        Ok(v) => v,
        Err(fault) => return Err(fault),
    };
    let next = v % FLAG;
    if v < FLAG {
        let node = Node { first, last: first };
        return Ok(Link { node, next });
    }
    let last = match read_second(base, info, first) {
        Ok(last) => last,
        Err(fault) => return Err(fault),
    };
    let node = Node { first, last };
    match read_last(base, info, node) {
        Ok(()) => Ok(Link { node, next }),
        Err(fault) => Err(fault),
    }
}
