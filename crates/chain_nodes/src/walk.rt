//! Going over the nodes of a list.

ghost use Rattle.std.specs.Prelude.{◌≡◌, ℕ, ◌+◌, ◌-◌, ◌^◌, ◌<◌, ◌≤◌, ◌↔◌, IsTrue, IfOk, IfSome, MatchOption};
ghost use Rattle.std.specs.Result.{result_err};
ghost use Rattle.save_bytes.specs.Cells.{Cell};
ghost use Rattle.save_bytes.specs.Reads.{Reads};
ghost use Rattle.chain_nodes.specs.declared.node.Lead.TheVariants.{Opens, Follows};
ghost use Rattle.chain_nodes.specs.Table.{table_in, HasAllocationTable, IsEntry};
ghost use Rattle.chain_nodes.specs.Faults.{FailsAt, IsBroken, refusal_of, FaultsOnly};
ghost use Rattle.chain_nodes.specs.Runs.{IsReached, IsListPlace, IsAtEnd, HasLength, HasPosition, IsRestOfNode};

use crate::fault::ChainFault;
use crate::info::{ChainInfo, Run};
use crate::node::{Lead, Link, Node, read_node};
use crate::shared::shared_fault;
use save_bytes::Space;

/// A place between two nodes of a list.
#[derive(Clone, Copy, Debug, PartialEq, Eq)]
pub struct Cursor {
    /// How the list begins: as a chain, or as the free list.
    pub(crate) opens: Lead,
    /// The first entry of the list.
    pub(crate) first: u32,
    /// How the node behind the cursor begins.
    pub(crate) lead: Lead,
    /// The first entry of the node behind the cursor: 0 for none.
    pub(crate) next: u32,
    /// How many blocks lie before the cursor.
    pub(crate) passed: u64,
}

// How many entries a node has.
fn node_len(node: Node) -> u32
    requires ordered { node.first ≤ node.last }
    requires some { 1 ≤ node.first }
    ensures { result ≡ node.last + 1 - node.first }
{
    node.last - node.first + 1
}

impl Cursor {
    /// The place before the first block of the chain that begins with entry `first`.
    pub fn of_chain(first: u32) -> Cursor
        ensures place { (table : ℕ → ℕ → Cell) (count : ℕ) → IsEntry count first → IsListPlace table count result }
        ensures opens { result.opens ≡ Opens }
        ensures first { result.first ≡ first }
        ensures passed { result.passed ≡ 0 }
    {
        Cursor::start(Lead::Opens, first)
    }

    /// How many blocks lie before it.
    pub fn passed(&self) -> u64
        ensures { result ≡ self.now.passed }
    {
        self.passed
    }

    /// The first entry of its list.
    pub fn first(&self) -> u32
        ensures { result ≡ self.now.first }
    {
        self.first
    }

    /// Whether the entries that it names are ones of a table of `count`, and no more blocks lie before it.
    pub fn is_within(&self, count: u32) -> bool
        ensures { IsTrue result ↔ ((self.now.first ≤ count) × (self.now.next ≤ count) × (self.now.passed ≤ count)) }
    {
        self.first <= count && self.next <= count && self.passed <= u64::from(count)
    }

    /// Whether no block lies behind it.
    pub fn is_at_end(&self) -> bool
        ensures { IsTrue result ↔ IsAtEnd self.now }
    {
        self.next == 0
    }

    /// The place before the first node of the list that begins with entry `first`.
    pub fn start(lead: Lead, first: u32) -> Cursor
        ensures place { (table : ℕ → ℕ → Cell) (count : ℕ) → first ≤ count → IsListPlace table count result }
        ensures opens { result.opens ≡ lead }
        ensures first { result.first ≡ first }
        ensures lead { result.lead ≡ lead }
        ensures next { result.next ≡ first }
        ensures passed { result.passed ≡ 0 }
    {
        Cursor {
            opens: lead,
            first,
            lead,
            next: first,
            passed: 0,
        }
    }

    // Behind the node that begins at the cursor.
    pub(crate) fn behind(self, link: Link) -> Cursor
        requires ordered { link.node.first ≤ link.node.last }
        requires some { 1 ≤ link.node.first }
        requires room { self.passed + 2 ^ 32 < 2 ^ 64 }
        ensures opens { result.opens ≡ self.opens }
        ensures first { result.first ≡ self.first }
        ensures lead { result.lead ≡ Follows link.node.first }
        ensures next { result.next ≡ link.next }
        ensures passed { result.passed ≡ self.passed + (link.node.last + 1 - link.node.first) }
    {
        Cursor {
            opens: self.opens,
            first: self.first,
            lead: Lead::Follows(link.node.first),
            next: link.next,
            passed: self.passed + u64::from(node_len(link.node)),
        }
    }
}

/// The run behind a cursor, which is a whole node, and the place behind that run.
pub fn advance<S: Space>(
    base: &mut S,
    info: ChainInfo,
    cursor: Cursor,
) -> Result<(Run, Cursor), ChainFault>
    requires table { HasAllocationTable (S.state base.old).shape info }
    requires next { IsEntry info.count cursor.next }
    requires first { cursor.first ≤ info.count }
    requires passed { cursor.passed ≤ info.count }
    ensures some { IfOk result (λ step. 1 ≤ step.0.len) }
    ensures inside { IfOk result (λ step. step.0.block + step.0.len ≤ info.count) }
    ensures opens { IfOk result (λ step. step.1.opens ≡ cursor.opens) }
    ensures first { IfOk result (λ step. step.1.first ≡ cursor.first) }
    ensures next { IfOk result (λ step. step.1.next ≤ info.count) }
    ensures passed { IfOk result (λ step. step.1.passed ≡ cursor.passed + step.0.len) }
    ensures bounded { IfOk result (λ step. step.1.passed ≤ info.count) }
    ensures reached { let table = table_in (S.state base.old).cells info in IsTrue (S.state base.old).told
        → IsReached table info.count cursor.opens cursor.first cursor
        → IfOk result (λ step. IsReached table info.count cursor.opens cursor.first step.1) }
    ensures run { let table = table_in (S.state base.old).cells info in IsTrue (S.state base.old).told
        → IsReached table info.count cursor.opens cursor.first cursor
        → IfOk result (λ step. IsRestOfNode table info.count cursor.opens cursor.first cursor.passed step.0) }
    ensures faults { let table = table_in (S.state base.old).cells info in FaultsOnly (S.state base.old) info
        (λ e. IsReached table info.count cursor.opens cursor.first cursor
        → IsBroken table info.count cursor.opens cursor.first e)
        (λ e. IsReached table info.count cursor.opens cursor.first cursor
        → FailsAt table info.count cursor.opens cursor.first e)
        (result_err result) }
    ensures reads { Reads S.state S.keeps S.lands base.old base.new (refusal_of (result_err result)) }
{
    let link = match read_node(base, info, cursor.lead, cursor.next) {
        Ok(link) => link,
        Err(fault) => return Err(fault),
    };
    let behind = cursor.behind(link);
    if behind.passed > u64::from(info.count) {
        return Err(shared_fault(base, info, cursor.opens, cursor.first, behind));
    }
    let block = link.node.first - 1;
    let len = node_len(link.node);
    Ok((Run { block, len }, behind))
}

/// How many blocks the list from `first` on has: none where `first` is 0.
pub fn list_len<S: Space>(
    base: &mut S,
    info: ChainInfo,
    lead: Lead,
    first: u32,
) -> Result<u32, ChainFault>
    requires table { HasAllocationTable (S.state base.old).shape info }
    requires first { first ≤ info.count }
    ensures length { IsTrue (S.state base.old).told
        → IfOk result (HasLength (table_in (S.state base.old).cells info) info.count lead first) }
    ensures small { IfOk result (λ n. n ≤ info.count) }
    ensures faults { let table = table_in (S.state base.old).cells info in
        FaultsOnly (S.state base.old) info (IsBroken table info.count lead first) (FailsAt table info.count lead first)
        (result_err result) }
    ensures reads { Reads S.state S.keeps S.lands base.old base.new (refusal_of (result_err result)) }
{
    let mut cursor = Cursor::start(lead, first);
    while cursor.next != 0 {
        cursor = match advance(base, info, cursor) {
            Ok((_, behind)) => behind,
            Err(fault) => return Err(fault),
        };
    }
    Ok(cursor.passed as u32)
}

/// The rest of the node that has the block at a position of the list from `first` on, or none where the list ends
/// before.
pub fn seek<S: Space>(
    base: &mut S,
    info: ChainInfo,
    lead: Lead,
    first: u32,
    pos: u32,
) -> Result<Option<Run>, ChainFault>
    requires table { HasAllocationTable (S.state base.old).shape info }
    requires first { first ≤ info.count }
    ensures some { IfOk result (λ found. IfSome found (λ run. 1 ≤ run.len)) }
    ensures inside { IfOk result (λ found. IfSome found (λ run. run.block + run.len ≤ info.count)) }
    ensures run { let table = table_in (S.state base.old).cells info in IsTrue (S.state base.old).told
        → IfOk result (λ found. MatchOption found (¬ HasPosition table info.count lead first pos)
        (IsRestOfNode table info.count lead first pos)) }
    ensures faults { let table = table_in (S.state base.old).cells info in
        FaultsOnly (S.state base.old) info (IsBroken table info.count lead first) (FailsAt table info.count lead first)
        (result_err result) }
    ensures reads { Reads S.state S.keeps S.lands base.old base.new (refusal_of (result_err result)) }
{
    let mut cursor = Cursor::start(lead, first);
    while cursor.next != 0 {
        let (run, behind) = match advance(base, info, cursor) {
            Ok(step) => step,
            Err(fault) => return Err(fault),
        };
        if u64::from(pos) < behind.passed {
            let skipped = pos - cursor.passed as u32;
            let block = run.block + skipped;
            let len = run.len - skipped;
            return Ok(Some(Run { block, len }));
        }
        cursor = behind;
    }
    Ok(None)
}
