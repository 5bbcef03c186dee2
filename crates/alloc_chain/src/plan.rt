//! Going to the places of lists where a swap writes.

ghost use Rattle.std.specs.Prelude.{◌≡◌, ◌≢◌, ℕ, ◌+◌, ◌*◌, ◌^◌, ◌<◌, ◌≤◌, IsTrue, List, [], length, Some, IfOk};
ghost use Rattle.std.specs.Result.{result_err};
ghost use Rattle.save_bytes.specs.Refusals.{NeverDamaged};
ghost use Rattle.save_bytes.specs.Reads.{Reads};
ghost use Rattle.chain_nodes.specs.declared.node.Node.{Node};
ghost use Rattle.chain_nodes.specs.declared.node.Lead.{Lead};
ghost use Rattle.chain_nodes.specs.Table.{table_in, HasAllocationTable, IsEntry};
ghost use Rattle.chain_nodes.specs.Chains.{start_of, AreNodes, entries_of};
ghost use Rattle.chain_nodes.specs.Faults.{refusal_of};
ghost use Rattle.chain_nodes.specs.Runs.{DoneUnlessDisk};
ghost use Rattle.chain_nodes.specs.declared.node.Lead.TheVariants.{Opens, OpensFree};
ghost use Rattle.alloc_chain.specs.Plans.{IsInTable, IsNodeAt, IsLastOf, IsFirstOf, EnoughUnlessDisk, IsBoundary, IsBoundaryIn};
ghost use Rattle.alloc_chain.specs.Plans.{IsPlan, IsPlanIn, CanPlan};
ghost use Rattle.chain_nodes.specs.Edits.{AreFreeNodes};

use crate::lists::free_first;
use chain_nodes::{ChainFault, ChainInfo, Lead, Node, read_node};
use save_bytes::Space;

/// A node of a list, where the one behind it begins, and how many blocks of the list lie up to its end.
#[derive(Clone, Copy)]
pub(crate) struct NodeAt {
    pub(crate) node: Node,
    pub(crate) next: u32,
    pub(crate) end: u64,
}

/// Where lists are cut: behind the entry `middle` of a node. The node behind that one begins with `next`.
#[derive(Clone, Copy)]
pub(crate) struct Boundary {
    pub(crate) node: Node,
    pub(crate) middle: u32,
    pub(crate) next: u32,
}

/// A chain that is given back: its first entry, and its last node.
#[derive(Clone, Copy)]
pub(crate) struct Given {
    pub(crate) first: u32,
    pub(crate) tail: Node,
}

/// What a swap writes: a chain is given back, if there is one, the free list begins with `head`, and the blocks up to the
/// boundary are taken, if there is one.
#[derive(Clone, Copy)]
pub(crate) struct Plan {
    pub(crate) given: Option<Given>,
    pub(crate) head: u32,
    pub(crate) boundary: Option<Boundary>,
}

/// Reads the node that begins with an entry, with so many blocks before it.
pub(crate) fn read_at<S: Space>(
    base: &mut S,
    info: ChainInfo,
    lead: Lead,
    first: u32,
    passed: u64,
) -> Result<NodeAt, ChainFault>
    requires table { HasAllocationTable (S.state base.old).shape info }
    requires entry { IsEntry info.count first }
    requires passed { passed ≤ 2 * info.count }
    ensures in_table { IfOk result (IsInTable info.count) }
    ensures counted { IfOk result (λ at. at.end + at.node.first ≡ passed + at.node.last + 1) }
    ensures exact { IsTrue (S.state base.old).told → (nodes : List Node)
        → AreNodes (table_in (S.state base.old).cells info) info.count lead nodes 0 → start_of nodes 0 ≡ first
        → DoneUnlessDisk result (IsFirstOf nodes) }
    ensures plain { IsTrue (S.state base.old).shape.plain → NeverDamaged (refusal_of (result_err result)) }
    ensures reads { Reads S.state S.keeps S.lands base.old base.new (refusal_of (result_err result)) }
{
    match read_node(base, info, lead, first) {
        Ok(link) => Ok(NodeAt {
            node: link.node,
            next: link.next,
            end: passed + u64::from(link.node.last - link.node.first + 1),
        }),
        Err(fault) => Err(fault),
    }
}

/// Goes on from a node up to the one that has block number `pos`, or to the last one where the list ends before.
pub(crate) fn walk_on<S: Space>(
    base: &mut S,
    info: ChainInfo,
    from: NodeAt,
    pos: u64,
) -> Result<NodeAt, ChainFault>
    requires table { HasAllocationTable (S.state base.old).shape info }
    requires in_table { IsInTable info.count from }
    requires end { from.end ≤ 3 * info.count }
    ensures in_table { IfOk result (IsInTable info.count) }
    ensures end { IfOk result (λ at. at.end ≤ 3 * info.count) }
    ensures found { IfOk result (λ at. at.next ≢ 0 → pos < at.end) }
    ensures low { from.end + from.node.first ≤ pos + from.node.last + 1
        → IfOk result (λ at. at.end + at.node.first ≤ pos + at.node.last + 1) }
    ensures still { from.next ≡ 0 → IfOk result (λ at. at.end ≡ from.end) }
    ensures exact { IsTrue (S.state base.old).told → (lead : Lead) (nodes : List Node) (before : ℕ)
        → AreNodes (table_in (S.state base.old).cells info) info.count lead nodes 0
        → before + length (entries_of nodes) ≤ 2 * info.count → IsNodeAt nodes before from
        → DoneUnlessDisk result (IsNodeAt nodes before) }
    ensures plain { IsTrue (S.state base.old).shape.plain → NeverDamaged (refusal_of (result_err result)) }
    ensures reads { Reads S.state S.keeps S.lands base.old base.new (refusal_of (result_err result)) }
{
    let mut at = from;
    while at.next != 0 && at.end <= pos {
        if at.end > 2 * u64::from(info.count) {
            return Err(ChainFault::Broken { entry: at.next });
        }
        let lead = Lead::Follows(at.node.first);
        at = match read_at(base, info, lead, at.next, at.end) {
            Ok(behind) => behind,
            Err(fault) => return Err(fault),
        };
    }
    Ok(at)
}

// The node that has block number `pos` of the list that begins with an entry, or the last one where the list ends before.
// So many blocks lie before the list.
fn node_at<S: Space>(
    base: &mut S,
    info: ChainInfo,
    lead: Lead,
    first: u32,
    passed: u64,
    pos: u64,
) -> Result<NodeAt, ChainFault>
    requires table { HasAllocationTable (S.state base.old).shape info }
    requires entry { IsEntry info.count first }
    requires passed { passed ≤ info.count }
    ensures in_table { IfOk result (IsInTable info.count) }
    ensures end { IfOk result (λ at. at.end ≤ 3 * info.count) }
    ensures found { IfOk result (λ at. at.next ≢ 0 → pos < at.end) }
    ensures low { passed ≤ pos → IfOk result (λ at. at.end + at.node.first ≤ pos + at.node.last + 1) }
    ensures exact { IsTrue (S.state base.old).told → (nodes : List Node)
        → AreNodes (table_in (S.state base.old).cells info) info.count lead nodes 0 → start_of nodes 0 ≡ first
        → length (entries_of nodes) ≤ info.count → DoneUnlessDisk result (IsNodeAt nodes passed) }
    ensures plain { IsTrue (S.state base.old).shape.plain → NeverDamaged (refusal_of (result_err result)) }
    ensures reads { Reads S.state S.keeps S.lands base.old base.new (refusal_of (result_err result)) }
{
    match read_at(base, info, lead, first, passed) {
        Ok(start) => walk_on(base, info, start, pos),
        Err(fault) => Err(fault),
    }
}

// How many blocks these are, where the number fits.
fn blocks(n: u64) -> u32
    ensures { n < 2 ^ 32 → result ≡ n }
{
    n.min(u64::from(u32::MAX)) as u32
}

// The boundary behind block number `n` - 1, which lies in a node.
fn boundary_at(at: NodeAt, next: u32, n: u64) -> Boundary
    requires ordered { at.node.first ≤ at.node.last }
    requires within { n ≤ at.end }
    requires behind { at.end + at.node.first ≤ n + at.node.last }
    ensures node { result.node ≡ at.node }
    ensures next { result.next ≡ next }
    ensures counted { result.middle + at.end ≡ n + at.node.last }
{
    Boundary {
        node: at.node,
        middle: at.node.last - (at.end - n) as u32,
        next,
    }
}

// The boundary in the free list, which begins with `head`, where `from` blocks lie before the free ones and `n` are taken.
fn free_boundary<S: Space>(
    base: &mut S,
    info: ChainInfo,
    head: u32,
    from: u64,
    n: u64,
) -> Result<Boundary, ChainFault>
    requires table { HasAllocationTable (S.state base.old).shape info }
    requires head { head ≤ info.count }
    requires small { from ≤ info.count }
    requires more { from < n }
    ensures in_table { IfOk result (IsBoundaryIn info.count) }
    ensures exact { IsTrue (S.state base.old).told → (nodes : List Node)
        → AreNodes (table_in (S.state base.old).cells info) info.count OpensFree nodes 0 → start_of nodes 0 ≡ head
        → length (entries_of nodes) ≤ info.count
        → EnoughUnlessDisk n (from + length (entries_of nodes)) result (IsBoundary nodes from n) }
    ensures plain { IsTrue (S.state base.old).shape.plain → NeverDamaged (refusal_of (result_err result)) }
    ensures reads { Reads S.state S.keeps S.lands base.old base.new (refusal_of (result_err result)) }
{
    if head == 0 {
        let have = blocks(from);
        return Err(ChainFault::Short { need: n, have });
    }
    let at = match node_at(base, info, Lead::OpensFree, head, from, n - 1) {
        Ok(at) => at,
        Err(fault) => return Err(fault),
    };
    if at.end < n {
        let have = blocks(at.end);
        return Err(ChainFault::Short { need: n, have });
    }
    Ok(boundary_at(at, at.next, n))
}

// The node of a chain that has block number `n` - 1, or the first or the last one where there is none, and the last one.
fn old_ends<S: Space>(
    base: &mut S,
    info: ChainInfo,
    first: u32,
    n: u64,
) -> Result<(NodeAt, NodeAt), ChainFault>
    requires table { HasAllocationTable (S.state base.old).shape info }
    requires entry { IsEntry info.count first }
    ensures in_table { IfOk result (λ ends. IsInTable info.count ends.0) }
    ensures last_in_table { IfOk result (λ ends. IsInTable info.count ends.1) }
    ensures found { IfOk result (λ ends. ends.0.next ≢ 0 → n ≤ ends.0.end) }
    ensures low { 1 ≤ n → IfOk result (λ ends. ends.0.end + ends.0.node.first ≤ n + ends.0.node.last) }
    ensures still { IfOk result (λ ends. ends.0.next ≡ 0 → ends.1.end ≡ ends.0.end) }
    ensures last { IfOk result (λ ends. ends.1.next ≡ 0) }
    ensures small { IfOk result (λ ends. ends.1.end ≤ info.count) }
    ensures exact { IsTrue (S.state base.old).told → (nodes : List Node)
        → AreNodes (table_in (S.state base.old).cells info) info.count Opens nodes 0 → start_of nodes 0 ≡ first
        → length (entries_of nodes) ≤ info.count
        → DoneUnlessDisk result (λ ends. IsNodeAt nodes 0 ends.0 × IsLastOf nodes first ends.1) }
    ensures plain { IsTrue (S.state base.old).shape.plain → NeverDamaged (refusal_of (result_err result)) }
    ensures reads { Reads S.state S.keeps S.lands base.old base.new (refusal_of (result_err result)) }
{
    let at = match node_at(base, info, Lead::Opens, first, 0, n.saturating_sub(1)) {
        Ok(at) => at,
        Err(fault) => return Err(fault),
    };
    let tail = match walk_on(base, info, at, u64::MAX) {
        Ok(tail) => tail,
        Err(fault) => return Err(fault),
    };
    if tail.end > u64::from(info.count) {
        return Err(ChainFault::Broken { entry: first });
    }
    Ok((at, tail))
}

// Where the node begins that is behind one of the old chain, with the free nodes behind its last one.
fn next_or(next: u32, head: u32) -> u32
    ensures none { next ≡ 0 → result ≡ head }
    ensures some { next ≢ 0 → result ≡ next }
{
    if next == 0 { head } else { next }
}

// The plan where a chain is given back that begins with `first`. The free list begins with `head`.
fn plan_given<S: Space>(
    base: &mut S,
    info: ChainInfo,
    first: u32,
    head: u32,
    n: u64,
) -> Result<Plan, ChainFault>
    requires table { HasAllocationTable (S.state base.old).shape info }
    requires head { head ≤ info.count }
    ensures in_table { IfOk result (IsPlanIn info.count) }
    ensures exact { IsTrue (S.state base.old).told → (old free : List Node)
        → CanPlan (table_in (S.state base.old).cells info) info.count (Some first) old free → start_of free 0 ≡ head
        → EnoughUnlessDisk n (length (entries_of old) + length (entries_of free)) result (IsPlan old free n) }
    ensures plain { IsTrue (S.state base.old).shape.plain → NeverDamaged (refusal_of (result_err result)) }
    ensures reads { Reads S.state S.keeps S.lands base.old base.new (refusal_of (result_err result)) }
{
    if first == 0 || first > info.count {
        return Err(ChainFault::Broken { entry: first });
    }
    let (at, tail) = match old_ends(base, info, first, n) {
        Ok(ends) => ends,
        Err(fault) => return Err(fault),
    };
    let given = Some(Given {
        first,
        tail: tail.node,
    });
    if n == 0 {
        let boundary = None;
        return Ok(Plan {
            given,
            head,
            boundary,
        });
    }
    if n <= at.end {
        let boundary = Some(boundary_at(at, next_or(at.next, head), n));
        return Ok(Plan {
            given,
            head,
            boundary,
        });
    }
    match free_boundary(base, info, head, tail.end, n) {
        Ok(boundary) => Ok(Plan {
            given,
            head,
            boundary: Some(boundary),
        }),
        Err(fault) => Err(fault),
    }
}

// The plan where no chain is given back.
fn plan_fresh<S: Space>(
    base: &mut S,
    info: ChainInfo,
    head: u32,
    n: u64,
) -> Result<Plan, ChainFault>
    requires table { HasAllocationTable (S.state base.old).shape info }
    requires head { head ≤ info.count }
    ensures in_table { IfOk result (IsPlanIn info.count) }
    ensures exact { IsTrue (S.state base.old).told → (free : List Node)
        → AreFreeNodes (table_in (S.state base.old).cells info) info.count free → start_of free 0 ≡ head
        → length (entries_of free) ≤ info.count
        → EnoughUnlessDisk n (length (entries_of free)) result (IsPlan [] free n) }
    ensures plain { IsTrue (S.state base.old).shape.plain → NeverDamaged (refusal_of (result_err result)) }
    ensures reads { Reads S.state S.keeps S.lands base.old base.new (refusal_of (result_err result)) }
{
    let given = None;
    if n == 0 {
        let boundary = None;
        return Ok(Plan {
            given,
            head,
            boundary,
        });
    }
    match free_boundary(base, info, head, 0, n) {
        Ok(boundary) => Ok(Plan {
            given,
            head,
            boundary: Some(boundary),
        }),
        Err(fault) => Err(fault),
    }
}

/// The plan of a swap: of the blocks of the chain that begins with `given`, and then of the free ones, `n` are taken.
pub(crate) fn plan_swap<S: Space>(
    base: &mut S,
    info: ChainInfo,
    given: Option<u32>,
    n: u64,
) -> Result<Plan, ChainFault>
    requires table { HasAllocationTable (S.state base.old).shape info }
    ensures in_table { IfOk result (IsPlanIn info.count) }
    ensures exact { IsTrue (S.state base.old).told → (old free : List Node)
        → CanPlan (table_in (S.state base.old).cells info) info.count given old free
        → EnoughUnlessDisk n (length (entries_of old) + length (entries_of free)) result (IsPlan old free n) }
    ensures plain { IsTrue (S.state base.old).shape.plain → NeverDamaged (refusal_of (result_err result)) }
    ensures reads { Reads S.state S.keeps S.lands base.old base.new (refusal_of (result_err result)) }
{
    let head = match free_first(base, info) {
        Ok(head) => head,
        Err(fault) => return Err(fault),
    };
    match given {
        Some(first) => plan_given(base, info, first, head, n),
        None => plan_fresh(base, info, head, n),
    }
}
