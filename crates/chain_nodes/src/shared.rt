//! Which entry has two places in a list.

ghost use Rattle.std.specs.Prelude.{◌≡◌, ℕ, ◌+◌, ◌-◌, ◌*◌, ◌^◌, ◌<◌, ◌≤◌, IsTrue, IfOk, Some};
ghost use Rattle.std.specs.Result.{result_err};
ghost use Rattle.std.specs.List.{range_with_len};
ghost use Rattle.save_bytes.specs.Reads.{Reads};
ghost use Rattle.chain_nodes.specs.Table.{table_in, HasAllocationTable};
ghost use Rattle.chain_nodes.specs.Chains.{entries_of};
ghost use Rattle.chain_nodes.specs.Faults.{FailsAt, IsShared, IsBroken, refusal_of, FaultsOnly};
ghost use Rattle.chain_nodes.specs.Runs.{IsReached};
ghost use Rattle.chain_nodes.specs.Between.{count_between};

use crate::fault::ChainFault;
use crate::info::ChainInfo;
use crate::node::{Lead, Node, read_node};
use crate::walk::Cursor;
use save_bytes::Space;

// How many entries of a node are not below `low` and not above `high`.
#[tactic(auto, using(crate::proofs::CountLemmas::node_between))]
fn node_between(node: Node, low: u32, high: u32) -> u32
    requires ordered { node.first ≤ node.last }
    requires small { node.last < 2 ^ 31 }
    requires high { high < 2 ^ 31 }
    ensures between { result ≡ count_between low high (range_with_len node.first (node.last + 1 - node.first)) }
    ensures small { result ≤ node.last + 1 - node.first }
{
    (node.last.min(high) + 1).saturating_sub(node.first.max(low))
}

// How many entries before `end`, a place of the list from `first` on, are not below `low` and not above `high`.
fn list_between<S: Space>(
    base: &mut S,
    info: ChainInfo,
    lead: Lead,
    first: u32,
    end: Cursor,
    low: u32,
    high: u32,
) -> Result<u64, ChainFault>
    requires table { HasAllocationTable (S.state base.old).shape info }
    requires first { first ≤ info.count }
    requires high { high ≤ info.count }
    requires next { end.next ≤ info.count }
    requires passed { end.passed ≤ 2 * info.count }
    ensures between { let table = table_in (S.state base.old).cells info in IsTrue (S.state base.old).told
        → (reached : IsReached table info.count lead first end)
        → IfOk result (λ n. n ≡ count_between low high (entries_of reached.nodes)) }
    ensures faults { let table = table_in (S.state base.old).cells info in
        FaultsOnly (S.state base.old) info (IsBroken table info.count lead first) (FailsAt table info.count lead first)
        (result_err result) }
    ensures reads { Reads S.state S.keeps S.lands base.old base.new (refusal_of (result_err result)) }
{
    let mut cursor = Cursor::start(lead, first);
    let mut between: u64 = 0;
    while cursor.passed < end.passed && cursor.next != 0 {
        let link = match read_node(base, info, cursor.lead, cursor.next) {
            Ok(link) => link,
            Err(fault) => return Err(fault),
        };
        between += u64::from(node_between(link.node, low, high));
        cursor = cursor.behind(link);
    }
    Ok(between)
}

// An entry that has two places before `end`, where more entries than the table has lie.
fn shared_entry<S: Space>(
    base: &mut S,
    info: ChainInfo,
    lead: Lead,
    first: u32,
    end: Cursor,
) -> Result<u32, ChainFault>
    requires table { HasAllocationTable (S.state base.old).shape info }
    requires first { first ≤ info.count }
    requires some { 1 ≤ info.count }
    requires next { end.next ≤ info.count }
    requires passed { end.passed ≤ 2 * info.count }
    requires many { info.count < end.passed }
    ensures shared { let table = table_in (S.state base.old).cells info in IsTrue (S.state base.old).told
        → IsReached table info.count lead first end → IfOk result (IsShared table info.count lead first) }
    ensures faults { let table = table_in (S.state base.old).cells info in
        FaultsOnly (S.state base.old) info (IsBroken table info.count lead first) (FailsAt table info.count lead first)
        (result_err result) }
    ensures reads { Reads S.state S.keeps S.lands base.old base.new (refusal_of (result_err result)) }
{
    let mut low = 1;
    let mut high = info.count;
    while low < high {
        let middle = low + (high - low) / 2;
        let between = match list_between(base, info, lead, first, end, low, middle) {
            Ok(between) => between,
            Err(fault) => return Err(fault),
        };
        if between > u64::from(middle - low + 1) {
            high = middle;
        } else {
            low = middle + 1;
        }
    }
    Ok(low)
}

/// The fault of a list in which more entries than the table has lie before `end`: one of them has two places.
pub(crate) fn shared_fault<S: Space>(
    base: &mut S,
    info: ChainInfo,
    lead: Lead,
    first: u32,
    end: Cursor,
) -> ChainFault
    requires table { HasAllocationTable (S.state base.old).shape info }
    requires first { first ≤ info.count }
    requires some { 1 ≤ info.count }
    requires next { end.next ≤ info.count }
    requires passed { end.passed ≤ 2 * info.count }
    requires many { info.count < end.passed }
    ensures faults { let table = table_in (S.state base.old).cells info in FaultsOnly (S.state base.old) info
        (λ e. IsReached table info.count lead first end → IsBroken table info.count lead first e)
        (FailsAt table info.count lead first) (Some result) }
    ensures reads { Reads S.state S.keeps S.lands base.old base.new (refusal_of (Some result)) }
{
    match shared_entry(base, info, lead, first, end) {
        Ok(entry) => ChainFault::Broken { entry },
        Err(fault) => fault,
    }
}
