//! Chains and the free list, as lists of entries.

ghost use Rattle.std.specs.Prelude.{◌≡◌, ℕ, ◌+◌, ◌<◌, ◌≤◌, nat_eq, IsTrue, List, length, IfOk};
ghost use Rattle.std.specs.List.{IsDistinct};
ghost use Rattle.std.specs.Result.{result_err};
ghost use Rattle.save_bytes.specs.Reads.{Reads};
ghost use Rattle.chain_nodes.specs.declared.node.Lead.TheVariants.{Opens, OpensFree};
ghost use Rattle.chain_nodes.specs.Table.{table_in, index_of, word_v, HasWords, HasFault, HasAllocationTable, IsEntry};
ghost use Rattle.chain_nodes.specs.Chains.{IsLinkedBy, IsChain, IsFreeList};
ghost use Rattle.chain_nodes.specs.Faults.{FailsAt, IsBroken, IsFreeBroken, IsFreeNeeded, refusal_of, FaultsOnly};
ghost use Rattle.chain_nodes.specs.Runs.{IsListPlace, IsAtEnd, HasLength, HasPosition, DoneUnlessDisk, IsRunIn};
ghost use Rattle.chain_nodes.specs.Runs.{IsRestOfNode};

use chain_nodes::{
    ChainFault, ChainInfo, Cursor, FLAG, Lead, Run, advance, list_len, read_entry, seek,
};
use save_bytes::Space;

/// The first entry of the free list, or 0.
pub(crate) fn free_first<S: Space>(base: &mut S, info: ChainInfo) -> Result<u32, ChainFault>
    requires { HasAllocationTable (S.state base.old).shape info }
    ensures first { let table = table_in (S.state base.old).cells info in IsTrue (S.state base.old).told
        → IfOk result (λ first. HasWords table 0 × (first ≡ index_of (word_v table 0))) }
    ensures small { IfOk result (λ first. first ≤ info.count) }
    ensures faults { let table = table_in (S.state base.old).cells info in
        FaultsOnly (S.state base.old) info (IsFreeBroken table info.count) (IsFreeNeeded table info.count) (result_err result) }
    ensures reads { Reads S.state S.keeps S.lands base.old base.new (refusal_of (result_err result)) }
{
    let root = match read_entry(base, info, 0) {
        Ok(root) => root,
        Err(bad) => return Err(ChainFault::Bad(bad)),
    };
    let first = root.v % FLAG;
    if first > info.count {
        return Err(ChainFault::Broken { entry: 0 });
    }
    Ok(first)
}

/// The place before the first free block.
pub(crate) fn free_start<S: Space>(base: &mut S, info: ChainInfo) -> Result<Cursor, ChainFault>
    requires { HasAllocationTable (S.state base.old).shape info }
    ensures opens { IfOk result (λ cursor. cursor.opens ≡ OpensFree) }
    ensures passed { IfOk result (λ cursor. cursor.passed ≡ 0) }
    ensures place { let table = table_in (S.state base.old).cells info in IsTrue (S.state base.old).told
        → IfOk result (IsListPlace table info.count) }
    ensures exact { let table = table_in (S.state base.old).cells info in IsTrue (S.state base.old).told
        → (list : List ℕ) → IsFreeList table info.count list
        → DoneUnlessDisk result (λ cursor. IsLinkedBy table info.count OpensFree cursor.first list) }
    ensures faults { let table = table_in (S.state base.old).cells info in
        FaultsOnly (S.state base.old) info (IsFreeBroken table info.count) (IsFreeNeeded table info.count) (result_err result) }
    ensures reads { Reads S.state S.keeps S.lands base.old base.new (refusal_of (result_err result)) }
{
    match free_first(base, info) {
        Ok(first) => Ok(Cursor::start(Lead::OpensFree, first)),
        Err(fault) => Err(fault),
    }
}

/// How many blocks are free.
pub(crate) fn free_len<S: Space>(base: &mut S, info: ChainInfo) -> Result<u32, ChainFault>
    requires { HasAllocationTable (S.state base.old).shape info }
    ensures length { let table = table_in (S.state base.old).cells info in IsTrue (S.state base.old).told
        → IfOk result (HasLength table info.count OpensFree (index_of (word_v table 0))) }
    ensures small { IfOk result (λ n. n ≤ info.count) }
    ensures exact { IsTrue (S.state base.old).told → (list : List ℕ)
        → IsFreeList (table_in (S.state base.old).cells info) info.count list
        → DoneUnlessDisk result (λ n. n ≡ length list) }
    ensures faults { let table = table_in (S.state base.old).cells info in
        FaultsOnly (S.state base.old) info (IsFreeBroken table info.count) (IsFreeNeeded table info.count) (result_err result) }
    ensures reads { Reads S.state S.keeps S.lands base.old base.new (refusal_of (result_err result)) }
{
    let first = match free_first(base, info) {
        Ok(first) => first,
        Err(fault) => return Err(fault),
    };
    list_len(base, info, Lead::OpensFree, first)
}

/// How many blocks the chain has that begins with an entry.
pub(crate) fn chain_len<S: Space>(
    base: &mut S,
    info: ChainInfo,
    first: u32,
) -> Result<u32, ChainFault>
    requires { HasAllocationTable (S.state base.old).shape info }
    ensures length { IsTrue (S.state base.old).told
        → IfOk result (HasLength (table_in (S.state base.old).cells info) info.count Opens first) }
    ensures small { IfOk result (λ n. n ≤ info.count) }
    ensures exact { IsTrue (S.state base.old).told → (list : List ℕ)
        → IsChain (table_in (S.state base.old).cells info) info.count first list
        → DoneUnlessDisk result (λ n. n ≡ length list) }
    ensures faults { let table = table_in (S.state base.old).cells info in FaultsOnly (S.state base.old) info
        (λ e. IsEntry info.count first → IsBroken table info.count Opens first e)
        (FailsAt table info.count Opens first) (result_err result) }
    ensures reads { Reads S.state S.keeps S.lands base.old base.new (refusal_of (result_err result)) }
{
    if first > info.count {
        return Err(ChainFault::Broken { entry: first });
    }
    list_len(base, info, Lead::Opens, first)
}

/// The rest of the node that has a chain's block number `pos`.
pub(crate) fn chain_run<S: Space>(
    base: &mut S,
    info: ChainInfo,
    first: u32,
    pos: u32,
) -> Result<Run, ChainFault>
    requires { HasAllocationTable (S.state base.old).shape info }
    ensures some { IfOk result (λ run. 1 ≤ run.len) }
    ensures inside { IfOk result (λ run. run.block + run.len ≤ info.count) }
    ensures run { IsTrue (S.state base.old).told
        → IfOk result (IsRestOfNode (table_in (S.state base.old).cells info) info.count Opens first pos) }
    ensures exact { IsTrue (S.state base.old).told → (list : List ℕ)
        → IsChain (table_in (S.state base.old).cells info) info.count first list → pos < length list
        → DoneUnlessDisk result (IsRunIn list pos) }
    ensures faults { let table = table_in (S.state base.old).cells info in FaultsOnly (S.state base.old) info
        (λ e. IsEntry info.count first → HasPosition table info.count Opens first pos
        → IsBroken table info.count Opens first e)
        (FailsAt table info.count Opens first) (result_err result) }
    ensures reads { Reads S.state S.keeps S.lands base.old base.new (refusal_of (result_err result)) }
{
    if first > info.count {
        return Err(ChainFault::Broken { entry: first });
    }
    match seek(base, info, Lead::Opens, first, pos) {
        Ok(Some(run)) => Ok(run),
        Ok(None) => Err(ChainFault::Broken { entry: first }),
        Err(fault) => Err(fault),
    }
}

/// The run behind a place of a list, and the place behind that run.
pub(crate) fn next_run<S: Space>(
    base: &mut S,
    info: ChainInfo,
    cursor: Cursor,
) -> Result<(Run, Cursor), ChainFault>
    requires table { HasAllocationTable (S.state base.old).shape info }
    requires not_at_end { ¬ IsAtEnd cursor }
    ensures some { IfOk result (λ step. 1 ≤ step.0.len) }
    ensures inside { IfOk result (λ step. step.0.block + step.0.len ≤ info.count) }
    ensures opens { IfOk result (λ step. step.1.opens ≡ cursor.opens) }
    ensures first { IfOk result (λ step. step.1.first ≡ cursor.first) }
    ensures passed { IfOk result (λ step. step.1.passed ≡ cursor.passed + step.0.len) }
    ensures bounded { IfOk result (λ step. step.1.passed ≤ info.count) }
    ensures place { let table = table_in (S.state base.old).cells info in IsTrue (S.state base.old).told
        → IsListPlace table info.count cursor → IfOk result (λ step. IsListPlace table info.count step.1) }
    ensures run { let table = table_in (S.state base.old).cells info in IsTrue (S.state base.old).told
        → IsListPlace table info.count cursor
        → IfOk result (λ step. IsRestOfNode table info.count cursor.opens cursor.first cursor.passed step.0) }
    ensures exact { let table = table_in (S.state base.old).cells info in IsTrue (S.state base.old).told
        → IsListPlace table info.count cursor → (list : List ℕ)
        → IsLinkedBy table info.count cursor.opens cursor.first list → IsDistinct nat_eq list
        → DoneUnlessDisk result (λ step. IsRunIn list cursor.passed step.0) }
    ensures faults { let table = table_in (S.state base.old).cells info in FaultsOnly (S.state base.old) info
        (λ e. IsListPlace table info.count cursor → IsBroken table info.count cursor.opens cursor.first e)
        (λ e. IsListPlace table info.count cursor → FailsAt table info.count cursor.opens cursor.first e)
        (result_err result) }
    ensures reads { Reads S.state S.keeps S.lands base.old base.new (refusal_of (result_err result)) }
{
    if !cursor.is_within(info.count) {
        return Err(ChainFault::Broken {
            entry: cursor.first(),
        });
    }
    advance(base, info, cursor)
}
