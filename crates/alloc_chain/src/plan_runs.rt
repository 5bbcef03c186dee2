//! The runs of a chain that a swap would take.

ghost use Rattle.std.specs.Prelude.{◌≡◌, ℕ, ◌+◌, ◌-◌, ◌<◌, ◌≤◌, ◌++◌, min, IsTrue, List, length, take, Some, IfOk};
ghost use Rattle.std.specs.Result.{result_err};
ghost use Rattle.save_bytes.specs.Reads.{Reads};
ghost use Rattle.chain_nodes.specs.declared.node.Lead.TheVariants.{OpensFree};
ghost use Rattle.chain_nodes.specs.Table.{table_in, index_of, word_v, HasAllocationTable};
ghost use Rattle.chain_nodes.specs.Chains.{IsFreeList};
ghost use Rattle.chain_nodes.specs.Faults.{FailsAt, IsBroken, IsFreeBroken, IsFreeNeeded, refusal_of, FaultsOnly};
ghost use Rattle.chain_nodes.specs.Runs.{HasPosition, DoneUnlessDisk, IsRunIn, IsRestOfNode};
ghost use Rattle.alloc_chain.specs.Swaps.{CanSwap};
ghost use Rattle.alloc_chain.specs.PlanRuns.{PlanFaultsOnly};

use crate::lists::{chain_len, chain_run, free_first};
use chain_nodes::{ChainFault, ChainInfo, Lead, Run, seek};
use save_bytes::Space;

// The rest of the node that has block number `pos` of the free list, which begins with `first`.
fn free_run_from<S: Space>(
    base: &mut S,
    info: ChainInfo,
    first: u32,
    pos: u32,
) -> Result<Run, ChainFault>
    requires table { HasAllocationTable (S.state base.old).shape info }
    requires first { first ≤ info.count }
    ensures some { IfOk result (λ run. 1 ≤ run.len) }
    ensures inside { IfOk result (λ run. run.block + run.len ≤ info.count) }
    ensures run { IsTrue (S.state base.old).told
        → IfOk result (IsRestOfNode (table_in (S.state base.old).cells info) info.count OpensFree first pos) }
    ensures faults { let table = table_in (S.state base.old).cells info in FaultsOnly (S.state base.old) info
        (λ e. HasPosition table info.count OpensFree first pos → IsBroken table info.count OpensFree first e)
        (FailsAt table info.count OpensFree first) (result_err result) }
    ensures reads { Reads S.state S.keeps S.lands base.old base.new (refusal_of (result_err result)) }
{
    match seek(base, info, Lead::OpensFree, first, pos) {
        Ok(Some(run)) => Ok(run),
        Ok(None) => Err(ChainFault::Broken { entry: first }),
        Err(fault) => Err(fault),
    }
}

// The rest of the node that has block number `pos` of the free list.
fn free_run<S: Space>(base: &mut S, info: ChainInfo, pos: u32) -> Result<Run, ChainFault>
    requires { HasAllocationTable (S.state base.old).shape info }
    ensures some { IfOk result (λ run. 1 ≤ run.len) }
    ensures inside { IfOk result (λ run. run.block + run.len ≤ info.count) }
    ensures exact { IsTrue (S.state base.old).told → (list : List ℕ)
        → IsFreeList (table_in (S.state base.old).cells info) info.count list → pos < length list
        → DoneUnlessDisk result (IsRunIn list pos) }
    ensures faults { let table = table_in (S.state base.old).cells info in FaultsOnly (S.state base.old) info
        (λ e. HasPosition table info.count OpensFree (index_of (word_v table 0)) pos → IsFreeBroken table info.count e)
        (IsFreeNeeded table info.count) (result_err result) }
    ensures reads { Reads S.state S.keeps S.lands base.old base.new (refusal_of (result_err result)) }
{
    let first = match free_first(base, info) {
        Ok(first) => first,
        Err(fault) => return Err(fault),
    };
    free_run_from(base, info, first, pos)
}

// The rest of the node that has block number `pos` of the chain that begins with `first`, with the free list behind it.
fn run_from<S: Space>(
    base: &mut S,
    info: ChainInfo,
    first: u32,
    pos: u32,
) -> Result<Run, ChainFault>
    requires { HasAllocationTable (S.state base.old).shape info }
    ensures some { IfOk result (λ run. 1 ≤ run.len) }
    ensures inside { IfOk result (λ run. run.block + run.len ≤ info.count) }
    ensures exact { IsTrue (S.state base.old).told → (mine free : List ℕ)
        → CanSwap (table_in (S.state base.old).cells info) info.count (Some first) mine free
        → pos < length mine + length free → DoneUnlessDisk result (IsRunIn (mine ++ free) pos) }
    ensures faults { PlanFaultsOnly (S.state base.old) info (Some first) pos (result_err result) }
    ensures reads { Reads S.state S.keeps S.lands base.old base.new (refusal_of (result_err result)) }
{
    if first == 0 {
        return Err(ChainFault::Broken { entry: first });
    }
    let len = match chain_len(base, info, first) {
        Ok(len) => len,
        Err(fault) => return Err(fault),
    };
    if pos < len {
        chain_run(base, info, first, pos)
    } else {
        free_run(base, info, pos - len)
    }
}

// The rest of the node that has block number `pos` of an old chain, which may be missing, with the free list behind it.
fn run_of<S: Space>(
    base: &mut S,
    info: ChainInfo,
    old: Option<u32>,
    pos: u32,
) -> Result<Run, ChainFault>
    requires { HasAllocationTable (S.state base.old).shape info }
    ensures some { IfOk result (λ run. 1 ≤ run.len) }
    ensures inside { IfOk result (λ run. run.block + run.len ≤ info.count) }
    ensures exact { IsTrue (S.state base.old).told → (mine free : List ℕ)
        → CanSwap (table_in (S.state base.old).cells info) info.count old mine free
        → pos < length mine + length free → DoneUnlessDisk result (IsRunIn (mine ++ free) pos) }
    ensures faults { PlanFaultsOnly (S.state base.old) info old pos (result_err result) }
    ensures reads { Reads S.state S.keeps S.lands base.old base.new (refusal_of (result_err result)) }
{
    match old {
        Some(first) => run_from(base, info, first, pos),
        None => free_run(base, info, pos),
    }
}

/// The first blocks of a run, so many at most.
pub(crate) fn cut_run(run: Run, most: u64) -> Run
    ensures block { result.block ≡ run.block }
    ensures len { result.len ≡ min run.len most }
{
    Run {
        block: run.block,
        len: u64::from(run.len).min(most) as u32,
    }
}

/// The run from block number `pos` on of the chain of `n` blocks that a swap would take.
pub(crate) fn planned_run<S: Space>(
    base: &mut S,
    info: ChainInfo,
    old: Option<u32>,
    n: u64,
    pos: u32,
) -> Result<Run, ChainFault>
    requires table { HasAllocationTable (S.state base.old).shape info }
    requires position { pos < n }
    ensures some { IfOk result (λ run. 1 ≤ run.len) }
    ensures inside { IfOk result (λ run. run.block + run.len ≤ info.count) }
    ensures within { IfOk result (λ run. pos + run.len ≤ n) }
    ensures exact { IsTrue (S.state base.old).told → (mine free : List ℕ)
        → CanSwap (table_in (S.state base.old).cells info) info.count old mine free
        → n ≤ length mine + length free → DoneUnlessDisk result (IsRunIn (take n (mine ++ free)) pos) }
    ensures faults { PlanFaultsOnly (S.state base.old) info old pos (result_err result) }
    ensures reads { Reads S.state S.keeps S.lands base.old base.new (refusal_of (result_err result)) }
{
    match run_of(base, info, old, pos) {
        Ok(run) => Ok(cut_run(run, n - u64::from(pos))),
        Err(fault) => Err(fault),
    }
}
