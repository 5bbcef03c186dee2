//! Places in the chain that a swap would take.

ghost use Rattle.std.specs.Prelude.{◌≡◌, ℕ, ◌+◌, ◌<◌, ◌≤◌, ◌++◌, ◌↔◌, false, IsTrue, List, length, take, Option, IfOk, IfSome};
ghost use Rattle.std.specs.Result.{result_err};
ghost use Rattle.save_bytes.specs.Cells.{Cell};
ghost use Rattle.save_bytes.specs.Reads.{Reads};
ghost use Rattle.chain_nodes.specs.Table.{table_in, HasAllocationTable};
ghost use Rattle.chain_nodes.specs.Faults.{refusal_of, IsFreeBroken, IsFreeNeeded, FaultsOnly};
ghost use Rattle.chain_nodes.specs.Runs.{IsAtEnd, DoneUnlessDisk, IsRunIn};
ghost use Rattle.alloc_chain.specs.Swaps.{CanSwap};
ghost use Rattle.alloc_chain.specs.PlanPlaces.{plan_passed, IsPlanPlace, IsBehindOld, StepFaultsOnly};

use crate::lists::{free_first, next_run};
use crate::plan_runs::cut_run;
use chain_nodes::{ChainFault, ChainInfo, Cursor, Lead, Run};
use save_bytes::Space;

/// A place between two runs of the chain that a swap would take.
#[derive(Clone, Copy, Debug, PartialEq, Eq)]
pub struct PlanCursor {
    /// The place in the old chain or in the free list.
    pub(crate) list: Cursor,
    /// Whether that is the free list.
    pub(crate) free: bool,
    /// How many blocks lie before that list.
    pub(crate) before: u64,
    /// How many blocks the swap would take.
    pub(crate) wanted: u64,
}

impl PlanCursor {
    /// The place before the first block of the chain that a swap of the chain `old` for `n` blocks would take.
    pub fn of_swap(old: Option<u32>, n: u64) -> PlanCursor
        ensures place { (table : ℕ → ℕ → Cell) (count : ℕ) → IfSome old (λ first. first ≤ count)
            → IsPlanPlace table count old result }
        ensures passed { plan_passed result ≡ 0 }
        ensures wanted { result.wanted ≡ n }
    {
        let first = old.unwrap_or(0);
        PlanCursor {
            list: Cursor::start(Lead::Opens, first),
            free: false,
            before: 0,
            wanted: n,
        }
    }

    /// How many blocks of the chain lie before it.
    pub fn passed(&self) -> u64
        ensures { result ≡ plan_passed self.now }
    {
        let in_all = self.before.saturating_add(self.list.passed());
        in_all.min(self.wanted)
    }

    /// How many blocks the chain has.
    pub fn wanted(&self) -> u64
        ensures { result ≡ self.now.wanted }
    {
        self.wanted
    }

    /// Whether no block of the chain lies behind it.
    pub fn is_at_end(&self) -> bool
        ensures { IsTrue result ↔ (self.now.wanted ≤ plan_passed self.now) }
    {
        self.wanted <= self.passed()
    }

    // Whether it is a place of the old chain, and all of that lies before it.
    fn is_behind_old(&self) -> bool
        ensures { IsTrue result ↔ IsBehindOld self.now }
    {
        if self.free {
            return false;
        }
        self.list.is_at_end()
    }
}

// The place itself, or the one before the free list where it lies behind the old chain.
fn with_blocks<S: Space>(
    base: &mut S,
    info: ChainInfo,
    cursor: PlanCursor,
) -> Result<PlanCursor, ChainFault>
    requires table { HasAllocationTable (S.state base.old).shape info }
    requires not_at_end { plan_passed cursor < cursor.wanted }
    ensures wanted { IfOk result (λ here. here.wanted ≡ cursor.wanted) }
    ensures passed { IfOk result (λ here. here.before + here.list.passed ≡ plan_passed cursor) }
    ensures moved { IfOk result (λ here. ¬ IsBehindOld here) }
    ensures place { IsTrue (S.state base.old).told → (old : Option ℕ)
        → IsPlanPlace (table_in (S.state base.old).cells info) info.count old cursor
        → IfOk result (IsPlanPlace (table_in (S.state base.old).cells info) info.count old) }
    ensures faults { let table = table_in (S.state base.old).cells info in
        FaultsOnly (S.state base.old) info (IsFreeBroken table info.count) (IsFreeNeeded table info.count) (result_err result) }
    ensures reads { Reads S.state S.keeps S.lands base.old base.new (refusal_of (result_err result)) }
{
    if !cursor.is_behind_old() {
        return Ok(cursor);
    }
    match free_first(base, info) {
        Ok(first) => Ok(PlanCursor {
            list: Cursor::start(Lead::OpensFree, first),
            free: true,
            before: cursor.passed(),
            wanted: cursor.wanted,
        }),
        Err(fault) => Err(fault),
    }
}

/// The run behind a place of a plan, and the place behind that run.
pub(crate) fn planned_step<S: Space>(
    base: &mut S,
    info: ChainInfo,
    cursor: PlanCursor,
) -> Result<(Run, PlanCursor), ChainFault>
    requires table { HasAllocationTable (S.state base.old).shape info }
    requires not_at_end { plan_passed cursor < cursor.wanted }
    ensures some { IfOk result (λ step. 1 ≤ step.0.len) }
    ensures inside { IfOk result (λ step. step.0.block + step.0.len ≤ info.count) }
    ensures wanted { IfOk result (λ step. step.1.wanted ≡ cursor.wanted) }
    ensures passed { IfOk result (λ step. plan_passed step.1 ≡ plan_passed cursor + step.0.len) }
    ensures place { IsTrue (S.state base.old).told → (old : Option ℕ)
        → IsPlanPlace (table_in (S.state base.old).cells info) info.count old cursor
        → IfOk result (λ step. IsPlanPlace (table_in (S.state base.old).cells info) info.count old step.1) }
    ensures exact { IsTrue (S.state base.old).told → (old : Option ℕ) (mine free : List ℕ)
        → IsPlanPlace (table_in (S.state base.old).cells info) info.count old cursor
        → CanSwap (table_in (S.state base.old).cells info) info.count old mine free
        → cursor.wanted ≤ length mine + length free
        → DoneUnlessDisk result (λ step. IsRunIn (take cursor.wanted (mine ++ free)) (plan_passed cursor) step.0) }
    ensures faults { StepFaultsOnly (S.state base.old) info cursor (result_err result) }
    ensures reads { Reads S.state S.keeps S.lands base.old base.new (refusal_of (result_err result)) }
{
    let here = match with_blocks(base, info, cursor) {
        Ok(here) => here,
        Err(fault) => return Err(fault),
    };
    if here.list.is_at_end() {
        return Err(ChainFault::Broken {
            entry: here.list.first(),
        });
    }
    let left = cursor.wanted - cursor.passed();
    match next_run(base, info, here.list) {
        Ok((run, list)) => Ok((cut_run(run, left), PlanCursor { list, ..here })),
        Err(fault) => Err(fault),
    }
}
