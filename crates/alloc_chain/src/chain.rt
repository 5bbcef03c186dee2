//! Chains of blocks in a space.

ghost use Rattle.std.specs.Prelude.{◌≡◌, ℕ, ◌+◌, ◌<◌, ◌≤◌, nat_eq, IsTrue, List, length, IfOk};
ghost use Rattle.std.specs.List.{IsDistinct};
ghost use Rattle.std.specs.Result.{result_err};
ghost use Rattle.save_bytes.specs.Reads.{Reads};
ghost use Rattle.chain_nodes.specs.declared.node.Lead.TheVariants.{Opens, OpensFree};
ghost use Rattle.chain_nodes.specs.Table.{index_of, word_v, HasAllocationTable, IsEntry};
ghost use Rattle.chain_nodes.specs.Chains.{IsLinkedBy, IsChain, IsFreeList};
ghost use Rattle.chain_nodes.specs.Faults.{FailsAt, IsBroken, IsFreeBroken, IsFreeNeeded, refusal_of, FaultsOnly};
ghost use Rattle.chain_nodes.specs.Runs.{IsListPlace, HasLength, IsAtEnd, HasPosition, DoneUnlessDisk, IsRunIn};
ghost use Rattle.chain_nodes.specs.Runs.{IsRestOfNode};
ghost use Rattle.std.specs.Prelude.{◌++◌, IsFalse, IfErr, Some, take};
ghost use Rattle.save_bytes.specs.Refusals.{UnlessDisk, NeverDamaged};
ghost use Rattle.save_bytes.specs.Stays.{SameCells, SameSpace};
ghost use Rattle.save_bytes.specs.Spots.{Hold};
ghost use Rattle.chain_links.specs.Alters.{Alters};
ghost use Rattle.save_bytes.specs.Cells.{Cell};
ghost use Rattle.alloc_chain.specs.Swaps.{ShareNone, CanSwap, IsSwapped, IsSwapAnswer, IsReadyAnswer, IsSwapSite};
ghost use Rattle.alloc_chain.specs.Swaps.{CanTake, HasSoftened};
ghost use Rattle.alloc_chain.specs.PlanRuns.{PlanFaultsOnly};
ghost use Rattle.alloc_chain.specs.PlanPlaces.{plan_passed, IsPlanPlace, StepFaultsOnly};
ghost use Rattle.std.specs.Prelude.{Option};
ghost use Rattle.alloc_chain.specs.Held.{below, table_of, IsChainOver, SameChain};

use crate::lists::{chain_len, chain_run, free_len, free_start, next_run};
use crate::plan_places::{PlanCursor, planned_step};
use crate::plan_runs::planned_run;
use crate::swap::{ready_in, swap_in};
use chain_nodes::{ChainFault, ChainInfo, Cursor, Run};
use save_bytes::Space;

/// The chains of an allocation table in a space.
#[derive(Drop)]
pub struct Chain<'a, S: Space> {
    base: &'a mut S,
    info: ChainInfo,
}

impl<'a, S: Space> Chain<'a, S> {
    /// The chains of the table that `info` tells of.
    pub fn new(base: &'a mut S, info: ChainInfo) -> Chain<'a, S>
        requires { HasAllocationTable (S.state base.old).shape info }
        ensures { IsChainOver result base.entry info }
    {
        Chain { base, info }
    }

    /// How many blocks are free.
    pub fn free_count(&mut self) -> Result<u32, ChainFault>
        requires { HasAllocationTable (below S.state self.old).shape self.old.info }
        ensures length { let table = table_of S.state self.old in IsTrue (below S.state self.old).told
            → IfOk result (HasLength table self.old.info.count OpensFree (index_of (word_v table 0))) }
        ensures small { IfOk result (λ n. n ≤ self.old.info.count) }
        ensures exact { IsTrue (below S.state self.old).told → (list : List ℕ)
            → IsFreeList (table_of S.state self.old) self.old.info.count list
            → DoneUnlessDisk result (λ n. n ≡ length list) }
        ensures faults { let table = table_of S.state self.old in
            FaultsOnly (below S.state self.old) self.old.info (IsFreeBroken table self.old.info.count)
            (IsFreeNeeded table self.old.info.count) (result_err result) }
        ensures reads { Reads S.state S.keeps S.lands self.old.base.now self.new.base.now (refusal_of (result_err result)) }
        ensures same { SameChain self.old self.new }
    {
        let base = &mut *self.base;
        free_len(base, self.info)
    }

    /// How many blocks the chain has that begins with entry `first`.
    pub fn length(&mut self, first: u32) -> Result<u32, ChainFault>
        requires { HasAllocationTable (below S.state self.old).shape self.old.info }
        ensures length { IsTrue (below S.state self.old).told
            → IfOk result (HasLength (table_of S.state self.old) self.old.info.count Opens first) }
        ensures small { IfOk result (λ n. n ≤ self.old.info.count) }
        ensures exact { IsTrue (below S.state self.old).told → (list : List ℕ)
            → IsChain (table_of S.state self.old) self.old.info.count first list
            → DoneUnlessDisk result (λ n. n ≡ length list) }
        ensures faults { let table = table_of S.state self.old in FaultsOnly (below S.state self.old) self.old.info
            (λ e. IsEntry self.old.info.count first → IsBroken table self.old.info.count Opens first e)
            (FailsAt table self.old.info.count Opens first) (result_err result) }
        ensures reads { Reads S.state S.keeps S.lands self.old.base.now self.new.base.now (refusal_of (result_err result)) }
        ensures same { SameChain self.old self.new }
    {
        let base = &mut *self.base;
        chain_len(base, self.info, first)
    }

    /// The data blocks from block number `pos` of the chain on that lie side by side in one node: the rest of the node
    /// that has the block. The chain begins with entry `first`; `Broken` comes where it has no such block too.
    pub fn run_at(&mut self, first: u32, pos: u32) -> Result<Run, ChainFault>
        requires { HasAllocationTable (below S.state self.old).shape self.old.info }
        ensures some { IfOk result (λ run. 1 ≤ run.len) }
        ensures inside { IfOk result (λ run. run.block + run.len ≤ self.old.info.count) }
        ensures run { IsTrue (below S.state self.old).told
            → IfOk result (IsRestOfNode (table_of S.state self.old) self.old.info.count Opens first pos) }
        ensures exact { IsTrue (below S.state self.old).told → (list : List ℕ)
            → IsChain (table_of S.state self.old) self.old.info.count first list → pos < length list
            → DoneUnlessDisk result (IsRunIn list pos) }
        ensures faults { let table = table_of S.state self.old in FaultsOnly (below S.state self.old) self.old.info
            (λ e. IsEntry self.old.info.count first → HasPosition table self.old.info.count Opens first pos
            → IsBroken table self.old.info.count Opens first e)
            (FailsAt table self.old.info.count Opens first) (result_err result) }
        ensures reads { Reads S.state S.keeps S.lands self.old.base.now self.new.base.now (refusal_of (result_err result)) }
        ensures same { SameChain self.old self.new }
    {
        let base = &mut *self.base;
        chain_run(base, self.info, first, pos)
    }

    /// The place before the first free block.
    pub fn free_cursor(&mut self) -> Result<Cursor, ChainFault>
        requires { HasAllocationTable (below S.state self.old).shape self.old.info }
        ensures opens { IfOk result (λ cursor. cursor.opens ≡ OpensFree) }
        ensures passed { IfOk result (λ cursor. cursor.passed ≡ 0) }
        ensures place { IsTrue (below S.state self.old).told
            → IfOk result (IsListPlace (table_of S.state self.old) self.old.info.count) }
        ensures exact { let table = table_of S.state self.old in IsTrue (below S.state self.old).told → (list : List ℕ)
            → IsFreeList table self.old.info.count list
            → DoneUnlessDisk result (λ cursor. IsLinkedBy table self.old.info.count OpensFree cursor.first list) }
        ensures faults { let table = table_of S.state self.old in
            FaultsOnly (below S.state self.old) self.old.info (IsFreeBroken table self.old.info.count)
            (IsFreeNeeded table self.old.info.count) (result_err result) }
        ensures reads { Reads S.state S.keeps S.lands self.old.base.now self.new.base.now (refusal_of (result_err result)) }
        ensures same { SameChain self.old self.new }
    {
        let base = &mut *self.base;
        free_start(base, self.info)
    }

    /// The run behind a place of a chain or of the free list, which is a whole node, and the place behind that run. To
    /// go over a list by places reads each of its nodes once, and of a node three entries at most.
    pub fn run_behind(&mut self, cursor: Cursor) -> Result<(Run, Cursor), ChainFault>
        requires table { HasAllocationTable (below S.state self.old).shape self.old.info }
        requires not_at_end { ¬ IsAtEnd cursor }
        ensures some { IfOk result (λ step. 1 ≤ step.0.len) }
        ensures inside { IfOk result (λ step. step.0.block + step.0.len ≤ self.old.info.count) }
        ensures opens { IfOk result (λ step. step.1.opens ≡ cursor.opens) }
        ensures first { IfOk result (λ step. step.1.first ≡ cursor.first) }
        ensures passed { IfOk result (λ step. step.1.passed ≡ cursor.passed + step.0.len) }
        ensures bounded { IfOk result (λ step. step.1.passed ≤ self.old.info.count) }
        ensures place { let table = table_of S.state self.old in IsTrue (below S.state self.old).told
            → IsListPlace table self.old.info.count cursor
            → IfOk result (λ step. IsListPlace table self.old.info.count step.1) }
        ensures run { let table = table_of S.state self.old in IsTrue (below S.state self.old).told
            → IsListPlace table self.old.info.count cursor
            → IfOk result
            (λ step. IsRestOfNode table self.old.info.count cursor.opens cursor.first cursor.passed step.0) }
        ensures exact { IsTrue (below S.state self.old).told
            → IsListPlace (table_of S.state self.old) self.old.info.count cursor → (list : List ℕ)
            → IsLinkedBy (table_of S.state self.old) self.old.info.count cursor.opens cursor.first list
            → IsDistinct nat_eq list
            → DoneUnlessDisk result (λ step. IsRunIn list cursor.passed step.0) }
        ensures faults { let table = table_of S.state self.old in FaultsOnly (below S.state self.old) self.old.info
            (λ e. IsListPlace table self.old.info.count cursor
            → IsBroken table self.old.info.count cursor.opens cursor.first e)
            (λ e. IsListPlace table self.old.info.count cursor
            → FailsAt table self.old.info.count cursor.opens cursor.first e)
            (result_err result) }
        ensures reads { Reads S.state S.keeps S.lands self.old.base.now self.new.base.now (refusal_of (result_err result)) }
        ensures same { SameChain self.old self.new }
    {
        let base = &mut *self.base;
        next_run(base, self.info, cursor)
    }

    /// Gives back the chain that begins with `given`, and takes a chain of `n` blocks, in one change: first the blocks of
    /// the old chain in its order, then those of the free list in its order. It answers with the first entry of the chain
    /// taken, none where `n` is 0. `Short` comes exactly where there are fewer blocks. On any refusal but `Disk`, and
    /// where `n` is the old chain's length, nothing is changed.
    pub fn swap(&mut self, given: Option<u32>, n: u64) -> Result<Option<u32>, ChainFault>
        requires table { HasAllocationTable (below S.state self.old).shape self.old.info }
        requires single { IsFalse (below S.state self.old).shape.doubled }
        ensures answer { IsTrue (below S.state self.old).told → (mine free : List ℕ)
            → CanSwap (table_of S.state self.old) self.old.info.count given mine free
            → IsSwapAnswer (table_of S.state self.old) (table_of S.state self.new) self.old.info.count n mine free result }
        ensures exact { IsTrue (below S.state self.old).told → (ready : ℕ → ℕ → Cell)
            → HasSoftened ready (table_of S.state self.old) → (mine free : List ℕ)
            → CanSwap ready self.old.info.count given mine free → CanTake ready n mine free
            → DoneUnlessDisk result (IsSwapped (table_of S.state self.new) self.old.info.count n (mine ++ free)) }
        ensures others { IsTrue (below S.state self.old).told → (mine free : List ℕ)
            → CanSwap (table_of S.state self.old) self.old.info.count given mine free → (first : ℕ) (list : List ℕ)
            → IsChain (table_of S.state self.old) self.old.info.count first list → ShareNone list (mine ++ free)
            → UnlessDisk (refusal_of (result_err result)) (IsChain (table_of S.state self.new) self.old.info.count first list) }
        ensures unchanged { IsTrue (below S.state self.old).told → (mine free : List ℕ)
            → CanSwap (table_of S.state self.old) self.old.info.count given mine free → n ≡ length mine
            → Reads S.state S.keeps S.lands self.old.base.now self.new.base.now (refusal_of (result_err result))
            × IfOk result (λ taken. taken ≡ given) }
        ensures alters { IsTrue (below S.state self.old).told → (mine free : List ℕ)
            → CanSwap (table_of S.state self.old) self.old.info.count given mine free
            → Alters S.state S.keeps S.lands (IsSwapSite self.old.info mine free) self.old.base.now self.new.base.now
            (refusal_of (result_err result)) }
        ensures refused { IsTrue (below S.state self.old).told → IfErr result (λ fault.
            UnlessDisk (refusal_of (Some fault)) (SameCells (below S.state self.old) (below S.state self.new))) }
        ensures space { SameSpace (IsTrue (below S.state self.old).told) (below S.state self.old) (below S.state self.new)
            (refusal_of (result_err result)) }
        ensures plain { IsTrue (below S.state self.old).shape.plain → NeverDamaged (refusal_of (result_err result)) }
        ensures hold { S.keeps Hold self.old.base.now self.new.base.now }
        ensures same { SameChain self.old self.new }
    {
        let base = &mut *self.base;
        swap_in(base, self.info, given, n)
    }

    /// The refusal that `swap` would give. It changes nothing. After an Ok `swap` answers Ok or `Disk`, as long as the
    /// table stays as it is or its cells soften.
    pub fn ready_swap(&mut self, given: Option<u32>, n: u64) -> Result<(), ChainFault>
        requires { HasAllocationTable (below S.state self.old).shape self.old.info }
        ensures answer { IsTrue (below S.state self.old).told → (mine free : List ℕ)
            → CanSwap (table_of S.state self.old) self.old.info.count given mine free
            → IsReadyAnswer (table_of S.state self.old) n mine free result }
        ensures plain { IsTrue (below S.state self.old).shape.plain → NeverDamaged (refusal_of (result_err result)) }
        ensures reads { Reads S.state S.keeps S.lands self.old.base.now self.new.base.now (refusal_of (result_err result)) }
        ensures same { SameChain self.old self.new }
    {
        let base = &mut *self.base;
        ready_in(base, self.info, given, n)
    }

    /// The run from block number `pos` on of the chain that `swap` would take: first the blocks of the old chain in its
    /// order, then those of the free list. It is the rest of the node that has the block, or as much of it as lies in the
    /// first `n` blocks. `Broken` comes where there is no such block too. It changes nothing.
    pub fn plan_run(&mut self, old: Option<u32>, n: u64, pos: u32) -> Result<Run, ChainFault>
        requires table { HasAllocationTable (below S.state self.old).shape self.old.info }
        requires position { pos < n }
        ensures some { IfOk result (λ run. 1 ≤ run.len) }
        ensures inside { IfOk result (λ run. run.block + run.len ≤ self.old.info.count) }
        ensures within { IfOk result (λ run. pos + run.len ≤ n) }
        ensures exact { IsTrue (below S.state self.old).told → (mine free : List ℕ)
            → CanSwap (table_of S.state self.old) self.old.info.count old mine free → n ≤ length mine + length free
            → DoneUnlessDisk result (IsRunIn (take n (mine ++ free)) pos) }
        ensures faults { PlanFaultsOnly (below S.state self.old) self.old.info old pos (result_err result) }
        ensures reads { Reads S.state S.keeps S.lands self.old.base.now self.new.base.now (refusal_of (result_err result)) }
        ensures same { SameChain self.old self.new }
    {
        let base = &mut *self.base;
        planned_run(base, self.info, old, n, pos)
    }

    /// The run behind a place of the chain that `swap` would take, and the place behind that run. The run is the rest of a
    /// node, or as much of it as the chain has. To go over a plan by places reads each of its nodes once, and entry 0. It
    /// changes nothing.
    pub fn planned_behind(&mut self, cursor: PlanCursor) -> Result<(Run, PlanCursor), ChainFault>
        requires table { HasAllocationTable (below S.state self.old).shape self.old.info }
        requires not_at_end { plan_passed cursor < cursor.wanted }
        ensures some { IfOk result (λ step. 1 ≤ step.0.len) }
        ensures inside { IfOk result (λ step. step.0.block + step.0.len ≤ self.old.info.count) }
        ensures wanted { IfOk result (λ step. step.1.wanted ≡ cursor.wanted) }
        ensures passed { IfOk result (λ step. plan_passed step.1 ≡ plan_passed cursor + step.0.len) }
        ensures place { IsTrue (below S.state self.old).told → (old : Option ℕ)
            → IsPlanPlace (table_of S.state self.old) self.old.info.count old cursor
            → IfOk result (λ step. IsPlanPlace (table_of S.state self.old) self.old.info.count old step.1) }
        ensures exact { IsTrue (below S.state self.old).told → (old : Option ℕ) (mine free : List ℕ)
            → IsPlanPlace (table_of S.state self.old) self.old.info.count old cursor
            → CanSwap (table_of S.state self.old) self.old.info.count old mine free
            → cursor.wanted ≤ length mine + length free
            → DoneUnlessDisk result (λ step. IsRunIn (take cursor.wanted (mine ++ free)) (plan_passed cursor) step.0) }
        ensures faults { StepFaultsOnly (below S.state self.old) self.old.info cursor (result_err result) }
        ensures reads { Reads S.state S.keeps S.lands self.old.base.now self.new.base.now (refusal_of (result_err result)) }
        ensures same { SameChain self.old self.new }
    {
        let base = &mut *self.base;
        planned_step(base, self.info, cursor)
    }
}
