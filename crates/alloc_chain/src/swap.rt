//! Giving back a chain and taking another one.

ghost use Rattle.std.specs.Prelude.{◌≡◌, ℕ, ◌+◌, ◌^◌, ◌<◌, ◌≤◌, nat_eq, IsTrue, IsFalse, List, [], ◌∷◌, ◌++◌, length, slice_index};
ghost use Rattle.std.specs.Prelude.{IfOk, IfErr, IfSome, Option, Some, ◌↔◌};
ghost use Rattle.std.specs.List.{Contains, IsDistinct};
ghost use Rattle.std.specs.Result.{result_err};
ghost use Rattle.save_bytes.specs.Refusals.{IfDone, IfDamaged, NeverDamaged, UnlessDisk};
ghost use Rattle.save_bytes.specs.Reads.{Reads};
ghost use Rattle.chain_nodes.specs.declared.node.Node.{Node};
ghost use Rattle.chain_nodes.specs.declared.node.Lead.TheVariants.{Opens};
ghost use Rattle.chain_nodes.specs.Table.{table_in, HasAllocationTable};
ghost use Rattle.chain_nodes.specs.Chains.{start_of, AreNodes, entries_of};
ghost use Rattle.chain_nodes.specs.Edits.{AreFreeNodes};
ghost use Rattle.chain_links.specs.Alters.{AreUnspoilt, Alters, IsOfEntries, cut_entries};
ghost use Rattle.alloc_chain.specs.Plans.{IsSameCut, IsBoundaryIn, IsGivenIn, IsPlanIn, AreGivenBy, AreCutBy, IsPlan, AreApartLists, IsListPlan};
ghost use Rattle.alloc_chain.specs.Swaps.{HasSpoilt, IsReadyAnswer, CanSwap, IsSwapAnswer, IsSwapSite};
ghost use Rattle.save_bytes.specs.Stays.{SameCells, SameSpace};
ghost use Rattle.save_bytes.specs.Spots.{Hold};
ghost use Rattle.chain_nodes.specs.Faults.{refusal_of};
ghost use Rattle.alloc_chain.specs.Swaps.{IsSwapped, first_of, given_entries, taken_entries, plan_entries};

use crate::plan::{Boundary, Given, Plan, plan_swap};
use chain_links::{give_back, take_front};
use chain_nodes::{ChainFault, ChainInfo};
use save_bytes::{Bad, Space};

// Whether an entry may be written.
fn ready_entry<S: Space>(base: &mut S, info: ChainInfo, entry: u32) -> Result<(), Bad>
    requires table { HasAllocationTable (S.state base.old).shape info }
    requires inside { entry ≤ info.count }
    ensures ready { IsTrue (S.state base.old).told → IfDone (result_err result) (AreUnspoilt (S.state base.old) (IsOfEntries info (entry ∷ []))) }
    ensures damaged { IsTrue (S.state base.old).told
        → IfDamaged (result_err result) (HasSpoilt (table_in (S.state base.old).cells info) entry) }
    ensures plain { IsTrue (S.state base.old).shape.plain → NeverDamaged (result_err result) }
    ensures reads { Reads S.state S.keeps S.lands base.old base.new (result_err result) }
{
    base.ready(info.table_at + 8 * u64::from(entry), 8)
}

// Whether some entries may be written.
fn ready_entries<S: Space>(base: &mut S, info: ChainInfo, entries: &[u32]) -> Result<(), Bad>
    requires table { HasAllocationTable (S.state base.old).shape info }
    requires inside { (k : ℕ) → k < length entries.now → slice_index entries.now k ≤ info.count }
    ensures ready { IsTrue (S.state base.old).told
        → IfDone (result_err result) (AreUnspoilt (S.state base.old) (IsOfEntries info entries.now)) }
    ensures damaged { IsTrue (S.state base.old).told → IfDamaged (result_err result)
        (λ part level block. (entry : ℕ) × Contains entries.now entry
        × HasSpoilt (table_in (S.state base.old).cells info) entry part level block) }
    ensures plain { IsTrue (S.state base.old).shape.plain → NeverDamaged (result_err result) }
    ensures reads { Reads S.state S.keeps S.lands base.old base.new (result_err result) }
{
    for entry in entries {
        match ready_entry(base, info, *entry) {
            Ok(()) => {}
            Err(bad) => return Err(bad),
        }
    }
    Ok(())
}

// Whether what is written where a chain is given back may be written.
fn ready_given<S: Space>(
    base: &mut S,
    info: ChainInfo,
    given: Option<Given>,
    head: u32,
) -> Result<(), Bad>
    requires table { HasAllocationTable (S.state base.old).shape info }
    requires given { IfSome given (IsGivenIn info.count) }
    requires head { head ≤ info.count }
    ensures ready { IsTrue (S.state base.old).told
        → IfDone (result_err result) (AreUnspoilt (S.state base.old) (IsOfEntries info (given_entries given head))) }
    ensures damaged { IsTrue (S.state base.old).told → IfDamaged (result_err result)
        (λ part level block. (entry : ℕ) × Contains (given_entries given head) entry
        × HasSpoilt (table_in (S.state base.old).cells info) entry part level block) }
    ensures plain { IsTrue (S.state base.old).shape.plain → NeverDamaged (result_err result) }
    ensures reads { Reads S.state S.keeps S.lands base.old base.new (result_err result) }
{
    match given {
        Some(given) => ready_entries(base, info, &[0, given.first, given.tail.first, head]),
        None => Ok(()),
    }
}

// The entries that are written where blocks up to a boundary are taken.
fn entries_taken(first: u32, boundary: Boundary) -> [u32; 9]
    requires small { boundary.node.last < 2 ^ 31 }
    requires from { boundary.node.first ≤ boundary.middle }
    requires up_to { boundary.middle ≤ boundary.node.last }
    ensures { result ≡ first ∷ cut_entries boundary.node boundary.middle boundary.next }
{
    let node = boundary.node;
    let middle = boundary.middle;
    let second = (node.first + 1).min(middle);
    let right = (middle + 1).min(node.last);
    let right_second = (middle + 2).min(node.last);
    [
        first,
        0,
        node.first,
        second,
        middle,
        right,
        right_second,
        node.last,
        boundary.next,
    ]
}

// Whether what is written where blocks are taken may be written.
fn ready_taken<S: Space>(
    base: &mut S,
    info: ChainInfo,
    first: u32,
    boundary: Option<Boundary>,
) -> Result<(), Bad>
    requires table { HasAllocationTable (S.state base.old).shape info }
    requires first { first ≤ info.count }
    requires boundary { IfSome boundary (IsBoundaryIn info.count) }
    ensures ready { IsTrue (S.state base.old).told
        → IfDone (result_err result) (AreUnspoilt (S.state base.old) (IsOfEntries info (taken_entries first boundary))) }
    ensures damaged { IsTrue (S.state base.old).told → IfDamaged (result_err result)
        (λ part level block. (entry : ℕ) × Contains (taken_entries first boundary) entry
        × HasSpoilt (table_in (S.state base.old).cells info) entry part level block) }
    ensures plain { IsTrue (S.state base.old).shape.plain → NeverDamaged (result_err result) }
    ensures reads { Reads S.state S.keeps S.lands base.old base.new (result_err result) }
{
    match boundary {
        Some(boundary) => ready_entries(base, info, &entries_taken(first, boundary)),
        None => Ok(()),
    }
}

// With what the free list begins once a chain is given back, if there is one.
fn first_free(given: Option<Given>, head: u32) -> u32
    ensures { result ≡ first_of given head }
{
    match given {
        Some(given) => given.first,
        None => head,
    }
}

/// Whether all that a swap by a plan writes may be written.
pub(crate) fn ready_plan<S: Space>(base: &mut S, info: ChainInfo, plan: Plan) -> Result<(), Bad>
    requires table { HasAllocationTable (S.state base.old).shape info }
    requires plan { IsPlanIn info.count plan }
    ensures ready { IsTrue (S.state base.old).told
        → IfDone (result_err result) (AreUnspoilt (S.state base.old) (IsOfEntries info (plan_entries plan))) }
    ensures damaged { IsTrue (S.state base.old).told → IfDamaged (result_err result)
        (λ part level block. (entry : ℕ) × Contains (plan_entries plan) entry
        × HasSpoilt (table_in (S.state base.old).cells info) entry part level block) }
    ensures plain { IsTrue (S.state base.old).shape.plain → NeverDamaged (result_err result) }
    ensures reads { Reads S.state S.keeps S.lands base.old base.new (result_err result) }
{
    match ready_given(base, info, plan.given, plan.head) {
        Ok(()) => {}
        Err(bad) => return Err(bad),
    }
    ready_taken(base, info, first_free(plan.given, plan.head), plan.boundary)
}

// Gives back a chain, if there is one, and answers with what the free list then begins.
fn give<S: Space>(
    base: &mut S,
    info: ChainInfo,
    given: Option<Given>,
    head: u32,
) -> Result<u32, Bad>
    requires table { HasAllocationTable (S.state base.old).shape info }
    requires single { IsFalse (S.state base.old).shape.doubled }
    requires given { IfSome given (IsGivenIn info.count) }
    requires head { head ≤ info.count }
    ensures first { IfOk result (λ first. first ≡ first_of given head) }
    ensures small { IfOk result (λ first. first ≤ info.count) }
    ensures given { IsTrue (S.state base.old).told → (old free : List Node)
        → AreApartLists (table_in (S.state base.old).cells info) info.count old free → AreGivenBy old given → start_of free 0 ≡ head
        → IfOk result (λ first. AreFreeNodes (table_in (S.state base.new).cells info) info.count (old ++ free)
        × (start_of (old ++ free) 0 ≡ first)) }
    ensures alters { Alters S.state S.keeps S.lands (IsOfEntries info (given_entries given head)) base.old base.new (result_err result) }
{
    match given {
        Some(given) => match give_back(base, info, given.first, given.tail, head) {
            Ok(()) => Ok(given.first),
            Err(bad) => Err(bad),
        },
        None => Ok(head),
    }
}

// Takes the free blocks up to a boundary, if there is one, as a chain, and answers with what it begins. The free list
// begins with `first`.
fn take<S: Space>(
    base: &mut S,
    info: ChainInfo,
    first: u32,
    boundary: Option<Boundary>,
) -> Result<Option<u32>, Bad>
    requires table { HasAllocationTable (S.state base.old).shape info }
    requires single { IsFalse (S.state base.old).shape.doubled }
    requires first { first ≤ info.count }
    requires boundary { IfSome boundary (IsBoundaryIn info.count) }
    ensures taken { IsTrue (S.state base.old).told → (nodes : List Node) (n : ℕ)
        → AreFreeNodes (table_in (S.state base.old).cells info) info.count nodes → start_of nodes 0 ≡ first
        → AreCutBy nodes n boundary
        → IfOk result (IsSwapped (table_in (S.state base.new).cells info) info.count n (entries_of nodes)) }
    ensures alters { Alters S.state S.keeps S.lands (IsOfEntries info (taken_entries first boundary)) base.old base.new
        (result_err result) }
{
    match boundary {
        Some(boundary) => {
            let Boundary { node, middle, next } = boundary;
            match take_front(base, info, first, node, middle, next) {
                Ok(()) => Ok(Some(first)),
                Err(bad) => Err(bad),
            }
        }
        None => Ok(None),
    }
}

/// Gives back a chain and takes another one by a plan, and answers with what that begins, if it has blocks.
pub(crate) fn change<S: Space>(
    base: &mut S,
    info: ChainInfo,
    plan: Plan,
) -> Result<Option<u32>, Bad>
    requires table { HasAllocationTable (S.state base.old).shape info }
    requires single { IsFalse (S.state base.old).shape.doubled }
    requires plan { IsPlanIn info.count plan }
    ensures swapped { IsTrue (S.state base.old).told → (old free : List Node) (n : ℕ)
        → AreApartLists (table_in (S.state base.old).cells info) info.count old free → IsPlan old free n plan
        → IfOk result (IsSwapped (table_in (S.state base.new).cells info) info.count n (entries_of (old ++ free))) }
    ensures alters { Alters S.state S.keeps S.lands (IsOfEntries info (plan_entries plan)) base.old base.new (result_err result) }
{
    match give(base, info, plan.given, plan.head) {
        Ok(first) => take(base, info, first, plan.boundary),
        Err(bad) => Err(bad),
    }
}

// Whether just the blocks of the chain that is given back are taken, or there is none and none are taken.
fn keeps_chain(plan: Plan) -> bool
    ensures { IsTrue result ↔ IsSameCut plan.given plan.boundary }
{
    match plan.given {
        Some(given) => match plan.boundary {
            Some(boundary) => boundary.middle == given.tail.last,
            None => false,
        },
        None => plan.boundary.is_none(),
    }
}

/// The plan of a swap whose words may be written.
pub(crate) fn plan_ready<S: Space>(
    base: &mut S,
    info: ChainInfo,
    given: Option<u32>,
    n: u64,
) -> Result<Plan, ChainFault>
    requires table { HasAllocationTable (S.state base.old).shape info }
    ensures in_table { IfOk result (IsPlanIn info.count) }
    ensures ready { IsTrue (S.state base.old).told
        → IfOk result (λ plan. AreUnspoilt (S.state base.old) (IsOfEntries info (plan_entries plan))) }
    ensures exact { IsTrue (S.state base.old).told → (mine free : List ℕ)
        → CanSwap (table_in (S.state base.old).cells info) info.count given mine free
        → IsReadyAnswer (table_in (S.state base.old).cells info) n mine free result
        × IfOk result (IsListPlan (table_in (S.state base.old).cells info) info.count given n mine free) }
    ensures plain { IsTrue (S.state base.old).shape.plain → NeverDamaged (refusal_of (result_err result)) }
    ensures reads { Reads S.state S.keeps S.lands base.old base.new (refusal_of (result_err result)) }
{
    let plan = match plan_swap(base, info, given, n) {
        Ok(plan) => plan,
        Err(fault) => return Err(fault),
    };
    match ready_plan(base, info, plan) {
        Ok(()) => Ok(plan),
        Err(bad) => Err(ChainFault::Bad(bad)),
    }
}

/// Gives back the chain that begins with `given` and takes a chain of `n` blocks.
pub(crate) fn swap_in<S: Space>(
    base: &mut S,
    info: ChainInfo,
    given: Option<u32>,
    n: u64,
) -> Result<Option<u32>, ChainFault>
    requires table { HasAllocationTable (S.state base.old).shape info }
    requires single { IsFalse (S.state base.old).shape.doubled }
    ensures answer { let table = table_in (S.state base.old).cells info in IsTrue (S.state base.old).told
        → (mine free : List ℕ) → CanSwap table info.count given mine free
        → IsSwapAnswer table (table_in (S.state base.new).cells info) info.count n mine free result }
    ensures unchanged { IsTrue (S.state base.old).told → (mine free : List ℕ)
        → CanSwap (table_in (S.state base.old).cells info) info.count given mine free → n ≡ length mine
        → Reads S.state S.keeps S.lands base.old base.new (refusal_of (result_err result))
        × IfOk result (λ taken. taken ≡ given) }
    ensures alters { IsTrue (S.state base.old).told → (mine free : List ℕ)
        → CanSwap (table_in (S.state base.old).cells info) info.count given mine free
        → Alters S.state S.keeps S.lands (IsSwapSite info mine free) base.old base.new (refusal_of (result_err result)) }
    ensures refused { IsTrue (S.state base.old).told → IfErr result
        (λ fault. UnlessDisk (refusal_of (Some fault)) (SameCells (S.state base.old) (S.state base.new))) }
    ensures space { SameSpace (IsTrue (S.state base.old).told) (S.state base.old) (S.state base.new)
        (refusal_of (result_err result)) }
    ensures plain { IsTrue (S.state base.old).shape.plain → NeverDamaged (refusal_of (result_err result)) }
    ensures hold { S.keeps Hold base.old base.new }
{
    let plan = match plan_ready(base, info, given, n) {
        Ok(plan) => plan,
        Err(fault) => return Err(fault),
    };
    if keeps_chain(plan) {
        return Ok(given);
    }
    match change(base, info, plan) {
        Ok(taken) => Ok(taken),
        Err(bad) => Err(ChainFault::Bad(bad)),
    }
}

/// The refusal that a swap would give.
pub(crate) fn ready_in<S: Space>(
    base: &mut S,
    info: ChainInfo,
    given: Option<u32>,
    n: u64,
) -> Result<(), ChainFault>
    requires table { HasAllocationTable (S.state base.old).shape info }
    ensures answer { let table = table_in (S.state base.old).cells info in IsTrue (S.state base.old).told
        → (mine free : List ℕ) → CanSwap table info.count given mine free → IsReadyAnswer table n mine free result }
    ensures plain { IsTrue (S.state base.old).shape.plain → NeverDamaged (refusal_of (result_err result)) }
    ensures reads { Reads S.state S.keeps S.lands base.old base.new (refusal_of (result_err result)) }
{
    match plan_ready(base, info, given, n) {
        Ok(_) => Ok(()),
        Err(fault) => Err(fault),
    }
}
