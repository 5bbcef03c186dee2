//! Linking nodes, and cutting lists of them.

ghost use Rattle.std.specs.Prelude.{◌≡◌, ℕ, ◌+◌, ◌^◌, ◌<◌, ◌≤◌, min, IsTrue, IsFalse, List, [], ◌∷◌, ◌++◌, IfOk};
ghost use Rattle.std.specs.Result.{result_err};
ghost use Rattle.save_bytes.specs.Refusals.{IfDone};
ghost use Rattle.chain_nodes.specs.declared.node.Node.{Node};
ghost use Rattle.chain_nodes.specs.declared.node.Lead.{Lead};
ghost use Rattle.chain_nodes.specs.declared.node.Lead.TheVariants.{OpensFree};
ghost use Rattle.chain_nodes.specs.Table.{table_in, word_u, HasWords, HasAllocationTable};
ghost use Rattle.chain_nodes.specs.Chains.{IsLead, IsInner, start_of, AreNodes, lead_after};
ghost use Rattle.chain_nodes.specs.Edits.{KeepsEntry, IsHeadWord, AreJoinable, AreBefore, AreBehind};
ghost use Rattle.chain_nodes.specs.Edits.{AreFreeAround, AreCut, AreFreeNodes, AreTaken, AreApartFrom};
ghost use Rattle.chain_links.specs.Alters.{Alters, IsOfEntries, cut_entries};

use crate::words::{set_u, set_v, set_words};
use chain_nodes::{ChainInfo, FLAG, Node};
use save_bytes::{Bad, Space};

// Word V of a node's first entry, where the next node begins with `next`.
fn head_word(node: Node, next: u32) -> u32
    requires ordered { node.first ≤ node.last }
    requires small { next < 2 ^ 31 }
    ensures word { IsHeadWord node next result }
{
    if node.first < node.last {
        FLAG + next
    } else {
        next
    }
}

/// Makes the node that begins with `after` the one behind a node; none is behind it where that is 0.
pub(crate) fn link<S: Space>(
    base: &mut S,
    info: ChainInfo,
    before: Node,
    after: u32,
) -> Result<(), Bad>
    requires table { HasAllocationTable (S.state base.old).shape info }
    requires single { IsFalse (S.state base.old).shape.doubled }
    requires ordered { before.first ≤ before.last }
    requires inside { before.last ≤ info.count }
    requires after { after ≤ info.count }
    ensures linked { IsTrue (S.state base.old).told → (lead other : Lead) (xs ys : List Node)
        → AreJoinable (table_in (S.state base.old).cells info) info.count lead other xs before ys after
        → IfDone (result_err result) (AreNodes (table_in (S.state base.new).cells info) info.count lead (xs ++ before ∷ ys) 0) }
    ensures alters { Alters S.state S.keeps S.lands (IsOfEntries info (before.first ∷ after ∷ [])) base.old base.new (result_err result) }
{
    match set_v(base, info, before.first, head_word(before, after)) {
        Ok(()) => {}
        Err(bad) => return Err(bad),
    }
    if after == 0 {
        return Ok(());
    }
    set_u(base, info, after, before.first)
}

// Writes the second and the last entry of a node, if it has them.
fn set_ends<S: Space>(base: &mut S, info: ChainInfo, node: Node) -> Result<(), Bad>
    requires table { HasAllocationTable (S.state base.old).shape info }
    requires single { IsFalse (S.state base.old).shape.doubled }
    requires ordered { node.first ≤ node.last }
    requires inside { node.last ≤ info.count }
    ensures second { IsTrue (S.state base.old).told → IfDone (result_err result)
        (node.first < node.last → IsInner (table_in (S.state base.new).cells info) node (node.first + 1)) }
    ensures last { IsTrue (S.state base.old).told → IfDone (result_err result)
        (node.first < node.last → IsInner (table_in (S.state base.new).cells info) node node.last) }
    ensures kept { IsTrue (S.state base.old).told → IfDone (result_err result)
        ((x : ℕ) → x ≤ info.count → ¬ ((node.first < x) × (x ≤ node.last))
        → KeepsEntry (table_in (S.state base.old).cells info) (table_in (S.state base.new).cells info) x) }
    ensures alters { Alters S.state S.keeps S.lands (IsOfEntries info (min (node.first + 1) node.last ∷ node.last ∷ [])) base.old base.new
        (result_err result) }
{
    if node.first == node.last {
        return Ok(());
    }
    let u = FLAG + node.first;
    match set_words(base, info, node.first + 1, u, node.last) {
        Ok(()) => set_words(base, info, node.last, u, node.last),
        Err(bad) => Err(bad),
    }
}

// Makes a run of entries a free node, the one before those that begin with `next`.
fn open_free<S: Space>(base: &mut S, info: ChainInfo, node: Node, next: u32) -> Result<(), Bad>
    requires table { HasAllocationTable (S.state base.old).shape info }
    requires single { IsFalse (S.state base.old).shape.doubled }
    requires some { 1 ≤ node.first }
    requires ordered { node.first ≤ node.last }
    requires inside { node.last ≤ info.count }
    requires next { next ≤ info.count }
    ensures linked { IsTrue (S.state base.old).told → (lead : Lead) (ys : List Node)
        → AreBehind (table_in (S.state base.old).cells info) info.count lead node ys next
        → IfDone (result_err result) (AreNodes (table_in (S.state base.new).cells info) info.count OpensFree (node ∷ ys) 0) }
    ensures alters { Alters S.state S.keeps S.lands
        (IsOfEntries info (node.first ∷ min (node.first + 1) node.last ∷ node.last ∷ next ∷ [])) base.old base.new (result_err result) }
{
    match set_ends(base, info, node) {
        Ok(()) => {}
        Err(bad) => return Err(bad),
    }
    match set_words(base, info, node.first, 0, 0) {
        Ok(()) => link(base, info, node, next),
        Err(bad) => Err(bad),
    }
}

// Makes a run of entries the last node of those before it.
fn close<S: Space>(base: &mut S, info: ChainInfo, node: Node) -> Result<(), Bad>
    requires table { HasAllocationTable (S.state base.old).shape info }
    requires single { IsFalse (S.state base.old).shape.doubled }
    requires some { 1 ≤ node.first }
    requires ordered { node.first ≤ node.last }
    requires inside { node.last ≤ info.count }
    ensures linked { IsTrue (S.state base.old).told → (lead : Lead) (xs : List Node)
        → AreBefore (table_in (S.state base.old).cells info) info.count lead xs node
        → IfDone (result_err result) (AreNodes (table_in (S.state base.new).cells info) info.count lead (xs ++ node ∷ []) 0) }
    ensures alters { Alters S.state S.keeps S.lands
        (IsOfEntries info (node.first ∷ min (node.first + 1) node.last ∷ node.last ∷ 0 ∷ [])) base.old base.new (result_err result) }
{
    match set_ends(base, info, node) {
        Ok(()) => link(base, info, node, 0),
        Err(bad) => Err(bad),
    }
}

// Cuts free nodes in two, behind a node.
fn cut_behind<S: Space>(base: &mut S, info: ChainInfo, node: Node, next: u32) -> Result<(), Bad>
    requires table { HasAllocationTable (S.state base.old).shape info }
    requires single { IsFalse (S.state base.old).shape.doubled }
    requires ordered { node.first ≤ node.last }
    requires inside { node.last ≤ info.count }
    requires next { next ≤ info.count }
    ensures cut { IsTrue (S.state base.old).told → (xs ys : List Node)
        → AreFreeAround (table_in (S.state base.old).cells info) info.count xs node ys next
        → IfDone (result_err result)
        (AreCut (table_in (S.state base.new).cells info) info.count xs node ys node.last next) }
    ensures alters { Alters S.state S.keeps S.lands (IsOfEntries info (node.first ∷ 0 ∷ next ∷ [])) base.old base.new (result_err result) }
{
    match link(base, info, node, 0) {
        Ok(()) => {}
        Err(bad) => return Err(bad),
    }
    if next == 0 {
        return Ok(());
    }
    set_u(base, info, next, 0)
}

// Cuts free nodes in two, within a node.
fn cut_within<S: Space>(
    base: &mut S,
    info: ChainInfo,
    node: Node,
    middle: u32,
    next: u32,
) -> Result<(), Bad>
    requires table { HasAllocationTable (S.state base.old).shape info }
    requires single { IsFalse (S.state base.old).shape.doubled }
    requires some { 1 ≤ node.first }
    requires from { node.first ≤ middle }
    requires below { middle < node.last }
    requires inside { node.last ≤ info.count }
    requires next { next ≤ info.count }
    ensures cut { IsTrue (S.state base.old).told → (xs ys : List Node)
        → AreFreeAround (table_in (S.state base.old).cells info) info.count xs node ys next
        → IfDone (result_err result)
        (AreCut (table_in (S.state base.new).cells info) info.count xs node ys middle (middle + 1)) }
    ensures alters { Alters S.state S.keeps S.lands (IsOfEntries info (cut_entries node middle next)) base.old base.new (result_err result) }
{
    let right = Node {
        first: middle + 1,
        last: node.last,
    };
    let left = Node {
        first: node.first,
        last: middle,
    };
    match open_free(base, info, right, next) {
        Ok(()) => close(base, info, left),
        Err(bad) => Err(bad),
    }
}

// Cuts free nodes in two, behind the entry `middle` of one of them, and gives the entry with which the rest begins: 0 for
// none. The node behind that one begins with `next`.
fn cut<S: Space>(
    base: &mut S,
    info: ChainInfo,
    node: Node,
    middle: u32,
    next: u32,
) -> Result<u32, Bad>
    requires table { HasAllocationTable (S.state base.old).shape info }
    requires single { IsFalse (S.state base.old).shape.doubled }
    requires some { 1 ≤ node.first }
    requires from { node.first ≤ middle }
    requires up_to { middle ≤ node.last }
    requires inside { node.last ≤ info.count }
    requires next { next ≤ info.count }
    ensures small { IfOk result (λ rest. rest ≤ info.count) }
    ensures cut { IsTrue (S.state base.old).told → (xs ys : List Node)
        → AreFreeAround (table_in (S.state base.old).cells info) info.count xs node ys next
        → IfOk result (AreCut (table_in (S.state base.new).cells info) info.count xs node ys middle) }
    ensures alters { Alters S.state S.keeps S.lands (IsOfEntries info (cut_entries node middle next)) base.old base.new (result_err result) }
{
    if middle == node.last {
        match cut_behind(base, info, node, next) {
            Ok(()) => Ok(next),
            Err(bad) => Err(bad),
        }
    } else {
        match cut_within(base, info, node, middle, next) {
            Ok(()) => Ok(middle + 1),
            Err(bad) => Err(bad),
        }
    }
}

/// Makes the free nodes, which begin with `first`, a chain up to the entry `middle` of one of them. The node behind that
/// one begins with `next`; 0 for none.
pub fn take_front<S: Space>(
    base: &mut S,
    info: ChainInfo,
    first: u32,
    node: Node,
    middle: u32,
    next: u32,
) -> Result<(), Bad>
    requires table { HasAllocationTable (S.state base.old).shape info }
    requires single { IsFalse (S.state base.old).shape.doubled }
    requires first { first ≤ info.count }
    requires some { 1 ≤ node.first }
    requires from { node.first ≤ middle }
    requires up_to { middle ≤ node.last }
    requires inside { node.last ≤ info.count }
    requires next { next ≤ info.count }
    ensures taken { IsTrue (S.state base.old).told → (xs ys : List Node)
        → AreFreeNodes (table_in (S.state base.old).cells info) info.count (xs ++ node ∷ ys) → start_of ys 0 ≡ next
        → start_of (xs ++ node ∷ []) 0 ≡ first
        → IfDone (result_err result) (AreTaken (table_in (S.state base.new).cells info) info.count xs node ys middle) }
    ensures alters { Alters S.state S.keeps S.lands (IsOfEntries info (first ∷ cut_entries node middle next)) base.old base.new
        (result_err result) }
{
    let rest = match cut(base, info, node, middle, next) {
        Ok(rest) => rest,
        Err(bad) => return Err(bad),
    };
    match set_u(base, info, first, FLAG) {
        Ok(()) => set_v(base, info, 0, rest),
        Err(bad) => Err(bad),
    }
}

/// Makes a chain that begins with `first` and ends with the node `tail` the front of the free list, which begins with
/// `head`; 0 for none.
pub fn give_back<S: Space>(
    base: &mut S,
    info: ChainInfo,
    first: u32,
    tail: Node,
    head: u32,
) -> Result<(), Bad>
    requires table { HasAllocationTable (S.state base.old).shape info }
    requires single { IsFalse (S.state base.old).shape.doubled }
    requires first { first ≤ info.count }
    requires ordered { tail.first ≤ tail.last }
    requires inside { tail.last ≤ info.count }
    requires head { head ≤ info.count }
    ensures given { IsTrue (S.state base.old).told → (xs ys : List Node)
        → AreApartFrom (table_in (S.state base.old).cells info) info.count xs tail ys first head
        → IfDone (result_err result) (AreFreeNodes (table_in (S.state base.new).cells info) info.count (xs ++ tail ∷ ys)) }
    ensures alters { Alters S.state S.keeps S.lands (IsOfEntries info (0 ∷ first ∷ tail.first ∷ head ∷ [])) base.old base.new
        (result_err result) }
{
    match set_u(base, info, first, 0) {
        Ok(()) => {}
        Err(bad) => return Err(bad),
    }
    match link(base, info, tail, head) {
        Ok(()) => set_v(base, info, 0, first),
        Err(bad) => Err(bad),
    }
}
