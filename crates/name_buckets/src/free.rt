//! How many entries can still be added.

ghost use Rattle.std.specs.Prelude.{◌≡◌, ◌↔◌, ℕ, List, length, Contains, IsTrue, IfOk};
ghost use Rattle.std.specs.Result.{result_err};
ghost use Rattle.save_bytes.specs.Refusals.{IfDamaged, NeverDamaged};
ghost use Rattle.save_bytes.specs.Reads.{Reads};
ghost use Rattle.entry_tables.specs.Kinds.{table_number};
ghost use Rattle.entry_tables.specs.Tables.{table_in};
ghost use Rattle.entry_tables.specs.Rules.{HasFreedList};
ghost use Rattle.entry_tables.specs.Fails.{IsFreedFront, NamesWrongly};
ghost use Rattle.entry_tables.specs.Layout.{HasCounts, HasEntryTable, TellsEntryTable, BlamesTable};
ghost use Rattle.entry_tables.specs.Causes.{bad_of, HasEntryCause};
ghost use Rattle.name_buckets.specs.Replies.{IsRoom};

use entry_tables::{EntryFault, EntryKind, TableInfo, entry_word, read_counts};
use save_bytes::{Bad, Space};

/// How many entries can be added to a table: those that were never used, and the freed ones, which are counted along
/// their list.
pub(crate) fn free_in<S: Space>(
    space: &mut S,
    kind: EntryKind,
    info: TableInfo,
) -> Result<u32, EntryFault>
    requires { HasEntryTable (S.state space.old).shape kind info }
    ensures free { TellsEntryTable (S.state space.old) kind info → IfOk result (IsRoom kind (table_in (S.state space.old).cells kind info)) }
    ensures cause { HasEntryCause (S.state space.old) kind info (HasFreedList kind (table_in (S.state space.old).cells kind info))
        (λ table entry. (table ≡ table_number kind) × NamesWrongly kind (table_in (S.state space.old).cells kind info) entry) result }
    ensures blamed { TellsEntryTable (S.state space.old) kind info
        → IfDamaged (bad_of result) (BlamesTable kind info (S.state space.old).cells) }
    ensures reads { Reads S.state S.keeps S.lands space.old space.new (bad_of result) }
{
    let counts = read_counts(space, kind, info)?;
    let mut from = 0;
    for freed in 0..counts.count {
        let next = entry_word(space, kind, info, from, kind.link_offset())?;
        if next == 0 {
            return Ok(counts.most.saturating_sub(counts.count) + freed);
        }
        if next < kind.least_freed() || next >= counts.count {
            return Err(names_wrongly(kind, from));
        }
        from = next;
    }
    let end = circle_end(space, kind, info, counts.count)?;
    Err(names_wrongly(kind, end))
}

// Of a list of freed entries that comes back to one of them, the entry that names it again. Only a spoilt table has
// such a list; each step goes over the list anew, so that nothing has to be kept.
fn circle_end<S: Space>(
    space: &mut S,
    kind: EntryKind,
    info: TableInfo,
    count: u32,
) -> Result<u32, Bad>
    requires { HasEntryTable (S.state space.old).shape kind info }
    ensures wrong { let t = table_in (S.state space.old).cells kind info in
        TellsEntryTable (S.state space.old) kind info → HasCounts (S.state space.old).cells info → t.count ≡ count
        → (front : List ℕ) (last : ℕ) → IsFreedFront kind t front last → length front ≡ count
        → IfOk result (NamesWrongly kind t) }
    ensures blamed { TellsEntryTable (S.state space.old) kind info → HasCounts (S.state space.old).cells info
        → (front : List ℕ) (last : ℕ) → IsFreedFront kind (table_in (S.state space.old).cells kind info) front last
        → length front ≡ count → IfDamaged (result_err result) (BlamesTable kind info (S.state space.old).cells) }
    ensures plain { IsTrue (S.state space.old).shape.plain → NeverDamaged (result_err result) }
    ensures reads { Reads S.state S.keeps S.lands space.old space.new (result_err result) }
{
    let mut from = 0;
    for passed in 0..count {
        let next = entry_word(space, kind, info, from, kind.link_offset())?;
        if is_among(space, kind, info, passed, next)? {
            return Ok(from);
        }
        from = next;
    }
    Ok(from)
}

// Whether an entry is among the first so many freed ones.
fn is_among<S: Space>(
    space: &mut S,
    kind: EntryKind,
    info: TableInfo,
    steps: u32,
    entry: u32,
) -> Result<bool, Bad>
    requires { HasEntryTable (S.state space.old).shape kind info }
    ensures among { let t = table_in (S.state space.old).cells kind info in
        TellsEntryTable (S.state space.old) kind info → HasCounts (S.state space.old).cells info
        → (front : List ℕ) (last : ℕ) → IsFreedFront kind t front last → length front ≡ steps
        → IfOk result (λ found. IsTrue found ↔ Contains front entry) }
    ensures blamed { TellsEntryTable (S.state space.old) kind info → HasCounts (S.state space.old).cells info
        → (front : List ℕ) (last : ℕ) → IsFreedFront kind (table_in (S.state space.old).cells kind info) front last
        → length front ≡ steps → IfDamaged (result_err result) (BlamesTable kind info (S.state space.old).cells) }
    ensures plain { IsTrue (S.state space.old).shape.plain → NeverDamaged (result_err result) }
    ensures reads { Reads S.state S.keeps S.lands space.old space.new (result_err result) }
{
    let mut from = 0;
    for _step in 0..steps {
        from = entry_word(space, kind, info, from, kind.link_offset())?;
        if from == entry {
            return Ok(true);
        }
    }
    Ok(false)
}

// The refusal for an entry, 0 included, that names a wrong one as the next freed.
fn names_wrongly(kind: EntryKind, entry: u32) -> EntryFault
    ensures { result ≡ EntryFault.Broken (table_number kind) entry }
{
    EntryFault::Broken {
        table: kind.table_number(),
        entry,
    }
}
