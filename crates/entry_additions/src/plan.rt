//! Which entry is taken for a new one, and which words change.

ghost use Rattle.std.specs.Prelude.{◌≡◌, ◌≢◌, ◌+◌, ◌<◌, ◌≤◌, [], ◌∷◌, IsTrue, IfOk, IfErr, OnOk};
ghost use Rattle.std.specs.Result.{result_err};
ghost use Rattle.save_bytes.specs.Answers.{IsFirstFault};
ghost use Rattle.save_bytes.specs.Refusals.{IfDamaged, NeverDamaged};
ghost use Rattle.save_bytes.specs.Reads.{Reads};
ghost use Rattle.entry_tables.specs.Kinds.{table_number};
ghost use Rattle.entry_tables.specs.Tables.{table_in, tables_in, info_of};
ghost use Rattle.entry_tables.specs.Rules.{CanBeFreed};
ghost use Rattle.entry_tables.specs.Words.{word_place};
ghost use Rattle.entry_tables.specs.Layout.{HasEntryTables};
ghost use Rattle.entry_tables.specs.Causes.{bad_of, IfRuleBroken};
ghost use Rattle.entry_tables.specs.Changes.{CanChangeTables};
ghost use Rattle.entry_tables.specs.declared.word.Word.TheVariants.{Link};
ghost use Rattle.entry_changes.specs.Bytes.{OkOrDisk};
ghost use Rattle.entry_additions.specs.Added.{HasRoom};
ghost use Rattle.entry_additions.specs.Additions.{IfNoEntry, MayAdd, HasAdditionCause, HasAdditionWords, AreCountsOf};
ghost use Rattle.entry_additions.specs.Additions.{IsTaking, IsAdditionPlan};

use crate::entry::NewPlace;
use entry_tables::{
    Counts, Edit, EntryFault, EntryKind, TableInfo, Word, bucket, info_for, read_counts, read_word,
};
use save_bytes::{Name, Space};

/// An entry that is taken, and a number for the word by which it is.
#[derive(Clone, Copy)]
pub(crate) struct Taken {
    pub(crate) entry: u32,
    pub(crate) last: Edit,
}

/// Where a new entry is written, and the words that are put behind it.
#[derive(Clone, Copy)]
pub(crate) struct Addition {
    pub(crate) place: NewPlace,
    pub(crate) edits: [Edit; 3],
}

// The next number.
fn take_next(kind: EntryKind, counts: Counts) -> Result<Taken, EntryFault>
    ensures entry { IfOk result (λ taken. taken.entry ≡ counts.count) }
    ensures last { IfOk result (λ taken. taken.last ≡ record { word = Word.Count kind; value = counts.count + 1 }) }
    ensures room { OnOk result (counts.count < counts.most) }
    ensures full { IfErr result (λ error. (error ≡ EntryFault.NoEntry counts.most) × (counts.most ≤ counts.count)) }
{
    if counts.count >= counts.most {
        return Err(EntryFault::NoEntry { most: counts.most });
    }
    Ok(Taken {
        entry: counts.count,
        last: Edit {
            word: Word::Count(kind),
            value: counts.count + 1,
        },
    })
}

// The entry that is taken of a table with these counts and this first freed entry: that one, or where there is none the
// next number.
fn take<S: Space>(
    space: &mut S,
    dirs: TableInfo,
    files: TableInfo,
    kind: EntryKind,
    counts: Counts,
    freed: u32,
) -> Result<Taken, EntryFault>
    requires { HasEntryTables (S.state space.old).shape dirs files }
    ensures taken { CanChangeTables (S.state space.old) dirs files
        → AreCountsOf (table_in (S.state space.old).cells kind (info_of dirs files kind)) counts freed
        → IfOk result (IsTaking (S.state space.old) dirs files kind) }
    ensures full { let t = table_in (S.state space.old).cells kind (info_of dirs files kind) in
        CanChangeTables (S.state space.old) dirs files → AreCountsOf t counts freed
        → IfNoEntry result (λ most. (¬ HasRoom t) × (most ≡ t.most)) }
    ensures broken { let t = table_in (S.state space.old).cells kind (info_of dirs files kind) in
        CanChangeTables (S.state space.old) dirs files → AreCountsOf t counts freed
        → IfRuleBroken result (λ table number.
        (table ≡ table_number kind) × (number ≡ 0) × (t.link 0 ≢ 0) × (¬ CanBeFreed kind t (t.link 0))) }
    ensures damaged { let t = table_in (S.state space.old).cells kind (info_of dirs files kind) in
        CanChangeTables (S.state space.old) dirs files → AreCountsOf t counts freed
        → IfDamaged (bad_of result) (λ part level block. (t.link 0 ≢ 0) × CanBeFreed kind t (t.link 0)
        × IsFirstFault (S.state space.old).cells (word_place dirs files (Link kind (t.link 0))) 4 part level block) }
    ensures plain { IsTrue (S.state space.old).shape.plain → NeverDamaged (bad_of result) }
    ensures reads { Reads S.state S.keeps S.lands space.old space.new (bad_of result) }
{
    if freed == 0 {
        return take_next(kind, counts);
    }
    if freed < kind.least_freed() || freed >= counts.count {
        return Err(EntryFault::Broken {
            table: kind.table_number(),
            entry: 0,
        });
    }
    let next = read_word(space, dirs, files, Word::Link(kind, freed))?;
    Ok(Taken {
        entry: freed,
        last: Edit {
            word: Word::Link(kind, 0),
            value: next,
        },
    })
}

/// Which entry is taken for a new one of this parent and name, and which words are put behind it.
pub(crate) fn plan_addition<S: Space>(
    space: &mut S,
    dirs: TableInfo,
    files: TableInfo,
    kind: EntryKind,
    parent: u32,
    name: &Name,
) -> Result<Addition, EntryFault>
    requires { HasEntryTables (S.state space.old).shape dirs files }
    ensures plan { CanChangeTables (S.state space.old) dirs files
        → MayAdd (tables_in (S.state space.old).cells dirs files) kind parent name.now.0
        → IfOk result (IsAdditionPlan (S.state space.old) dirs files kind parent name.now.0) }
    ensures words { CanChangeTables (S.state space.old) dirs files
        → MayAdd (tables_in (S.state space.old).cells dirs files) kind parent name.now.0
        → OnOk result (HasAdditionWords (S.state space.old) dirs files kind parent name.now.0) }
    ensures exact { CanChangeTables (S.state space.old) dirs files
        → MayAdd (tables_in (S.state space.old).cells dirs files) kind parent name.now.0
        → HasAdditionWords (S.state space.old) dirs files kind parent name.now.0 → OkOrDisk result }
    ensures cause { HasAdditionCause (S.state space.old) dirs files kind parent name.now.0 result }
    ensures reads { Reads S.state S.keeps S.lands space.old space.new (bad_of result) }
{
    let info = info_for(dirs, files, kind);
    let counts = read_counts(space, kind, info)?;
    let freed = read_word(space, dirs, files, Word::Link(kind, 0))?;
    let taken = take(space, dirs, files, kind, counts, freed)?;
    let head = Word::Head(kind, bucket(parent, name, info.buckets));
    let link = read_word(space, dirs, files, head)?;
    let first = Word::First(kind, parent);
    let sibling = read_word(space, dirs, files, first)?;
    Ok(added_behind(taken, head, first, sibling, link))
}

// Both lists begin with the entry that is taken, which names those that they began with.
fn added_behind(taken: Taken, head: Word, first: Word, sibling: u32, link: u32) -> Addition
    ensures place { result.place ≡ record { entry = taken.entry; sibling = sibling; link = link } }
    ensures edits { result.edits ≡ record { word = head; value = taken.entry }
        ∷ record { word = first; value = taken.entry } ∷ taken.last ∷ [] }
{
    Addition {
        place: NewPlace {
            entry: taken.entry,
            sibling,
            link,
        },
        edits: [
            Edit {
                word: head,
                value: taken.entry,
            },
            Edit {
                word: first,
                value: taken.entry,
            },
            taken.last,
        ],
    }
}
