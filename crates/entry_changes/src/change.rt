//! Taking an entry out of its table.

ghost use Rattle.std.specs.Prelude.{◌≡◌, [], ◌∷◌, IfOk, OnOk, IsTrue};
ghost use Rattle.save_bytes.specs.State.{State};
ghost use Rattle.save_bytes.specs.Reads.{Reads};
ghost use Rattle.save_bytes.specs.Stays.{SameCells};
ghost use Rattle.entry_tables.specs.Tables.{tables_in};
ghost use Rattle.entry_tables.specs.Used.{used_entries};
ghost use Rattle.entry_tables.specs.Fails.{RuleFailsAt};
ghost use Rattle.entry_tables.specs.Layout.{HasEntryTables};
ghost use Rattle.entry_tables.specs.Causes.{bad_of, IfRuleBroken};
ghost use Rattle.entry_tables.specs.Changes.{CanChangeTables, ChangesAt};
ghost use Rattle.entry_tables.specs.declared.table.EntryKind.TheVariants.{Dir};
ghost use Rattle.entry_changes.specs.Bytes.{OkOrDisk, HaveSoftened, HasRemovalBytes};
ghost use Rattle.entry_changes.specs.Lacks.{IsTakenOut, IsRemovalSite};
ghost use Rattle.entry_changes.specs.Plans.{HasChangeCause, MayRemove, IsRemovalPlan, IsRemovalReady};

use crate::list::{EntryList, word_before};
use crate::words::{EntryWords, read_entry};
use entry_tables::{Edit, EntryFault, EntryKind, TableInfo, Word, info_for, read_word, set_words};
use save_bytes::Space;

/// Takes an entry out of its table: out of its bucket's list and its directory's, and into that of the freed ones.
/// Where one of the two lists lacks it, nothing changes. What is needed is read first; from the first word on only
/// `Disk` can come.
pub fn remove_in<S: Space>(
    space: &mut S,
    dirs: TableInfo,
    files: TableInfo,
    kind: EntryKind,
    entry: u32,
) -> Result<(), EntryFault>
    requires { HasEntryTables (S.state space.old).shape dirs files }
    ensures removed { CanChangeTables (S.state space.old) dirs files
        → MayRemove (tables_in (S.state space.old).cells dirs files) kind entry
        → OnOk result (IsTakenOut (S.state space.old) (S.state space.new) dirs files kind entry) }
    ensures cause { let t = tables_in (S.state space.old).cells dirs files in
        HasChangeCause (S.state space.old) dirs files (MayRemove t kind entry)
        (λ table number. used_entries (t.table kind) entry → used_entries (t.table Dir) ((t.table kind).parent entry)
        → RuleFailsAt t table number) result }
    ensures exact { (was : State) → CanChangeTables was dirs files → HasRemovalBytes was dirs files kind entry
        → HaveSoftened was (S.state space.old) dirs files → CanChangeTables (S.state space.old) dirs files
        → MayRemove (tables_in (S.state space.old).cells dirs files) kind entry → OkOrDisk result }
    ensures broken { IsTrue (S.state space.old).told
        → IfRuleBroken result (λ _ _. SameCells (S.state space.old) (S.state space.new)) }
    ensures changes { let t = tables_in (S.state space.old).cells dirs files in
        ChangesAt S.state S.keeps S.lands (CanChangeTables (S.state space.old) dirs files × MayRemove t kind entry)
        (IsRemovalSite t dirs files kind entry) space.old space.new (bad_of result) }
{
    let edits = match removal(space, dirs, files, kind, entry)? {
        Some(edits) => edits,
        None => return Ok(()),
    };
    set_words(space, dirs, files, &edits)?;
    Ok(())
}

/// Whether an entry may be taken out of its table: the refusal of that call, but for what comes from the disk as it
/// writes.
pub fn ready_remove_in<S: Space>(
    space: &mut S,
    dirs: TableInfo,
    files: TableInfo,
    kind: EntryKind,
    entry: u32,
) -> Result<(), EntryFault>
    requires { HasEntryTables (S.state space.old).shape dirs files }
    ensures ready { CanChangeTables (S.state space.old) dirs files
        → MayRemove (tables_in (S.state space.old).cells dirs files) kind entry
        → OnOk result (IsRemovalReady (S.state space.old) dirs files kind entry) }
    ensures bytes { CanChangeTables (S.state space.old) dirs files
        → MayRemove (tables_in (S.state space.old).cells dirs files) kind entry
        → OnOk result (HasRemovalBytes (S.state space.old) dirs files kind entry) }
    ensures cause { let t = tables_in (S.state space.old).cells dirs files in
        HasChangeCause (S.state space.old) dirs files (MayRemove t kind entry)
        (λ table number. used_entries (t.table kind) entry → used_entries (t.table Dir) ((t.table kind).parent entry)
        → RuleFailsAt t table number) result }
    ensures reads { Reads S.state S.keeps S.lands space.old space.new (bad_of result) }
{
    removal(space, dirs, files, kind, entry)?;
    Ok(())
}

/// The words that a removal changes, and what becomes of each; none where a list of the entry lacks it.
pub fn removal<S: Space>(
    space: &mut S,
    dirs: TableInfo,
    files: TableInfo,
    kind: EntryKind,
    entry: u32,
) -> Result<Option<[Edit; 4]>, EntryFault>
    requires { HasEntryTables (S.state space.old).shape dirs files }
    ensures plan { CanChangeTables (S.state space.old) dirs files
        → MayRemove (tables_in (S.state space.old).cells dirs files) kind entry
        → IfOk result (IsRemovalPlan (S.state space.old) dirs files kind entry) }
    ensures bytes { CanChangeTables (S.state space.old) dirs files
        → MayRemove (tables_in (S.state space.old).cells dirs files) kind entry
        → OnOk result (HasRemovalBytes (S.state space.old) dirs files kind entry) }
    ensures exact { CanChangeTables (S.state space.old) dirs files
        → MayRemove (tables_in (S.state space.old).cells dirs files) kind entry
        → HasRemovalBytes (S.state space.old) dirs files kind entry → OkOrDisk result }
    ensures cause { let t = tables_in (S.state space.old).cells dirs files in
        HasChangeCause (S.state space.old) dirs files (MayRemove t kind entry)
        (λ table number. used_entries (t.table kind) entry → used_entries (t.table Dir) ((t.table kind).parent entry)
        → RuleFailsAt t table number) result }
    ensures reads { Reads S.state S.keeps S.lands space.old space.new (bad_of result) }
{
    let count = read_word(space, dirs, files, Word::Count(kind))?;
    let words = read_entry(space, kind, info_for(dirs, files, kind), entry)?;
    let freed = read_word(space, dirs, files, Word::Link(kind, 0))?;
    let bucket = EntryList::Bucket(kind, words.bucket);
    let children = EntryList::Children(kind, words.parent);
    let in_bucket = match word_before(space, dirs, files, bucket, entry, count)? {
        Some(word) => word,
        None => return Ok(None),
    };
    let in_directory = match word_before(space, dirs, files, children, entry, count)? {
        Some(word) => word,
        None => return Ok(None),
    };
    Ok(Some(edits_of(kind, entry, in_bucket, in_directory, words, freed)))
}

// Both lists skip the entry, and it heads that of the freed ones.
fn edits_of(
    kind: EntryKind,
    entry: u32,
    in_bucket: Word,
    in_directory: Word,
    words: EntryWords,
    freed: u32,
) -> [Edit; 4]
    ensures { result ≡ record { word = in_bucket; value = words.link }
        ∷ record { word = in_directory; value = words.sibling }
        ∷ record { word = Word.Link kind entry; value = freed }
        ∷ record { word = Word.Link kind 0; value = entry } ∷ [] }
{
    [
        Edit {
            word: in_bucket,
            value: words.link,
        },
        Edit {
            word: in_directory,
            value: words.sibling,
        },
        Edit {
            word: Word::Link(kind, entry),
            value: freed,
        },
        Edit {
            word: Word::Link(kind, 0),
            value: entry,
        },
    ]
}
