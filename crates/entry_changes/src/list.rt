//! The word that names an entry in the list of its bucket or of its directory.

ghost use Rattle.std.specs.Prelude.{◌≡◌, ℕ, List, IsTrue, IfOk, OnOk, IfSome};
ghost use Rattle.save_bytes.specs.Answers.{IsFirstFault};
ghost use Rattle.save_bytes.specs.Refusals.{IfDamaged, NeverDamaged};
ghost use Rattle.save_bytes.specs.Reads.{Reads};
ghost use Rattle.entry_tables.specs.declared.word.Word.{Word};
ghost use Rattle.entry_tables.specs.Tables.{tables_in};
ghost use Rattle.entry_tables.specs.Layout.{HasEntryTables};
ghost use Rattle.entry_tables.specs.Words.{word_place};
ghost use Rattle.entry_tables.specs.Changes.{CanChangeTables};
ghost use Rattle.entry_tables.specs.Causes.{bad_of, IfRuleBroken, NeverNoEntry};
ghost use Rattle.entry_changes.specs.Lists.{list_kind, first_word, entry_word, list_table, list_number};
ghost use Rattle.entry_changes.specs.Lists.{HasList, IsWordBefore, HasNoEnd, IsOnTheWay, AreBytesOf, HasWayBytes};

use entry_tables::{EntryFault, EntryKind, TableInfo, Word, read_word};
use save_bytes::Space;

/// A list of entries.
#[derive(Clone, Copy)]
pub enum EntryList {
    /// That of a bucket.
    Bucket(EntryKind, u32),
    /// A directory's entries of a kind.
    Children(EntryKind, u32),
}

impl EntryList {
    // The word that names its first entry.
    fn first_word(self) -> Word
        ensures { result ≡ first_word self }
    {
        match self {
            EntryList::Bucket(kind, bucket) => Word::Head(kind, bucket),
            EntryList::Children(kind, dir) => Word::First(kind, dir),
        }
    }

    // The word by which an entry names the next.
    fn entry_word(self, entry: u32) -> Word
        ensures { result ≡ entry_word self entry }
    {
        match self {
            EntryList::Bucket(kind, _) => Word::Link(kind, entry),
            EntryList::Children(kind, _) => Word::Sibling(kind, entry),
        }
    }

    // The refusal where it is no list.
    fn broken(self) -> EntryFault
        ensures { result ≡ EntryFault.Broken (list_table self) (list_number self) }
    {
        match self {
            EntryList::Bucket(kind, bucket) => EntryFault::Broken {
                table: kind.bucket_table(),
                entry: bucket,
            },
            EntryList::Children(_, dir) => EntryFault::Broken {
                table: EntryKind::Dir.table_number(),
                entry: dir,
            },
        }
    }
}

/// The word that names an entry in a list of a table with so many entries, none where the list ends without it.
pub fn word_before<S: Space>(
    space: &mut S,
    dirs: TableInfo,
    files: TableInfo,
    list: EntryList,
    entry: u32,
    count: u32,
) -> Result<Option<Word>, EntryFault>
    requires { HasEntryTables (S.state space.old).shape dirs files }
    ensures found { let t = tables_in (S.state space.old).cells dirs files in
        CanChangeTables (S.state space.old) dirs files → HasList t list → (t.table (list_kind list)).count ≡ count
        → IfOk result (IsWordBefore t list entry) }
    ensures bytes { CanChangeTables (S.state space.old) dirs files
        → HasList (tables_in (S.state space.old).cells dirs files) list
        → ((tables_in (S.state space.old).cells dirs files).table (list_kind list)).count ≡ count
        → IfOk result (λ found. IfSome found (λ word. AreBytesOf (S.state space.old).cells dirs files word)) }
    ensures walked { CanChangeTables (S.state space.old) dirs files
        → HasList (tables_in (S.state space.old).cells dirs files) list
        → ((tables_in (S.state space.old).cells dirs files).table (list_kind list)).count ≡ count
        → OnOk result (HasWayBytes (S.state space.old).cells dirs files list entry) }
    ensures broken { let t = tables_in (S.state space.old).cells dirs files in
        CanChangeTables (S.state space.old) dirs files → HasList t list → (t.table (list_kind list)).count ≡ count
        → IfRuleBroken result (λ table number.
        (table ≡ list_table list) × (number ≡ list_number list) × HasNoEnd t list) }
    ensures damaged { let t = tables_in (S.state space.old).cells dirs files in
        CanChangeTables (S.state space.old) dirs files → HasList t list → (t.table (list_kind list)).count ≡ count
        → IfDamaged (bad_of result) (λ part level block. (xs : List ℕ) × (word : Word)
        × IsOnTheWay t list entry xs word
        × IsFirstFault (S.state space.old).cells (word_place dirs files word) 4 part level block) }
    ensures plain { IsTrue (S.state space.old).shape.plain → NeverDamaged (bad_of result) }
    ensures never_full { NeverNoEntry result }
    ensures reads { Reads S.state S.keeps S.lands space.old space.new (bad_of result) }
{
    let mut word = list.first_word();
    for _step in 0..count {
        let next = read_word(space, dirs, files, word)?;
        if next == entry {
            return Ok(Some(word));
        }
        if next == 0 {
            return Ok(None);
        }
        if next >= count {
            return Err(list.broken());
        }
        word = list.entry_word(next);
    }
    Err(list.broken())
}
