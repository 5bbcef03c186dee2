//! The words of tables and buckets that calls change.

ghost use Rattle.std.specs.Prelude.{◌≡◌, ℕ, ◌+◌, ◌*◌, ◌<◌, ◌≤◌, IfSome, IfNone, IfOk, IsTrue};
ghost use Rattle.std.specs.Result.{result_err};
ghost use Rattle.save_bytes.specs.Cells.{IsByte};
ghost use Rattle.save_bytes.specs.CellNumbers.{number_in};
ghost use Rattle.save_bytes.specs.State.{IsWritable, CanPut};
ghost use Rattle.save_bytes.specs.Refusals.{IfDone, NeverDamaged};
ghost use Rattle.save_bytes.specs.Answers.{IsRead, IsReady};
ghost use Rattle.save_bytes.specs.Reads.{Reads};
ghost use Rattle.save_bytes.specs.Writes.{IsWithin};
ghost use Rattle.entry_tables.specs.Kinds.{entry_size};
ghost use Rattle.entry_tables.specs.Tables.{HasEntry, info_of, entry_place, bucket_place, tables_in};
ghost use Rattle.entry_tables.specs.Layout.{HasEntryTables};
ghost use Rattle.entry_tables.specs.declared.table.EntryKind.{EntryKind};
ghost use Rattle.entry_tables.specs.declared.table.EntryKind.TheVariants.{File};
ghost use Rattle.entry_tables.specs.Words.{HoldsEntryZero, HasWord, word_of, word_place, WordFits};
ghost use Rattle.entry_tables.specs.Changes.{CanChangeTables, IsWordSet, CanSetAll, AreSet, IsSite, AreFieldsSet, ChangesAt};

use crate::reads::entry_at;
use crate::table::{EntryKind, FileFields, TableInfo};
use save_bytes::{Bad, Space, set_u32, set_u64, space_u32};

/// A word of a table or of its buckets.
#[derive(Clone, Copy, Debug, PartialEq, Eq)]
pub enum Word {
    /// The first entry of a bucket's list.
    Head(EntryKind, u32),
    /// An entry's last word.
    Link(EntryKind, u32),
    /// The next entry with an entry's parent.
    Sibling(EntryKind, u32),
    /// A directory's first entry of a kind.
    First(EntryKind, u32),
    /// How many entries of a kind were ever used.
    Count(EntryKind),
}

/// A number for a word.
#[derive(Clone, Copy, Debug, PartialEq, Eq)]
pub struct Edit {
    pub word: Word,
    pub value: u32,
}

/// Where a table of two and its buckets stand.
pub fn info_for(dirs: TableInfo, files: TableInfo, kind: EntryKind) -> TableInfo
    ensures { result ≡ info_of dirs files kind }
{
    match kind {
        EntryKind::Dir => dirs,
        EntryKind::File => files,
    }
}

// Where a bucket stands; none where there is none of this number.
fn head_at(len: u64, info: TableInfo, bucket: u32) -> Option<u64>
    requires { info.buckets_at + 4 * info.buckets ≤ len }
    ensures place { IfSome result (λ at. at ≡ bucket_place info bucket) }
    ensures inside { IfSome result (λ at. at + 4 ≤ len) }
    ensures outside { IfNone result (info.buckets ≤ bucket) }
{
    if bucket < info.buckets {
        Some(info.buckets_at + 4 * u64::from(bucket))
    } else {
        None
    }
}

// Where a word of an entry stands; none where the entry does not lie in a space of `len` bytes.
fn part_at(len: u64, kind: EntryKind, info: TableInfo, entry: u32, offset: u64) -> Option<u64>
    requires table { info.table_at ≤ len }
    requires inside { offset + 4 ≤ entry_size kind }
    ensures place { IfSome result (λ at. at ≡ entry_place kind info entry + offset) }
    ensures inside { IfSome result (λ at. at + 4 ≤ len) }
    ensures outside { IfNone result (len < entry_place kind info entry + entry_size kind) }
{
    match entry_at(len, kind, info, entry) {
        Some(at) => Some(at + offset),
        None => None,
    }
}

// Where a word stands in a space of `len` bytes; none where its bucket or its entry does not lie in it.
fn word_at(len: u64, dirs: TableInfo, files: TableInfo, word: Word) -> Option<u64>
    requires { (kind : EntryKind) → HoldsEntryZero len kind (info_of dirs files kind) }
    ensures place { IfSome result (λ at. at ≡ word_place dirs files word) }
    ensures inside { IfSome result (λ at. at + 4 ≤ len) }
    ensures outside { IfNone result (¬ WordFits len dirs files word) }
{
    match word {
        Word::Head(kind, bucket) => head_at(len, info_for(dirs, files, kind), bucket),
        Word::Link(kind, entry) => {
            let info = info_for(dirs, files, kind);
            part_at(len, kind, info, entry, kind.link_offset())
        }
        Word::Sibling(kind, entry) => {
            part_at(len, kind, info_for(dirs, files, kind), entry, 0x14)
        }
        Word::First(kind, dir) => part_at(len, EntryKind::Dir, dirs, dir, kind.child_offset()),
        Word::Count(kind) => Some(info_for(dirs, files, kind).table_at),
    }
}

/// Whether a word of a table or its buckets may be written: `Damaged` comes exactly where a cell of it is spoilt.
pub fn ready_word<S: Space>(
    space: &mut S,
    dirs: TableInfo,
    files: TableInfo,
    word: Word,
) -> Result<(), Bad>
    requires { HasEntryTables (S.state space.old).shape dirs files }
    ensures ready { WordFits (S.state space.old).shape.size dirs files word
        → IsReady (S.state space.old) (word_place dirs files word) 4 (result_err result) }
    ensures plain { IsTrue (S.state space.old).shape.plain → NeverDamaged (result_err result) }
    ensures reads { Reads S.state S.keeps S.lands space.old space.new (result_err result) }
{
    match word_at(space.len(), dirs, files, word) {
        Some(at) => space.ready(at, 4),
        None => Ok(()),
    }
}

/// Puts a number into a word of a table or its buckets. It is refused as `ready_word` is, and then changes nothing.
pub fn set_word<S: Space>(
    space: &mut S,
    dirs: TableInfo,
    files: TableInfo,
    word: Word,
    value: u32,
) -> Result<(), Bad>
    requires { HasEntryTables (S.state space.old).shape dirs files }
    ensures set { CanChangeTables (S.state space.old) dirs files
        → HasWord (tables_in (S.state space.old).cells dirs files) word → IfDone (result_err result)
        (IsWordSet (S.state space.old) (S.state space.new) dirs files word value) }
    ensures ready { CanChangeTables (S.state space.old) dirs files
        → HasWord (tables_in (S.state space.old).cells dirs files) word
        → IsReady (S.state space.old) (word_place dirs files word) 4 (result_err result) }
    ensures changes { ChangesAt S.state S.keeps S.lands
        (CanChangeTables (S.state space.old) dirs files
        × HasWord (tables_in (S.state space.old).cells dirs files) word)
        (IsWithin (word_place dirs files word) 4) space.old space.new (result_err result) }
{
    match word_at(space.len(), dirs, files, word) {
        Some(at) => put_number(space, at, value),
        None => Ok(()),
    }
}

/// The number of a word, and 0 where its bucket or its entry does not lie in the space.
pub fn read_word<S: Space>(
    space: &mut S,
    dirs: TableInfo,
    files: TableInfo,
    word: Word,
) -> Result<u32, Bad>
    requires { HasEntryTables (S.state space.old).shape dirs files }
    ensures value { CanChangeTables (S.state space.old) dirs files
        → HasWord (tables_in (S.state space.old).cells dirs files) word
        → IfOk result (λ value. value ≡ word_of (tables_in (S.state space.old).cells dirs files) word) }
    ensures read { WordFits (S.state space.old).shape.size dirs files word
        → IsRead (S.state space.old) (word_place dirs files word) 4 (result_err result) }
    ensures plain { IsTrue (S.state space.old).shape.plain → NeverDamaged (result_err result) }
    ensures reads { Reads S.state S.keeps S.lands space.old space.new (result_err result) }
{
    match word_at(space.len(), dirs, files, word) {
        Some(at) => space_u32(space, at),
        None => Ok(0),
    }
}

/// Puts numbers into words, one after another. Where none of their cells is spoilt only `Disk` can come.
pub fn set_words<S: Space>(
    space: &mut S,
    dirs: TableInfo,
    files: TableInfo,
    edits: &[Edit],
) -> Result<(), Bad>
    requires { HasEntryTables (S.state space.old).shape dirs files }
    ensures set { CanSetAll (S.state space.old) dirs files edits.now
        → IfDone (result_err result) (AreSet (S.state space.old) (S.state space.new) dirs files edits.now) }
    ensures never { CanSetAll (S.state space.old) dirs files edits.now → NeverDamaged (result_err result) }
    ensures changes { ChangesAt S.state S.keeps S.lands (CanSetAll (S.state space.old) dirs files edits.now)
        (IsSite dirs files edits.now) space.old space.new (result_err result) }
{
    for edit in edits {
        set_word(space, dirs, files, edit.word, edit.value)?;
    }
    Ok(())
}

/// Puts a file's first block, and its size or identifier, into its entry. `Damaged` comes exactly where a cell of these
/// twelve bytes is spoilt, and then nothing changes.
pub fn set_fields_in<S: Space>(
    space: &mut S,
    dirs: TableInfo,
    files: TableInfo,
    entry: u32,
    fields: FileFields,
) -> Result<(), Bad>
    requires { HasEntryTables (S.state space.old).shape dirs files }
    ensures set { CanChangeTables (S.state space.old) dirs files
        → HasEntry ((tables_in (S.state space.old).cells dirs files).table File) entry → IfDone (result_err result)
        (AreFieldsSet (S.state space.old) (S.state space.new) dirs files entry fields.start fields.wide) }
    ensures ready { CanChangeTables (S.state space.old) dirs files
        → HasEntry ((tables_in (S.state space.old).cells dirs files).table File) entry
        → IsReady (S.state space.old) (entry_place File files entry + 0x1C) 12 (result_err result) }
    ensures changes { ChangesAt S.state S.keeps S.lands
        (CanChangeTables (S.state space.old) dirs files
        × HasEntry ((tables_in (S.state space.old).cells dirs files).table File) entry)
        (IsWithin (entry_place File files entry + 0x1C) 12) space.old space.new (result_err result) }
{
    match entry_at(space.len(), EntryKind::File, files, entry) {
        Some(at) => put_fields(space, at + 0x1C, fields.start, fields.wide),
        None => Ok(()),
    }
}

// Puts a file's fields into twelve bytes.
fn put_fields<S: Space>(space: &mut S, at: u64, start: u32, wide: u64) -> Result<(), Bad>
    requires { IsWritable (S.state space.old).shape at 12 }
    ensures ready { CanPut (S.state space.old) at 12 → IsReady (S.state space.old) at 12 (result_err result) }
    ensures start { CanPut (S.state space.old) at 12
        → IfDone (result_err result) (number_in 4 (S.state space.new).cells at ≡ start) }
    ensures wide { CanPut (S.state space.old) at 12
        → IfDone (result_err result) (number_in 8 (S.state space.new).cells (at + 4) ≡ wide) }
    ensures bytes { CanPut (S.state space.old) at 12
        → IfDone (result_err result) ((k : ℕ) → k < 12 → IsByte ((S.state space.new).cells (at + k))) }
    ensures changes { ChangesAt S.state S.keeps S.lands (CanPut (S.state space.old) at 12) (IsWithin at 12)
        space.old space.new (result_err result) }
{
    let mut bytes = [0; 12];
    set_u32(&mut bytes, 0, start);
    set_u64(&mut bytes, 4, wide);
    space.put(at, &bytes)
}

// Puts a number into four bytes.
fn put_number<S: Space>(space: &mut S, at: u64, value: u32) -> Result<(), Bad>
    requires { IsWritable (S.state space.old).shape at 4 }
    ensures ready { CanPut (S.state space.old) at 4 → IsReady (S.state space.old) at 4 (result_err result) }
    ensures number { CanPut (S.state space.old) at 4
        → IfDone (result_err result) (number_in 4 (S.state space.new).cells at ≡ value) }
    ensures bytes { CanPut (S.state space.old) at 4
        → IfDone (result_err result) ((k : ℕ) → k < 4 → IsByte ((S.state space.new).cells (at + k))) }
    ensures changes { ChangesAt S.state S.keeps S.lands (CanPut (S.state space.old) at 4) (IsWithin at 4)
        space.old space.new (result_err result) }
{
    let mut bytes = [0; 4];
    set_u32(&mut bytes, 0, value);
    space.put(at, &bytes)
}
