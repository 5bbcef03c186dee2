//! Reading both tables and their buckets, each used entry once.

ghost use Rattle.std.specs.Prelude.{◌≡◌, ℕ, ◌+◌, ◌*◌, ◌/◌, ◌<◌, ◌≤◌, length, take, drop, get_or, slice_index, false};
ghost use Rattle.std.specs.Prelude.{IsTrue, IfOk, OnOk};
ghost use Rattle.std.specs.Result.{result_err};
ghost use Rattle.save_bytes.specs.Fields.{number_at};
ghost use Rattle.save_bytes.specs.Cells.{IsByte};
ghost use Rattle.save_bytes.specs.Refusals.{IfDamaged, NeverDamaged};
ghost use Rattle.save_bytes.specs.Answers.{IsRead};
ghost use Rattle.save_bytes.specs.Reads.{Reads};
ghost use Rattle.entry_tables.specs.declared.table.EntryKind.{EntryKind};
ghost use Rattle.entry_tables.specs.Kinds.{entry_size, link_offset, least_freed, table_number};
ghost use Rattle.entry_tables.specs.Tables.{table_in, tables_in, info_of, most_in, entry_place};
ghost use Rattle.entry_tables.specs.Layout.{HasEntryTable, HasEntryTables, TellsEntryTable, BlamesRead as BlamesBytes};
ghost use Rattle.entry_audit.specs.Read.{AreReadTables, table_read};
ghost use Rattle.entry_audit.specs.Reading.{IsTold, AreTold, space_bad, BlamesCell, BlamesOne, FreedFailsAt};
ghost use Rattle.entry_audit.specs.Reading.{HasReadCause, HasBytes, IsCopied, AreMarked, AreHeads, FreedFails};
ghost use Rattle.entry_audit.specs.Reading.{HasFreedBytes, IsCopiedWhere, AreCopied, IsTableCopied, HasNeededBytes};
ghost use Rattle.entry_audit.specs.Reading.{HasLengths, count_of};
ghost use Rattle.entry_tables.specs.declared.table.EntryKind.TheVariants.{Dir, File};

use crate::table::{ReadEntry, ReadTable, ReadTables, TableFault};
use entry_tables::{EntryFault, EntryKind, TableInfo, entry_bytes};
use save_bytes::{Bad, Name, Space, space_copy, u32_at, u64_at};
use std::alloc::{AllocError, Global};

impl From<Bad> for TableFault {
    ghost use Rattle.entry_tables.specs.declared.table.EntryFault.{EntryFault};
    ghost use Rattle.entry_audit.specs.declared.table.TableFault.{TableFault};

    ghost from_gives = { λ bad fault. fault ≡ TableFault.Entries (EntryFault.Bad bad) };

    fn from(bad: Bad) -> TableFault {
        TableFault::Entries(EntryFault::Bad(bad))
    }
}

// The last word of an entry, and 0 where the entry does not lie in the space.
fn read_link<S: Space>(
    space: &mut S,
    kind: EntryKind,
    info: TableInfo,
    entry: u32,
) -> Result<u32, Bad>
    requires { HasEntryTable (S.state space.old).shape kind info }
    ensures link { TellsEntryTable (S.state space.old) kind info → entry < most_in (S.state space.old).cells info
        → IfOk result (λ link. link ≡ (table_in (S.state space.old).cells kind info).link entry) }
    ensures bytes { TellsEntryTable (S.state space.old) kind info → entry < most_in (S.state space.old).cells info
        → OnOk result ((k : ℕ) → k < 4
        → IsByte ((S.state space.old).cells (entry_place kind info entry + link_offset kind + k))) }
    ensures damaged { IsTrue (S.state space.old).told → IfDamaged (result_err result)
        (BlamesBytes kind info (entry_place kind info entry + link_offset kind) 4 (S.state space.old).cells) }
    ensures plain { IsTrue (S.state space.old).shape.plain → NeverDamaged (result_err result) }
    ensures reads { Reads S.state S.keeps S.lands space.old space.new (result_err result) }
{
    let mut word = [0; 4];
    entry_bytes(space, kind, info, entry, kind.link_offset(), &mut word)?;
    Ok(u32_at(&word, 0))
}

// Whether a number can be that of a freed entry that none of those marked is.
fn can_follow(kind: EntryKind, marks: &[bool], next: u32) -> bool
    ensures yes_least { IsTrue result → least_freed kind ≤ next }
    ensures yes_below { IsTrue result → next < length marks.now }
    ensures yes_new { IsTrue result → get_or marks.now next false ≡ false }
    ensures no { result ≡ false → least_freed kind ≤ next → next < length marks.now
        → IsTrue (get_or marks.now next false) }
{
    if next < kind.least_freed() {
        return false;
    }
    match marks.get(next as usize) {
        Some(marked) => !*marked,
        None => false,
    }
}

// The refusal for an entry, 0 included, that names a wrong one as the next freed.
fn names_wrongly(kind: EntryKind, entry: u32) -> TableFault
    ensures { result ≡ TableFault.Entries (EntryFault.Broken (table_number kind) entry) }
{
    TableFault::Entries(EntryFault::Broken {
        table: kind.table_number(),
        entry,
    })
}

// The freed entries, marked among so many. They are found along their list.
fn freed_marks<S: Space>(
    alloc: Global,
    space: &mut S,
    kind: EntryKind,
    info: TableInfo,
    count: u32,
) -> Result<Vec<bool>, TableFault>
    requires { HasEntryTable (S.state space.old).shape kind info }
    ensures many { IfOk result (λ marks. length marks.items ≡ count) }
    ensures marks { IsTold (S.state space.old) kind info count
        → IfOk result (λ marks. AreMarked kind (table_in (S.state space.old).cells kind info) marks.items) }
    ensures bytes { IsTold (S.state space.old) kind info count
        → OnOk result (HasFreedBytes kind info (S.state space.old).cells) }
    ensures cause { HasReadCause (S.state space.old).shape.plain (IsTold (S.state space.old) kind info count)
        (BlamesCell kind info (S.state space.old).cells)
        (FreedFails kind (table_in (S.state space.old).cells kind info)) (result_err result) }
    ensures reads { Reads S.state S.keeps S.lands space.old space.new (space_bad (result_err result)) }
{
    let Ok(mut marks) = vec![in alloc; false; count as usize] else {
        return Err(TableFault::Memory);
    };
    let mut from = 0;
    for _freed in 0..count {
        let next = read_link(space, kind, info, from)?;
        if next == 0 {
            return Ok(marks);
        }
        if !can_follow(kind, &marks, next) {
            return Err(names_wrongly(kind, from));
        }
        marks[next as usize] = true;
        from = next;
    }
    Err(names_wrongly(kind, from))
}

// The fields that come first in the bytes of an entry of either kind.
fn first_fields(bytes: &[u8]) -> ReadEntry
    requires { 40 ≤ length bytes.now }
    ensures parent { result.parent ≡ number_at 4 bytes.now 0 }
    ensures name { result.name.0 ≡ take 16 (drop 4 bytes.now) }
    ensures sibling { result.sibling ≡ number_at 4 bytes.now 0x14 }
{
    let mut name = [0; 16];
    name.copy_from_slice(&bytes[4..20]);
    ReadEntry {
        parent: u32_at(bytes, 0),
        name: Name(name),
        sibling: u32_at(bytes, 0x14),
        link: 0,
        first_dir: 0,
        first_file: 0,
        start: 0,
        wide: 0,
    }
}

// All fields, in an entry's bytes.
fn all_fields(kind: EntryKind, bytes: &[u8]) -> ReadEntry
    requires { length bytes.now ≡ entry_size kind }
    ensures { HasBytes kind bytes.now result }
{
    match kind {
        EntryKind::Dir => ReadEntry {
            link: u32_at(bytes, 0x24),
            first_dir: u32_at(bytes, 0x18),
            first_file: u32_at(bytes, 0x1C),
            ..first_fields(bytes)
        },
        EntryKind::File => ReadEntry {
            link: u32_at(bytes, 0x2C),
            start: u32_at(bytes, 0x1C),
            wide: u64_at(bytes, 0x20),
            ..first_fields(bytes)
        },
    }
}

// An entry, by one copy of its bytes.
fn read_entry<S: Space>(
    space: &mut S,
    kind: EntryKind,
    info: TableInfo,
    entry: u32,
) -> Result<ReadEntry, Bad>
    requires { HasEntryTable (S.state space.old).shape kind info }
    ensures fields { TellsEntryTable (S.state space.old) kind info → entry < most_in (S.state space.old).cells info
        → IfOk result (IsCopied kind info (S.state space.old).cells entry) }
    ensures damaged { IsTrue (S.state space.old).told → IfDamaged (result_err result)
        (BlamesBytes kind info (entry_place kind info entry + 0) (entry_size kind) (S.state space.old).cells) }
    ensures plain { IsTrue (S.state space.old).shape.plain → NeverDamaged (result_err result) }
    ensures reads { Reads S.state S.keeps S.lands space.old space.new (result_err result) }
{
    let mut most = [0; 48];
    let bytes = &mut most[..kind.entry_size() as usize];
    entry_bytes(space, kind, info, entry, 0, bytes)?;
    Ok(all_fields(kind, bytes))
}

// Whether an entry is used, where the freed ones are marked.
fn is_used(marks: &[bool], entry: u32) -> bool
    requires { entry < length marks.now }
    ensures some { IsTrue result → 1 ≤ entry }
    ensures unmarked { IsTrue result → get_or marks.now entry false ≡ false }
    ensures no { result ≡ false → 1 ≤ entry → IsTrue (get_or marks.now entry false) }
{
    entry != 0 && !marks[entry as usize]
}

// An entry, where it is used.
fn read_used<S: Space>(
    space: &mut S,
    kind: EntryKind,
    info: TableInfo,
    entry: u32,
    used: bool,
) -> Result<Option<ReadEntry>, Bad>
    requires { HasEntryTable (S.state space.old).shape kind info }
    ensures fields { TellsEntryTable (S.state space.old) kind info → entry < most_in (S.state space.old).cells info
        → IfOk result (IsCopiedWhere kind info (S.state space.old).cells entry used) }
    ensures unused { used ≡ false → NeverDamaged (result_err result) }
    ensures damaged { IsTrue (S.state space.old).told → IfDamaged (result_err result)
        (BlamesBytes kind info (entry_place kind info entry + 0) (entry_size kind) (S.state space.old).cells) }
    ensures plain { IsTrue (S.state space.old).shape.plain → NeverDamaged (result_err result) }
    ensures reads { Reads S.state S.keeps S.lands space.old space.new (result_err result) }
{
    if !used {
        return Ok(None);
    }
    let read = read_entry(space, kind, info, entry)?;
    Ok(Some(read))
}

// All used entries among so many, by their numbers, where the freed ones are marked.
fn read_entries<S: Space>(
    alloc: Global,
    space: &mut S,
    kind: EntryKind,
    info: TableInfo,
    count: u32,
    marks: &[bool],
) -> Result<Vec<Option<ReadEntry>>, TableFault>
    requires table { HasEntryTable (S.state space.old).shape kind info }
    requires marked { length marks.now ≡ count }
    ensures many { IfOk result (λ entries. length entries.items ≡ count) }
    ensures entries { IsTold (S.state space.old) kind info count
        → AreMarked kind (table_in (S.state space.old).cells kind info) marks.now
        → IfOk result (λ entries. AreCopied kind info (S.state space.old).cells entries.items) }
    ensures cause { HasReadCause (S.state space.old).shape.plain
        (IsTold (S.state space.old) kind info count × AreMarked kind (table_in (S.state space.old).cells kind info)
        marks.now)
        (BlamesCell kind info (S.state space.old).cells) (λ table entry. ⊥) (result_err result) }
    ensures reads { Reads S.state S.keeps S.lands space.old space.new (space_bad (result_err result)) }
{
    let Ok(mut entries) = Vec::with_capacity(alloc, count as usize) else {
        return Err(TableFault::Memory);
    };
    for entry in 0..count {
        let read = read_used(space, kind, info, entry, is_used(marks, entry))?;
        let Ok(()) = entries.push(read) else {
            return Err(TableFault::Memory);
        };
    }
    Ok(entries)
}

// The heads of buckets, in their bytes.
fn heads_in(alloc: Global, bytes: &[u8]) -> Result<Vec<u32>, AllocError>
    ensures many { IfOk result (λ heads. length heads.items ≡ length bytes.now / 4) }
    ensures each { IfOk result (λ heads. (bucket : ℕ) → bucket < length bytes.now / 4
        → slice_index heads.items bucket ≡ number_at 4 bytes.now (4 * bucket)) }
{
    let count = bytes.len() / 4;
    let mut heads = Vec::with_capacity(alloc, count)?;
    for bucket in 0..count {
        heads.push(u32_at(bytes, 4 * bucket))?;
    }
    Ok(heads)
}

// The heads of a table's buckets.
fn read_heads<S: Space>(
    alloc: Global,
    space: &mut S,
    kind: EntryKind,
    info: TableInfo,
) -> Result<Vec<u32>, TableFault>
    requires { HasEntryTable (S.state space.old).shape kind info }
    ensures many { IfOk result (λ heads. length heads.items ≡ info.buckets) }
    ensures heads { IsTrue (S.state space.old).told
        → IfOk result (λ heads. AreHeads (table_in (S.state space.old).cells kind info) heads.items) }
    ensures bytes { IsTrue (S.state space.old).told
        → OnOk result ((k : ℕ) → k < 4 * info.buckets → IsByte ((S.state space.old).cells (info.buckets_at + k))) }
    ensures cause { HasReadCause (S.state space.old).shape.plain (IsTrue (S.state space.old).told)
        (BlamesCell kind info (S.state space.old).cells) (λ table entry. ⊥) (result_err result) }
    ensures reads { Reads S.state S.keeps S.lands space.old space.new (space_bad (result_err result)) }
{
    let Ok(mut bytes) = vec![in alloc; 0; 4 * info.buckets as usize] else {
        return Err(TableFault::Memory);
    };
    space_copy(space, info.buckets_at, &mut bytes)?;
    match heads_in(alloc, &bytes) {
        Ok(heads) => Ok(heads),
        Err(AllocError) => Err(TableFault::Memory),
    }
}

// Entry 0, of which all bytes are needed.
fn read_zero<S: Space>(space: &mut S, kind: EntryKind, info: TableInfo) -> Result<(), Bad>
    requires { HasEntryTable (S.state space.old).shape kind info }
    ensures read { IsRead (S.state space.old) info.table_at (entry_size kind) (result_err result) }
    ensures reads { Reads S.state S.keeps S.lands space.old space.new (result_err result) }
{
    let mut bytes = [0; 48];
    space_copy(
        space,
        info.table_at,
        &mut bytes[..kind.entry_size() as usize],
    )
}

// A table with its buckets.
fn read_table<S: Space>(
    alloc: Global,
    space: &mut S,
    kind: EntryKind,
    info: TableInfo,
    count: u32,
) -> Result<ReadTable, TableFault>
    requires { HasEntryTable (S.state space.old).shape kind info }
    ensures entries_many { IfOk result (λ table. length table.entries.items ≡ count) }
    ensures heads_many { IfOk result (λ table. length table.heads.items ≡ info.buckets) }
    ensures table { IsTold (S.state space.old) kind info count
        → IfOk result (IsTableCopied kind info (S.state space.old).cells) }
    ensures cause { HasReadCause (S.state space.old).shape.plain (IsTold (S.state space.old) kind info count)
        (BlamesCell kind info (S.state space.old).cells)
        (FreedFails kind (table_in (S.state space.old).cells kind info)) (result_err result) }
    ensures reads { Reads S.state S.keeps S.lands space.old space.new (space_bad (result_err result)) }
{
    let heads = read_heads(alloc, space, kind, info)?;
    read_zero(space, kind, info)?;
    let marks = freed_marks(alloc, space, kind, info, count)?;
    let entries = read_entries(alloc, space, kind, info, count, &marks)?;
    Ok(ReadTable { entries, heads })
}

/// Both tables with their buckets, of which each used entry is read once. They have so many entries, entry 0 included,
/// as the tables say; at most 8,194 each, so that little memory is taken whatever is said.
///
/// `Broken` names an entry, 0 included, whose last word is a wrong number for the next freed entry. `NoEntry` never
/// comes.
pub fn read_tables<S: Space>(
    alloc: Global,
    space: &mut S,
    dirs: TableInfo,
    files: TableInfo,
    dir_count: u32,
    file_count: u32,
) -> Result<ReadTables, TableFault>
    requires tables { HasEntryTables (S.state space.old).shape dirs files }
    requires few_dirs { dir_count ≤ 8194 }
    requires few_files { file_count ≤ 8194 }
    ensures read { AreTold (S.state space.old) dirs files dir_count file_count
        → IfOk result (AreReadTables (tables_in (S.state space.old).cells dirs files)) }
    ensures bytes { AreTold (S.state space.old) dirs files dir_count file_count
        → OnOk result (HasNeededBytes dirs files (S.state space.old).cells) }
    ensures lengths { IfOk result (λ read. (kind : EntryKind) → HasLengths (info_of dirs files kind).buckets
        (count_of dir_count file_count kind) (table_read read kind)) }
    ensures cause { HasReadCause (S.state space.old).shape.plain
        (AreTold (S.state space.old) dirs files dir_count file_count) (BlamesOne dirs files (S.state space.old).cells)
        (FreedFailsAt (tables_in (S.state space.old).cells dirs files)) (result_err result) }
    ensures reads { Reads S.state S.keeps S.lands space.old space.new (space_bad (result_err result)) }
{
    let dir_table = read_table(alloc, space, EntryKind::Dir, dirs, dir_count)?;
    let file_table = read_table(alloc, space, EntryKind::File, files, file_count)?;
    Ok(ReadTables {
        dirs: dir_table,
        files: file_table,
    })
}
