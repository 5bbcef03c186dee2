//! The counts of a table, the heads of its buckets, and the fields of one entry.

ghost use Rattle.std.specs.Prelude.{◌≡◌, ◌+◌, ◌<◌, ◌≤◌, IsTrue, IfOk, OnOk, ⊤};
ghost use Rattle.save_bytes.specs.CellNumbers.{number_in};
ghost use Rattle.save_bytes.specs.Reads.{Reads};
ghost use Rattle.entry_tables.specs.Kinds.{entry_size};
ghost use Rattle.entry_tables.specs.Tables.{HasEntry, table_in, most_in, entry_place};
ghost use Rattle.entry_tables.specs.Used.{used_entries};
ghost use Rattle.entry_tables.specs.Layout.{HasCounts, HasEntryTable, TellsEntryTable, HasLink};
ghost use Rattle.entry_tables.specs.Causes.{bad_of, HasEntryCause};
ghost use Rattle.entry_tables.specs.declared.table.EntryKind.TheVariants.{File};

use crate::reads::{Counts, entry_bytes, entry_word, read_counts};
use crate::table::{EntryFault, EntryKind, FileFields, TableInfo};
use save_bytes::{Name, Space, space_u32, u32_at, u64_at};

/// How many entries of a table were ever used, and how many there can be, entry 0 included.
pub fn counts_in<S: Space>(
    space: &mut S,
    kind: EntryKind,
    info: TableInfo,
) -> Result<Counts, EntryFault>
    requires { HasEntryTable (S.state space.old).shape kind info }
    ensures count { IsTrue (S.state space.old).told
        → IfOk result (λ counts. counts.count ≡ (table_in (S.state space.old).cells kind info).count) }
    ensures most { IsTrue (S.state space.old).told
        → IfOk result (λ counts. counts.most ≡ (table_in (S.state space.old).cells kind info).most) }
    ensures known { IsTrue (S.state space.old).told → OnOk result (HasCounts (S.state space.old).cells info) }
    ensures cause { HasEntryCause (S.state space.old) kind info ⊤ (λ _ _. ⊥) result }
    ensures reads { Reads S.state S.keeps S.lands space.old space.new (bad_of result) }
{
    let counts = read_counts(space, kind, info)?;
    Ok(counts)
}

/// The first entry of a bucket's list, and 0 where it has none.
pub fn head_in<S: Space>(
    space: &mut S,
    kind: EntryKind,
    info: TableInfo,
    bucket: u32,
) -> Result<u32, EntryFault>
    requires table { HasEntryTable (S.state space.old).shape kind info }
    requires below { bucket < info.buckets }
    ensures head { IsTrue (S.state space.old).told
        → IfOk result (λ head. head ≡ (table_in (S.state space.old).cells kind info).head bucket) }
    ensures cause { HasEntryCause (S.state space.old) kind info ⊤ (λ _ _. ⊥) result }
    ensures reads { Reads S.state S.keeps S.lands space.old space.new (bad_of result) }
{
    let head = space_u32(space, info.buckets_at + 4 * u64::from(bucket))?;
    Ok(head)
}

/// The last word of an entry, and 0 where the entry does not lie in the space.
pub fn link_in<S: Space>(
    space: &mut S,
    kind: EntryKind,
    info: TableInfo,
    entry: u32,
) -> Result<u32, EntryFault>
    requires { HasEntryTable (S.state space.old).shape kind info }
    ensures link { TellsEntryTable (S.state space.old) kind info → entry < most_in (S.state space.old).cells info
        → IfOk result (λ link. link ≡ (table_in (S.state space.old).cells kind info).link entry) }
    ensures cause { HasEntryCause (S.state space.old) kind info
        (HasLink (table_in (S.state space.old).cells kind info) entry)
        (λ _ _. ⊥) result }
    ensures reads { Reads S.state S.keeps S.lands space.old space.new (bad_of result) }
{
    let link = entry_word(space, kind, info, entry, kind.link_offset())?;
    Ok(link)
}

/// A word of an entry, and 0 where the entry does not lie in the space.
pub fn word_in<S: Space>(
    space: &mut S,
    kind: EntryKind,
    info: TableInfo,
    entry: u32,
    offset: u64,
) -> Result<u32, EntryFault>
    requires table { HasEntryTable (S.state space.old).shape kind info }
    requires inside { offset + 4 ≤ entry_size kind }
    ensures word { TellsEntryTable (S.state space.old) kind info → entry < most_in (S.state space.old).cells info
        → IfOk result (λ word. word ≡ number_in 4 (S.state space.old).cells (entry_place kind info entry + offset)) }
    ensures cause { HasEntryCause (S.state space.old) kind info
        (used_entries (table_in (S.state space.old).cells kind info) entry)
        (λ _ _. ⊥) result }
    ensures reads { Reads S.state S.keeps S.lands space.old space.new (bad_of result) }
{
    let word = entry_word(space, kind, info, entry, offset)?;
    Ok(word)
}

/// The name of an entry, and zeros where the entry does not lie in the space.
pub fn name_in<S: Space>(
    space: &mut S,
    kind: EntryKind,
    info: TableInfo,
    entry: u32,
) -> Result<Name, EntryFault>
    requires { HasEntryTable (S.state space.old).shape kind info }
    ensures name { TellsEntryTable (S.state space.old) kind info
        → HasEntry (table_in (S.state space.old).cells kind info) entry
        → IfOk result (λ name. name.0 ≡ (table_in (S.state space.old).cells kind info).name entry) }
    ensures cause { HasEntryCause (S.state space.old) kind info
        (used_entries (table_in (S.state space.old).cells kind info) entry)
        (λ _ _. ⊥) result }
    ensures reads { Reads S.state S.keeps S.lands space.old space.new (bad_of result) }
{
    let mut name = [0; 16];
    entry_bytes(space, kind, info, entry, 4, &mut name)?;
    Ok(Name(name))
}

/// The fields of a file's entry, and zeros where the entry does not lie in the space.
pub fn fields_in<S: Space>(
    space: &mut S,
    info: TableInfo,
    entry: u32,
) -> Result<FileFields, EntryFault>
    requires { HasEntryTable (S.state space.old).shape File info }
    ensures start { TellsEntryTable (S.state space.old) File info → entry < most_in (S.state space.old).cells info
        → IfOk result (λ fields. fields.start ≡ number_in 4 (S.state space.old).cells
        (entry_place File info entry + 0x1C)) }
    ensures wide { TellsEntryTable (S.state space.old) File info → entry < most_in (S.state space.old).cells info
        → IfOk result (λ fields. fields.wide ≡ number_in 8 (S.state space.old).cells
        (entry_place File info entry + 0x20)) }
    ensures cause { HasEntryCause (S.state space.old) File info
        (used_entries (table_in (S.state space.old).cells File info) entry)
        (λ _ _. ⊥) result }
    ensures reads { Reads S.state S.keeps S.lands space.old space.new (bad_of result) }
{
    let mut bytes = [0; 12];
    entry_bytes(space, EntryKind::File, info, entry, 0x1C, &mut bytes)?;
    Ok(FileFields {
        start: u32_at(&bytes, 0),
        wide: u64_at(&bytes, 4),
    })
}
