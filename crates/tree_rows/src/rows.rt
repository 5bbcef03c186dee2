//! The rows of entries, in order.

ghost use Rattle.std.specs.Prelude.{◌≡◌, ℕ, ◌^◌, ◌<◌, IfOk, OnOk, List, length};
ghost use Rattle.std.specs.List.{All};
ghost use Rattle.std.specs.BTreeMap.{IsOrdered};
ghost use Rattle.std.specs.Map.{values_of};
ghost use Rattle.save_bytes.specs.Cells.{Cell};
ghost use Rattle.entry_tables.specs.declared.table.EntryKind.{EntryKind};
ghost use Rattle.entry_tables.specs.declared.table.EntryKind.TheVariants.{Dir, File};
ghost use Rattle.entry_tables.specs.Tables.{Tables};
ghost use Rattle.entry_tables.specs.Rules.{IsOrderly};
ghost use Rattle.entry_audit.specs.Read.{AreReadTables, IsReadTable, table_read};
ghost use Rattle.tree_model.specs.Trees.{Tree};
ghost use Rattle.tree_model.specs.Listings.{ListsTree};
ghost use Rattle.tree_rules.specs.declared.information.Places.{Places};
ghost use Rattle.tree_rules.specs.Lists.{Holder};
ghost use Rattle.tree_rules.specs.Reading.{IsReadBy};
ghost use Rattle.tree_rows.specs.Rows.{IsPairOf, AddsRows, IsEntryRow, kind_at, key_cmp, sized_row};

use crate::paths::{dir_names, path_of};
use entry_audit::{EntryKind, ReadTable, ReadTables, entry_of, named_of};
use save_bytes::Path;
use std::alloc::{AllocError, Global};
use std::collections::BTreeMap;
use tree_model::{Row, TreeKind};

/// The names of a path, and whether it is a file's.
type Key = (Vec<[u8; 16]>, bool);

// The row of a file with this size, or with this identifier.
fn file_row(kind: TreeKind, path: Path, wide: u64) -> Row
    ensures { result ≡ sized_row kind path wide }
{
    match kind {
        TreeKind::Save => Row::File(path, wide),
        TreeKind::Vsxe => Row::Link(path, wide),
    }
}

// A directory's key and row: none where it is not used.
fn dir_pair(
    alloc: Global,
    kind: TreeKind,
    dirs: &ReadTable,
    dir: u32,
) -> Result<Option<(Key, Row)>, AllocError>
    ensures { (t : Tables) → IsReadTable Dir t dirs.now → IsOrderly t → IfOk result (IsPairOf kind t Dir dir) }
{
    let Some(_) = entry_of(dirs, dir) else {
        return Ok(None);
    };
    let names = dir_names(alloc, dirs, dir)?;
    let row = Row::Dir(path_of(&names));
    Ok(Some(((names, false), row)))
}

// A file's key and row: none where it is not used.
fn file_pair(
    alloc: Global,
    kind: TreeKind,
    read: &ReadTables,
    file: u32,
) -> Result<Option<(Key, Row)>, AllocError>
    ensures { (t : Tables) → AreReadTables t read.now → IsOrderly t → IfOk result (IsPairOf kind t File file) }
{
    let Some(entry) = named_of(EntryKind::File, &read.files, file) else {
        return Ok(None);
    };
    let mut names = dir_names(alloc, &read.dirs, entry.parent)?;
    names.push(entry.name.0)?;
    let row = file_row(kind, path_of(&names), entry.wide);
    Ok(Some(((names, true), row)))
}

// An entry's key and row: none where it is not used.
fn pair_of(
    alloc: Global,
    kind: TreeKind,
    entries: EntryKind,
    read: &ReadTables,
    entry: u32,
) -> Result<Option<(Key, Row)>, AllocError>
    ensures { (t : Tables) → AreReadTables t read.now → IsOrderly t → IfOk result (IsPairOf kind t entries entry) }
{
    match entries {
        EntryKind::Dir => dir_pair(alloc, kind, &read.dirs, entry),
        EntryKind::File => file_pair(alloc, kind, read, entry),
    }
}

// How many entries of a kind were read, entry 0 included.
fn count_of(entries: EntryKind, read: &ReadTables) -> u32
    requires { length (table_read read.now entries).entries.items < 2 ^ 32 }
    ensures { result ≡ length (table_read read.now entries).entries.items }
{
    match entries {
        EntryKind::Dir => read.dirs.entries.len() as u32,
        EntryKind::File => read.files.entries.len() as u32,
    }
}

// Adds the rows of all entries of a kind.
fn add_rows(
    alloc: Global,
    kind: TreeKind,
    entries: EntryKind,
    read: &ReadTables,
    found: &mut BTreeMap<Key, Row>,
) -> Result<(), AllocError>
    requires { length (table_read read.now entries).entries.items < 2 ^ 32 }
    ensures { (t : Tables) → AreReadTables t read.now → IsOrderly t → All (IsEntryRow kind t) found.old.entries
        → OnOk result (AddsRows kind t entries (t.table entries).count found.old.entries found.new.entries) }
{
    let count = count_of(entries, read);
    for entry in 0..count {
        if let Some((key, row)) = pair_of(alloc, kind, entries, read, entry)? {
            let Ok(_) = found.insert(key, row) else {
                return Err(AllocError);
            };
        }
    }
    Ok(())
}

// The rows of a map, in its order.
fn rows_in(alloc: Global, found: BTreeMap<Key, Row>) -> Result<Vec<Row>, AllocError>
    ensures rows { IfOk result (λ rows. rows.items ≡ values_of found.entries) }
    ensures ordered { IsOrdered key_cmp found }
{
    let mut rows = Vec::with_capacity(alloc, found.len())?;
    rows.extend(found.into_values())?;
    Ok(rows)
}

/// The rows of the tree whose tables were read, in order: one for each used directory, the root included, and one
/// for each used file, with its size in a `SAVE` and its identifier in a `VSXE`. Each entry's path is made once, by
/// at most 64 parents, and no list of children is followed.
pub fn rows_of(alloc: Global, kind: TreeKind, read: &ReadTables) -> Result<Vec<Row>, AllocError>
    requires dirs { length read.now.dirs.entries.items < 2 ^ 32 }
    requires files { length read.now.files.entries.items < 2 ^ 32 }
    ensures { (cells : ℕ → Cell) (lists : Holder → List ℕ) (p : Places) (t : Tables) (tree : Tree)
        → AreReadTables t read.now → IsOrderly t → IsReadBy kind cells lists p t tree
        → IfOk result (λ rows. ListsTree tree rows.items) }
{
    let mut found = BTreeMap::new(alloc);
    add_rows(alloc, kind, EntryKind::Dir, read, &mut found)?;
    add_rows(alloc, kind, EntryKind::File, read, &mut found)?;
    rows_in(alloc, found)
}
