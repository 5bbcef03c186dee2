//! Whether each entry stands in a used directory, has a name, and is not too deep.

ghost use Rattle.std.specs.Prelude.{◌≡◌, ◌≢◌, ℕ, ◌^◌, ◌<◌, length, replicate, false, IsTrue, IfSome, IfNone};
ghost use Rattle.entry_tables.specs.declared.table.EntryKind.{EntryKind};
ghost use Rattle.entry_tables.specs.declared.table.EntryKind.TheVariants.{Dir};
ghost use Rattle.entry_tables.specs.Kinds.{table_number};
ghost use Rattle.entry_tables.specs.Tables.{Tables};
ghost use Rattle.entry_tables.specs.Used.{used_entries, named_entries};
ghost use Rattle.entry_tables.specs.Rules.{IsPlacedEntry};
ghost use Rattle.entry_audit.specs.Read.{IsReadEntry, IsReadTable, AreReadTables};
ghost use Rattle.entry_audit.specs.Placed.{IsNamedWell, HaveUsedParents, IsShallow, PlaceFailsAt};

use crate::table::{ReadEntry, ReadTable, ReadTables, RuleFault};
use entry_tables::EntryKind;

/// What was read of an entry: none where it is not used.
pub fn entry_of(table: &ReadTable, entry: u32) -> Option<ReadEntry>
    ensures used { IfSome result (λ read. (kind : EntryKind) (t : Tables) → IsReadTable kind t table.now
        → used_entries (t.table kind) entry × IsReadEntry kind t entry read) }
    ensures unused { IfNone result ((kind : EntryKind) (t : Tables) → IsReadTable kind t table.now
        → ¬ used_entries (t.table kind) entry) }
{
    match table.entries.get(entry as usize) {
        Some(read) => *read,
        None => None,
    }
}

// Whether what was read of an entry is a used directory as parent, and a name.
fn is_named_well(dirs: &ReadTable, read: &ReadEntry) -> bool
    ensures parent { (t : Tables) → IsReadTable Dir t dirs.now → IsTrue result
        → used_entries (t.table Dir) read.now.parent }
    ensures name { IsTrue result → read.now.name.0 ≢ replicate 16 0 }
    ensures no { (t : Tables) → IsReadTable Dir t dirs.now → result ≡ false
        → used_entries (t.table Dir) read.now.parent → read.now.name.0 ≡ replicate 16 0 }
{
    entry_of(dirs, read.parent).is_some() && !read.name.is_empty()
}

// Whether an entry has a used directory as parent, and a name, unless it is the root or not used.
fn is_well_at(kind: EntryKind, dirs: &ReadTable, table: &ReadTable, entry: u32) -> bool
    ensures yes { (t : Tables) → IsReadTable Dir t dirs.now → IsReadTable kind t table.now → IsTrue result
        → named_entries kind (t.table kind) entry → IsNamedWell t kind entry }
    ensures no { (t : Tables) → IsReadTable Dir t dirs.now → IsReadTable kind t table.now → result ≡ false
        → named_entries kind (t.table kind) entry × ¬ IsNamedWell t kind entry }
{
    if kind.is_root(entry) {
        return true;
    }
    match entry_of(table, entry) {
        Some(read) => is_named_well(dirs, &read),
        None => true,
    }
}

// An entry other than the root that has no used directory as parent, or no name.
fn unnamed(kind: EntryKind, dirs: &ReadTable, table: &ReadTable) -> Option<u32>
    requires { length table.now.entries.items < 2 ^ 32 }
    ensures none { (t : Tables) → IsReadTable Dir t dirs.now → IsReadTable kind t table.now
        → IfNone result ((e : ℕ) → named_entries kind (t.table kind) e → IsNamedWell t kind e) }
    ensures fault { (t : Tables) → IsReadTable Dir t dirs.now → IsReadTable kind t table.now
        → IfSome result (λ e. named_entries kind (t.table kind) e × ¬ IsNamedWell t kind e) }
{
    let count = table.entries.len() as u32;
    for entry in 0..count {
        if !is_well_at(kind, dirs, table, entry) {
            return Some(entry);
        }
    }
    None
}

// Whether the way from a directory to the root, by parents, passes at most 63 directories, itself included.
fn is_shallow(dirs: &ReadTable, dir: u32) -> bool
    ensures yes { (t : Tables) → IsReadTable Dir t dirs.now → IsTrue result → IsShallow (t.table Dir) dir }
    ensures no { (t : Tables) → IsReadTable Dir t dirs.now → HaveUsedParents t Dir → used_entries (t.table Dir) dir
        → result ≡ false → ¬ IsShallow (t.table Dir) dir }
{
    let mut at = dir;
    for _passed in 0_u32..64 {
        if at == 1 {
            return true;
        }
        let Some(read) = entry_of(dirs, at) else {
            return false;
        };
        at = read.parent;
    }
    false
}

// Whether an entry's parent is so, unless it is the root or not used.
fn is_near(kind: EntryKind, dirs: &ReadTable, table: &ReadTable, entry: u32) -> bool
    ensures yes { (t : Tables) → IsReadTable Dir t dirs.now → IsReadTable kind t table.now → IsTrue result
        → named_entries kind (t.table kind) entry → IsShallow (t.table Dir) ((t.table kind).parent entry) }
    ensures no { (t : Tables) → IsReadTable Dir t dirs.now → IsReadTable kind t table.now
        → HaveUsedParents t Dir → HaveUsedParents t kind → result ≡ false
        → named_entries kind (t.table kind) entry × ¬ IsShallow (t.table Dir) ((t.table kind).parent entry) }
{
    if kind.is_root(entry) {
        return true;
    }
    match entry_of(table, entry) {
        Some(read) => is_shallow(dirs, read.parent),
        None => true,
    }
}

// An entry other than the root that is too deep.
fn too_deep(kind: EntryKind, dirs: &ReadTable, table: &ReadTable) -> Option<u32>
    requires { length table.now.entries.items < 2 ^ 32 }
    ensures none { (t : Tables) → IsReadTable Dir t dirs.now → IsReadTable kind t table.now
        → IfNone result ((e : ℕ) → named_entries kind (t.table kind) e
        → IsShallow (t.table Dir) ((t.table kind).parent e)) }
    ensures fault { (t : Tables) → IsReadTable Dir t dirs.now → IsReadTable kind t table.now
        → HaveUsedParents t Dir → HaveUsedParents t kind → IfSome result (λ e. named_entries kind (t.table kind) e
        × ¬ IsShallow (t.table Dir) ((t.table kind).parent e)) }
{
    let count = table.entries.len() as u32;
    for entry in 0..count {
        if !is_near(kind, dirs, table, entry) {
            return Some(entry);
        }
    }
    None
}

// A fault at an entry of a kind.
fn at_entry(kind: EntryKind, entry: u32) -> RuleFault
    ensures table { result.table ≡ table_number kind }
    ensures entry { result.entry ≡ entry }
{
    RuleFault {
        table: kind.table_number(),
        entry,
    }
}

/// An entry other than the root whose parent is no used directory, whose name is sixteen zero bytes, or from which
/// parents do not lead to the root in at most 64 steps; none where there is no such entry.
pub fn place_fault(read: &ReadTables) -> Option<RuleFault>
    requires dirs { length read.now.dirs.entries.items < 2 ^ 32 }
    requires files { length read.now.files.entries.items < 2 ^ 32 }
    ensures none { (t : Tables) → AreReadTables t read.now → IfNone result ((kind : EntryKind) (e : ℕ)
        → named_entries kind (t.table kind) e → IsPlacedEntry t kind e) }
    ensures parents { (t : Tables) → AreReadTables t read.now → IfNone result ((kind : EntryKind)
        → HaveUsedParents t kind) }
    ensures fault { (t : Tables) → AreReadTables t read.now
        → IfSome result (λ found. PlaceFailsAt t found.table found.entry) }
{
    if let Some(dir) = unnamed(EntryKind::Dir, &read.dirs, &read.dirs) {
        return Some(at_entry(EntryKind::Dir, dir));
    }
    if let Some(file) = unnamed(EntryKind::File, &read.dirs, &read.files) {
        return Some(at_entry(EntryKind::File, file));
    }
    if let Some(dir) = too_deep(EntryKind::Dir, &read.dirs, &read.dirs) {
        return Some(at_entry(EntryKind::Dir, dir));
    }
    match too_deep(EntryKind::File, &read.dirs, &read.files) {
        Some(file) => Some(at_entry(EntryKind::File, file)),
        None => None,
    }
}
