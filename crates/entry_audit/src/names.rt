//! Whether two entries of one kind have one parent and name.

ghost use Rattle.std.specs.Prelude.{◌^◌, ◌<◌, length, IfOk, IfSome, IfNone};
ghost use Rattle.entry_tables.specs.declared.table.EntryKind.{EntryKind};
ghost use Rattle.entry_tables.specs.Tables.{Tables};
ghost use Rattle.entry_tables.specs.Used.{named_entries};
ghost use Rattle.entry_tables.specs.Rules.{HasApartNames};
ghost use Rattle.entry_tables.specs.Fails.{SharesName};
ghost use Rattle.entry_audit.specs.Read.{IsReadEntry, IsReadTable};

use crate::placed::entry_of;
use crate::table::{ReadEntry, ReadTable};
use entry_tables::EntryKind;
use std::alloc::{AllocError, Global};
use std::collections::BTreeMap;

/// What was read of an entry other than the root: none where it is the root or not used.
pub fn named_of(kind: EntryKind, table: &ReadTable, entry: u32) -> Option<ReadEntry>
    ensures named { (t : Tables) → IsReadTable kind t table.now → IfSome result (λ read.
        named_entries kind (t.table kind) entry × IsReadEntry kind t entry read) }
    ensures other { (t : Tables) → IsReadTable kind t table.now
        → IfNone result (¬ named_entries kind (t.table kind) entry) }
{
    if kind.is_root(entry) {
        return None;
    }
    entry_of(table, entry)
}

/// An entry other than the root that has the parent and the name of another one; none where no two have the same.
pub fn name_fault(
    alloc: Global,
    kind: EntryKind,
    table: &ReadTable,
) -> Result<Option<u32>, AllocError>
    requires { length table.now.entries.items < 2 ^ 32 }
    ensures none { (t : Tables) → IsReadTable kind t table.now
        → IfOk result (λ found. IfNone found (HasApartNames kind (t.table kind))) }
    ensures fault { (t : Tables) → IsReadTable kind t table.now
        → IfOk result (λ found. IfSome found (SharesName kind (t.table kind))) }
{
    let count = table.entries.len() as u32;
    let mut names = BTreeMap::new(alloc);
    for entry in 0..count {
        if let Some(read) = named_of(kind, table, entry) {
            let name = read.name.0;
            let Ok(before) = names.insert((read.parent, name), entry) else {
                return Err(AllocError);
            };
            if before.is_some() {
                return Ok(Some(entry));
            }
        }
    }
    Ok(None)
}
