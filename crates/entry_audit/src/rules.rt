//! All rules of the tables and their buckets.

ghost use Rattle.std.specs.Prelude.{◌^◌, ◌<◌, length, IfOk, IfNone, IfSome};
ghost use Rattle.entry_tables.specs.Tables.{Tables};
ghost use Rattle.entry_tables.specs.Rules.{HasApartNames, HasBucketLists, IsOrderly};
ghost use Rattle.entry_tables.specs.Fails.{RuleFailsAt};
ghost use Rattle.entry_audit.specs.Read.{IsReadTable, AreReadTables};

use crate::listed::{bucket_fault, directory_fault};
use crate::names::name_fault;
use crate::placed::place_fault;
use crate::table::{ReadTable, ReadTables, RuleFault};
use entry_tables::EntryKind;
use std::alloc::{AllocError, Global};

// Where the rule on names or the one on buckets fails, for the entries of a kind.
fn kind_fault(
    alloc: Global,
    kind: EntryKind,
    table: &ReadTable,
) -> Result<Option<RuleFault>, AllocError>
    requires entries { length table.now.entries.items < 2 ^ 32 }
    requires heads { length table.now.heads.items < 2 ^ 32 }
    ensures none { (t : Tables) → IsReadTable kind t table.now → IfOk result (λ found.
        IfNone found (HasApartNames kind (t.table kind) × HasBucketLists kind (t.table kind))) }
    ensures fault { (t : Tables) → IsReadTable kind t table.now → IfOk result (λ found.
        IfSome found (λ fault. RuleFailsAt t fault.table fault.entry)) }
{
    if let Some(entry) = name_fault(alloc, kind, table)? {
        let table = kind.table_number();
        return Ok(Some(RuleFault { table, entry }));
    }
    if let Some(entry) = bucket_fault(alloc, kind, table)? {
        let table = kind.bucket_table();
        return Ok(Some(RuleFault { table, entry }));
    }
    Ok(None)
}

/// Where a rule of the tables or their buckets fails, of those on parents, names and depths, on directories' lists, on
/// names that are the same, and on buckets; none where none does. Time grows with the entries and the buckets, but for
/// the names, which are sorted.
pub fn rule_fault(alloc: Global, read: &ReadTables) -> Result<Option<RuleFault>, AllocError>
    requires dirs { length read.now.dirs.entries.items < 2 ^ 32 }
    requires files { length read.now.files.entries.items < 2 ^ 32 }
    requires dir_heads { length read.now.dirs.heads.items < 2 ^ 32 }
    requires file_heads { length read.now.files.heads.items < 2 ^ 32 }
    ensures none { (t : Tables) → AreReadTables t read.now
        → IfOk result (λ found. IfNone found (IsOrderly t)) }
    ensures fault { (t : Tables) → AreReadTables t read.now
        → IfOk result (λ found. IfSome found (λ fault. RuleFailsAt t fault.table fault.entry)) }
{
    if let Some(fault) = place_fault(read) {
        return Ok(Some(fault));
    }
    if let Some(entry) = directory_fault(alloc, read)? {
        return Ok(Some(RuleFault { table: 2, entry }));
    }
    if let Some(fault) = kind_fault(alloc, EntryKind::Dir, &read.dirs)? {
        return Ok(Some(fault));
    }
    let found = kind_fault(alloc, EntryKind::File, &read.files)?;
    Ok(found)
}
