//! The lists of directories and of buckets.

ghost use Rattle.std.specs.Prelude.{◌≡◌, ◌↔◌, ℕ, ◌<◌, ◌≤◌, ◌^◌, List, length, replicate, IsTrue, IfOk, IfSome, IfNone};
ghost use Rattle.entry_tables.specs.declared.table.EntryKind.{EntryKind};
ghost use Rattle.entry_tables.specs.Kinds.{IsRoot};
ghost use Rattle.entry_tables.specs.Hash.{bucket_number};
ghost use Rattle.entry_tables.specs.Tables.{Tables};
ghost use Rattle.entry_tables.specs.Used.{used_entries};
ghost use Rattle.entry_tables.specs.Rules.{IsChildList, HasBucketLists};
ghost use Rattle.entry_tables.specs.Fails.{IsBrokenDirectory, IsBrokenBucket};
ghost use Rattle.entry_audit.specs.Read.{IsReadOf, IsReadTable, AreReadTables};
ghost use Rattle.entry_audit.specs.Placed.{HaveUsedParents};
ghost use Rattle.entry_audit.specs.Listed.{IsChildHead, AreChildHeads, IsChildLink, AreChildLinks};
ghost use Rattle.entry_audit.specs.Listed.{IsBucketLink, AreBucketLinks};

use crate::owned::{Link, list_fault};
use crate::table::{ReadEntry, ReadTable, ReadTables};
use entry_tables::{EntryKind, bucket};
use save_bytes::Name;
use std::alloc::{AllocError, Global};

/// A used directory of which one list, that of its directories or that of its files, has not exactly its entries, each
/// once; none where all have. Each entry's parent has to be a used directory.
pub(crate) fn directory_fault(alloc: Global, read: &ReadTables) -> Result<Option<u32>, AllocError>
    requires { length read.now.dirs.entries.items < 2 ^ 32 }
    ensures none { (t : Tables) → AreReadTables t read.now → IfOk result (λ found. IfNone found
        ((kind : EntryKind) (dir : ℕ) → used_entries (t.table EntryKind.Dir) dir
        → (list : List ℕ) × IsChildList t kind dir list)) }
    ensures fault { (t : Tables) → AreReadTables t read.now → ((kind : EntryKind) → HaveUsedParents t kind)
        → IfOk result (λ found. IfSome found (IsBrokenDirectory t)) }
{
    if let Some(dir) = child_fault(alloc, EntryKind::Dir, &read.dirs, &read.dirs)? {
        return Ok(Some(dir));
    }
    let found = child_fault(alloc, EntryKind::File, &read.dirs, &read.files)?;
    Ok(found)
}

// A used directory whose list of entries of one kind is not as it should be.
fn child_fault(
    alloc: Global,
    kind: EntryKind,
    dirs: &ReadTable,
    table: &ReadTable,
) -> Result<Option<u32>, AllocError>
    requires { length dirs.now.entries.items < 2 ^ 32 }
    ensures none { (t : Tables) → IsReadTable EntryKind.Dir t dirs.now → IsReadTable kind t table.now
        → IfOk result (λ found. IfNone found ((dir : ℕ) → used_entries (t.table EntryKind.Dir) dir
        → (list : List ℕ) × IsChildList t kind dir list)) }
    ensures fault { (t : Tables) → IsReadTable EntryKind.Dir t dirs.now → IsReadTable kind t table.now
        → HaveUsedParents t kind → IfOk result (λ found. IfSome found (λ dir. used_entries (t.table EntryKind.Dir) dir
        × ((list : List ℕ) → ¬ IsChildList t kind dir list))) }
{
    let heads = child_heads(alloc, kind, dirs)?;
    let links = child_links(alloc, kind, table)?;
    let found = list_fault(alloc, &heads, &links)?;
    Ok(found)
}

// Where the directories' lists of entries of a kind begin.
fn child_heads(alloc: Global, kind: EntryKind, dirs: &ReadTable) -> Result<Vec<u32>, AllocError>
    ensures len { IfOk result (λ heads. length heads.items ≡ length dirs.now.entries.items) }
    ensures heads { (t : Tables) → IsReadTable EntryKind.Dir t dirs.now
        → IfOk result (λ heads. AreChildHeads t kind heads.items) }
{
    let mut heads = Vec::with_capacity(alloc, dirs.entries.len())?;
    for read in &dirs.entries {
        heads.push(child_head(kind, *read))?;
    }
    Ok(heads)
}

// Where a directory's list of entries of a kind begins.
fn child_head(kind: EntryKind, dir: Option<ReadEntry>) -> u32
    ensures { (t : Tables) (d : ℕ) → IsReadOf EntryKind.Dir t d dir → IsChildHead t kind d result }
{
    match (dir, kind) {
        (None, _) => 0,
        (Some(dir), EntryKind::Dir) => dir.first_dir,
        (Some(dir), EntryKind::File) => dir.first_file,
    }
}

// The entries of a table as links of directories' lists.
fn child_links(
    alloc: Global,
    kind: EntryKind,
    table: &ReadTable,
) -> Result<Vec<Option<Link>>, AllocError>
    ensures { (t : Tables) → IsReadTable kind t table.now → IfOk result (λ links. AreChildLinks t kind links.items) }
{
    let mut links = Vec::with_capacity(alloc, table.entries.len())?;
    for (entry, read) in table.entries.iter().enumerate() {
        links.push(child_link(kind, entry, *read))?;
    }
    Ok(links)
}

// An entry as a link of a directory's list.
fn child_link(kind: EntryKind, entry: usize, read: Option<ReadEntry>) -> Option<Link>
    ensures { (t : Tables) → IsReadOf kind t entry read → IsChildLink t kind entry result }
{
    match read {
        Some(read) if !is_root(kind, entry) => Some(Link {
            next: read.sibling,
            owner: read.parent,
            must: true,
        }),
        _ => None,
    }
}

// Whether an entry is the root.
fn is_root(kind: EntryKind, entry: usize) -> bool
    ensures { IsTrue result ↔ IsRoot kind entry }
{
    entry == 1 && kind.is_root(1)
}

/// A bucket of which the list has not exactly the entries whose bucket it is, each once; none where all have. The root
/// may stand in the bucket of parent 0 and 16 zero bytes, or in none.
pub(crate) fn bucket_fault(
    alloc: Global,
    kind: EntryKind,
    table: &ReadTable,
) -> Result<Option<u32>, AllocError>
    requires { length table.now.heads.items < 2 ^ 32 }
    ensures none { (t : Tables) → IsReadTable kind t table.now
        → IfOk result (λ found. IfNone found (HasBucketLists kind (t.table kind))) }
    ensures fault { (t : Tables) → IsReadTable kind t table.now
        → IfOk result (λ found. IfSome found (IsBrokenBucket kind (t.table kind))) }
{
    if table.heads.is_empty() {
        return Ok(None);
    }
    let links = bucket_links(alloc, kind, table)?;
    let found = list_fault(alloc, &table.heads, &links)?;
    Ok(found)
}

// The entries of a table as links of buckets' lists.
fn bucket_links(
    alloc: Global,
    kind: EntryKind,
    table: &ReadTable,
) -> Result<Vec<Option<Link>>, AllocError>
    requires some { 1 ≤ length table.now.heads.items }
    requires few { length table.now.heads.items < 2 ^ 32 }
    ensures { (t : Tables) → IsReadTable kind t table.now
        → IfOk result (λ links. AreBucketLinks kind (t.table kind) links.items) }
{
    let buckets = table.heads.len() as u32;
    let mut links = Vec::with_capacity(alloc, table.entries.len())?;
    for (entry, read) in table.entries.iter().enumerate() {
        links.push(bucket_link(kind, entry, *read, buckets))?;
    }
    Ok(links)
}

// An entry as a link of a bucket's list, of so many buckets.
fn bucket_link(kind: EntryKind, entry: usize, read: Option<ReadEntry>, buckets: u32) -> Option<Link>
    requires { 1 ≤ buckets }
    ensures { (t : Tables) → (t.table kind).buckets ≡ buckets → IsReadOf kind t entry read
        → IsBucketLink kind (t.table kind) entry result }
{
    match read {
        Some(read) => {
            let root = is_root(kind, entry);
            Some(Link {
                next: read.link,
                owner: own_bucket(root, &read, buckets),
                must: !root,
            })
        }
        None => None,
    }
}

// The bucket, of so many, in which the root or another entry may stand.
fn own_bucket(root: bool, read: &ReadEntry, buckets: u32) -> u32
    requires { 1 ≤ buckets }
    ensures root { IsTrue root → result ≡ bucket_number 0 (replicate 16 0) buckets }
    ensures other { (¬ IsTrue root) → result ≡ bucket_number read.now.parent read.now.name.0 buckets }
{
    if root {
        bucket(0, &Name([0; 16]), buckets)
    } else {
        bucket(read.parent, &read.name, buckets)
    }
}
