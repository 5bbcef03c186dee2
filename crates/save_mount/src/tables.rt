//! Both tables of entries: where they stand, how they are read, and their rules.

ghost use Rattle.std.specs.Prelude.{◌≡◌, ℕ, ◌+◌, ◌*◌, ◌^◌, ◌<◌, ◌≤◌, IsTrue, IfOk, IfErr, Option, IfSome, None, List, length};
ghost use Rattle.std.specs.Prelude.{◌++◌, ◌≢◌, get_or, false};
ghost use Rattle.save_bytes.specs.Reads.{Reads};
ghost use Rattle.save_bytes.specs.Cells.{Cell};
ghost use Rattle.container_header.specs.Conditions.{first_failing};
ghost use Rattle.entry_tables.specs.declared.table.EntryKind.{EntryKind};
ghost use Rattle.entry_tables.specs.declared.table.EntryKind.TheVariants.{Dir, File};
ghost use Rattle.entry_tables.specs.Tables.{Tables, tables_in};
ghost use Rattle.entry_tables.specs.Rules.{IsOrderly};
ghost use Rattle.entry_tables.specs.Fails.{RuleFailsAt};
ghost use Rattle.entry_audit.specs.Read.{IsReadTable, AreReadTables};
ghost use Rattle.tree_rules.specs.Reading.{IsRoomOf};
ghost use Rattle.tree_rules.specs.Layout.{place_faults};
ghost use Rattle.tree_rules.specs.Places.{
  places_of,
  table_start,
  table_info,
  table_blocks,
  blocks_in_chain,
  laid_cells,
};
ghost use Rattle.save_mount.specs.Held.{AreTableBlocks};
ghost use Rattle.save_mount.specs.Causes.{refusal_in};
ghost use Rattle.save_mount.specs.Audited.{
  CanAudit,
  AreCountsOf,
  AreCounted,
  AreFew,
  AreTablesRead,
  HasTablesCause,
  table_cause,
  HasRuleCause,
  HasUnread,
  AreShort,
  AreLong,
  IsAudited,
};

use crate::fault::{MountFault, refused};
use entry_audit::{ReadEntry, ReadTable, ReadTables, TableFault, read_tables, rule_fault};
use entry_tables::{Counts, EntryFault, EntryKind, TableInfo, read_counts};
use save_bytes::Space;
use std::alloc::{AllocError, Global};
use tree_layout::table_fault;
use tree_rules::{Information, Places, TableAt, TreeKind};

/// Both tables as they were read, where they stand, and how many entries can be added to each.
#[derive(Debug, Drop)]
pub struct Audited {
    pub read: ReadTables,
    pub dirs: TableInfo,
    pub files: TableInfo,
    pub free_dirs: u32,
    pub free_files: u32,
}

// Where a table begins, whose data blocks lie once more from `behind` on.
fn table_start(behind: u64, at: &TableAt) -> u64
    ensures { result ≡ table_start behind at.now }
{
    match *at {
        TableAt::Plainly(at) => at,
        TableAt::InChain { .. } => behind,
    }
}

// How many data blocks a table has.
fn blocks_in_chain(at: &TableAt) -> u32
    ensures { result ≡ blocks_in_chain at.now }
{
    match *at {
        TableAt::Plainly(_) => 0,
        TableAt::InChain { blocks, .. } => blocks,
    }
}

// Where both tables stand in a store of `size` bytes behind which their data blocks lie once more.
pub fn table_infos(size: u64, p: &Places) -> (TableInfo, TableInfo)
    requires { size + blocks_in_chain p.now.dirs.table * p.now.chain.block < 2 ^ 64 }
    ensures dirs { result.0 ≡ table_info size p.now Dir }
    ensures files { result.1 ≡ table_info size p.now File }
{
    let behind = size + u64::from(blocks_in_chain(&p.dirs.table)) * u64::from(p.chain.block);
    let dirs = TableInfo {
        buckets_at: p.dirs.buckets_at,
        buckets: p.dirs.buckets,
        table_at: table_start(size, &p.dirs.table),
    };
    let files = TableInfo {
        buckets_at: p.files.buckets_at,
        buckets: p.files.buckets,
        table_at: table_start(behind, &p.files.table),
    };
    (dirs, files)
}

// The counts of both tables, by which no condition on where all lies fails.
fn read_layout<S: Space>(
    space: &mut S,
    kind: TreeKind,
    split: Option<u64>,
    size: u64,
    info: &Information,
    dirs: TableInfo,
    files: TableInfo,
) -> Result<(Counts, Counts), MountFault>
    requires { CanAudit (S.state space.old).shape kind split size info.now dirs files }
    ensures counted { IsTrue (S.state space.old).told
        → IfOk result (AreCounted kind split size info.now dirs files (S.state space.old).cells) }
    ensures few { IfOk result AreFew }
    ensures cause { IsTrue (S.state space.old).told
        → IfErr result (HasTablesCause kind split size info.now dirs files (S.state space.old).cells) }
    ensures reads { Reads S.state S.keeps S.lands space.old space.new (refusal_in result) }
{
    let dir_counts = match read_counts(space, EntryKind::Dir, dirs) {
        Ok(counts) => counts,
        Err(bad) => return Err(refused(bad)),
    };
    let file_counts = match read_counts(space, EntryKind::File, files) {
        Ok(counts) => counts,
        Err(bad) => return Err(refused(bad)),
    };
    match table_fault(kind, split, size, info, dir_counts, file_counts) {
        None => Ok((dir_counts, file_counts)),
        Some(condition) => Err(MountFault::Layout { condition }),
    }
}

// What the fault of a table comes to: there is always an entry to read.
fn refused_table(fault: TableFault) -> MountFault
    ensures { result ≡ table_cause fault }
{
    match fault {
        TableFault::Memory => MountFault::Memory,
        TableFault::Entries(EntryFault::Bad(bad)) => refused(bad),
        TableFault::Entries(EntryFault::Broken { table, entry }) => MountFault::Broken {
            table,
            entry,
        },
        TableFault::Entries(EntryFault::NoEntry { .. }) => MountFault::Memory,
    }
}

// Both tables, of which no condition on where all lies fails.
pub(crate) fn read_both<S: Space>(
    alloc: Global,
    space: &mut S,
    kind: TreeKind,
    split: Option<u64>,
    size: u64,
    info: &Information,
    dirs: TableInfo,
    files: TableInfo,
) -> Result<(ReadTables, (Counts, Counts)), MountFault>
    requires { CanAudit (S.state space.old).shape kind split size info.now dirs files }
    ensures read { IsTrue (S.state space.old).told
        → IfOk result (AreTablesRead kind split size info.now dirs files (S.state space.old).cells) }
    ensures long { IfOk result AreLong }
    ensures cause { IsTrue (S.state space.old).told
        → IfErr result (HasTablesCause kind split size info.now dirs files (S.state space.old).cells) }
    ensures reads { Reads S.state S.keeps S.lands space.old space.new (refusal_in result) }
{
    let (dir_counts, file_counts) = match read_layout(space, kind, split, size, info, dirs, files) {
        Ok(counts) => counts,
        Err(fault) => return Err(fault),
    };
    match read_tables(
        alloc,
        space,
        dirs,
        files,
        dir_counts.count,
        file_counts.count,
    ) {
        Ok(read) => Ok((read, (dir_counts, file_counts))),
        Err(fault) => Err(refused_table(fault)),
    }
}

// Tries the rules of the tables on what was read.
fn try_rules(alloc: Global, read: &ReadTables) -> Result<(), MountFault>
    requires { AreShort read.now }
    ensures orderly { (t : Tables) → AreReadTables t read.now → IfOk result (λ _. IsOrderly t) }
    ensures cause { (t : Tables) → AreReadTables t read.now → IfErr result (HasRuleCause t) }
    ensures reads { refusal_in result ≡ None }
{
    match rule_fault(alloc, read) {
        Ok(None) => Ok(()),
        Ok(Some(fault)) => Err(MountFault::Broken {
            table: fault.table,
            entry: fault.entry,
        }),
        Err(AllocError) => Err(MountFault::Memory),
    }
}

// Whether an entry other than entry 0 was not read.
fn is_unread(entries: &[Option<ReadEntry>], entry: usize) -> bool
    requires { entry < length entries.now }
    ensures some { IsTrue result → 1 ≤ entry }
    ensures none { IsTrue result → get_or entries.now entry None ≡ None }
    ensures no { result ≡ false → 1 ≤ entry → get_or entries.now entry None ≢ None }
{
    entry != 0 && entries[entry].is_none()
}

// How many entries were not read, entry 0 left out.
fn unread(entries: &[Option<ReadEntry>]) -> u32
    requires { length entries.now < 2 ^ 32 }
    ensures few { result ≤ length entries.now }
    ensures unread { HasUnread entries.now (length entries.now) result }
{
    let mut count = 0;
    for entry in 0..entries.len() {
        if is_unread(entries, entry) {
            count += 1;
        }
    }
    count
}

// How many entries can be added to a table: those that were never used, and the freed ones.
fn free_in(counts: Counts, table: &ReadTable) -> u32
    requires few { counts.count ≤ counts.most }
    requires long { length table.now.entries.items ≡ counts.count }
    ensures { (kind : EntryKind) (t : Tables) → IsReadTable kind t table.now → AreCountsOf (t.table kind) counts
        → IsRoomOf (t.table kind) result }
{
    counts.most - counts.count + unread(&table.entries)
}

// What is kept of both tables once they are read: their rules are tried, and what can be added is counted.
pub(crate) fn audit_read(
    alloc: Global,
    found: (ReadTables, (Counts, Counts)),
    dirs: TableInfo,
    files: TableInfo,
) -> Result<Audited, MountFault>
    requires { AreLong found }
    ensures audited { (kind : TreeKind) (split : Option ℕ) (size : ℕ) (info : Information) (cells : ℕ → Cell)
        → AreTablesRead kind split size info dirs files cells found
        → IfOk result (IsAudited kind split size info dirs files cells) }
    ensures lengths { IfOk result (λ audited. AreShort audited.read) }
    ensures dirs { IfOk result (λ audited. audited.dirs ≡ dirs) }
    ensures files { IfOk result (λ audited. audited.files ≡ files) }
    ensures cause { (kind : TreeKind) (split : Option ℕ) (size : ℕ) (info : Information) (cells : ℕ → Cell)
        → AreTablesRead kind split size info dirs files cells found
        → IfErr result (HasTablesCause kind split size info dirs files cells) }
    ensures reads { refusal_in result ≡ None }
{
    let (read, (dir_counts, file_counts)) = found;
    match try_rules(alloc, &read) {
        Ok(()) => {}
        Err(fault) => return Err(fault),
    }
    let free_dirs = free_in(dir_counts, &read.dirs);
    let free_files = free_in(file_counts, &read.files);
    Ok(Audited {
        read,
        dirs,
        files,
        free_dirs,
        free_files,
    })
}
