//! The conditions on where a filesystem lies, in the order in which a fault is named.

ghost use Rattle.std.specs.Prelude.{◌≡◌, ◌+◌, ◌*◌, nat_lt, ◌||◌};
ghost use Rattle.save_bytes.specs.Extents.{is_outside, some_overlap};
ghost use Rattle.container_header.specs.Conditions.{first_failing};
ghost use Rattle.entry_tables.specs.Kinds.{entry_size};
ghost use Rattle.entry_tables.specs.Tables.{Table, Tables};
ghost use Rattle.tree_rules.specs.Information.{has_second, front_len, fields_on};
ghost use Rattle.tree_rules.specs.Places.{places_of, place_from, table_lies};
ghost use Rattle.tree_rules.specs.Layout.{
  is_block_size,
  passes_end,
  is_misplaced,
  is_too_long,
  is_bad_most,
  taken_extents,
  of_either,
  place_faults,
  table_faults,
};
ghost use Rattle.entry_tables.specs.declared.table.EntryKind.TheVariants.{Dir, File};

use chain_nodes::ChainInfo;
use entry_tables::{Counts, EntryKind};
use save_bytes::{Extent, some_overlap};
use tree_rules::{Information, Places, TableAt, TableFields, TablePlace, TreeKind};

/// The bytes of the header, and of the information.
const HEADER: u64 = 0x20;

const INFORMATION: u64 = 0x68;

/// The data blocks are all of a second part.
fn has_second(kind: TreeKind, split: Option<u64>) -> bool
    ensures { result ≡ has_second kind split }
{
    match kind {
        TreeKind::Save => split.is_some(),
        TreeKind::Vsxe => false,
    }
}

/// Where the first part ends, of a store of so many bytes.
pub fn front_len(split: Option<u64>, size: u64) -> u64
    ensures { result ≡ front_len split size }
{
    split.unwrap_or(size)
}

fn place_from(second: bool, fields: &TableFields) -> TablePlace
    ensures { result ≡ place_from second fields.now }
{
    let table = if second {
        TableAt::Plainly(fields.table_at)
    } else {
        TableAt::InChain {
            first: fields.first,
            blocks: fields.blocks,
        }
    };
    TablePlace {
        buckets_at: fields.buckets_at,
        buckets: fields.buckets,
        table,
    }
}

/// Where the parts of a filesystem lie, as its information says.
#[tactic(auto, unfolding(tree_rules::specs::Places::places_of))]
pub fn places_of(kind: TreeKind, split: Option<u64>, info: &Information) -> Places
    ensures { result ≡ places_of kind split info.now }
{
    let second = has_second(kind, split);
    let region_at = if second {
        front_len(split, 0)
    } else {
        info.region_at
    };
    Places {
        chain: ChainInfo {
            table_at: info.chain_at,
            count: info.count,
            region_at,
            block: info.block,
        },
        dirs: place_from(second, &info.dirs),
        files: place_from(second, &info.files),
    }
}

fn is_outside(low: u32, high: u32, n: u32) -> bool
    ensures { result ≡ is_outside low high n }
{
    n < low || n > high
}

/// A power of two from 512 to 65,536.
#[tactic(auto, unfolding(tree_rules::specs::Layout::is_block_size))]
fn is_block_size(n: u32) -> bool
    ensures { result ≡ is_block_size n }
{
    matches!(
        n,
        512 | 1024 | 2048 | 4096 | 8192 | 16_384 | 32_768 | 65_536
    )
}

/// A range of `size` bytes from `at` on does not lie inside the first `end` bytes.
fn passes_end(end: u64, at: u64, size: u64) -> bool
    ensures { result ≡ passes_end end at size }
{
    u128::from(end) < u128::from(at) + u128::from(size)
}

fn is_misplaced(front: u64, count: u32, kind: EntryKind, table: &TableAt) -> bool
    ensures { result ≡ is_misplaced front count kind table.now }
{
    match *table {
        TableAt::Plainly(at) => passes_end(front, at, kind.entry_size()),
        TableAt::InChain { first, blocks } => count <= first || is_outside(1, count, blocks),
    }
}

/// How many bytes so many entries have.
fn entries_len(kind: EntryKind, most: u32) -> u64
    ensures { result ≡ most * entry_size kind }
{
    u64::from(most) * kind.entry_size()
}

fn is_too_long(front: u64, block: u32, kind: EntryKind, most: u32, table: &TableAt) -> bool
    ensures { (t : Table) → most ≡ t.most → result ≡ is_too_long front block kind t table.now }
{
    let len = entries_len(kind, most);
    match *table {
        TableAt::Plainly(at) => passes_end(front, at, len),
        TableAt::InChain { blocks, .. } => u64::from(blocks) * u64::from(block) < len,
    }
}

fn is_bad_most(kind: EntryKind, most: u32) -> bool
    ensures { result ≡ is_bad_most kind most }
{
    match kind {
        EntryKind::Dir => is_outside(2, 8194, most),
        EntryKind::File => is_outside(1, 8193, most),
    }
}

/// The buckets of a kind don't lie in the first part.
fn are_buckets_misplaced(front: u64, info: &Information) -> bool
    ensures { result ≡ of_either (λ table. passes_end front (fields_on info.now table).buckets_at
        (4 * (fields_on info.now table).buckets)) }
{
    let dirs = &info.dirs;
    let files = &info.files;
    passes_end(front, dirs.buckets_at, 4 * u64::from(dirs.buckets))
        || passes_end(front, files.buckets_at, 4 * u64::from(files.buckets))
}

/// The beginning of a table is out of place.
fn are_tables_misplaced(front: u64, count: u32, p: &Places) -> bool
    ensures { result ≡ of_either (λ table. is_misplaced front count table (table_lies p.now table)) }
{
    is_misplaced(front, count, EntryKind::Dir, &p.dirs.table)
        || is_misplaced(front, count, EntryKind::File, &p.files.table)
}

/// The first of the conditions 1 to 5 that fails, for a store of `size` bytes: the information, the size of a data
/// block, how many buckets and how many allocation entries there are, and where all that begins.
#[tactic(auto, unfolding(tree_rules::specs::Layout::place_faults))]
pub fn place_fault(kind: TreeKind, split: Option<u64>, size: u64, info: &Information) -> Option<u8>
    ensures { result ≡ first_failing 1 (place_faults kind split size info.now) }
{
    let front = front_len(split, size);
    let p = places_of(kind, split, info);
    let end = if has_second(kind, split) { size } else { front };
    if info.at < HEADER || passes_end(front, info.at, INFORMATION) {
        return Some(1);
    }
    if !is_block_size(info.block) {
        return Some(2);
    }
    if is_outside(1, 32_768, info.dirs.buckets) || is_outside(1, 32_768, info.files.buckets) {
        return Some(3);
    }
    if is_outside(1, 131_072, info.count) {
        return Some(4);
    }
    let chain = 8 * (u64::from(info.count) + 1);
    let region = u64::from(info.count) * u64::from(info.block);
    if are_buckets_misplaced(front, info)
        || passes_end(front, info.chain_at, chain)
        || passes_end(end, p.chain.region_at, region)
        || are_tables_misplaced(front, info.count, &p)
    {
        return Some(5);
    }
    None
}

/// Two of the parts that lie in the first part of the store overlap.
#[tactic(auto, unfolding(tree_rules::specs::Layout::taken_extents, tree_rules::specs::Places::places_of))]
fn has_overlap(
    kind: TreeKind,
    split: Option<u64>,
    info: &Information,
    dirs: u32,
    files: u32,
) -> bool
    ensures { (t : Tables) → dirs ≡ (t.table Dir).most → files ≡ (t.table File).most
        → result ≡ some_overlap (taken_extents (has_second kind split) info.now (places_of kind split info.now) t) }
{
    let header = Extent {
        at: 0,
        size: HEADER,
    };
    let information = Extent {
        at: info.at,
        size: INFORMATION,
    };
    let dir_buckets = Extent {
        at: info.dirs.buckets_at,
        size: 4 * u64::from(info.dirs.buckets),
    };
    let file_buckets = Extent {
        at: info.files.buckets_at,
        size: 4 * u64::from(info.files.buckets),
    };
    let chain = Extent {
        at: info.chain_at,
        size: 8 * (u64::from(info.count) + 1),
    };
    if has_second(kind, split) {
        let dirs = Extent {
            at: info.dirs.table_at,
            size: entries_len(EntryKind::Dir, dirs),
        };
        let files = Extent {
            at: info.files.table_at,
            size: entries_len(EntryKind::File, files),
        };
        return some_overlap(&[
            header,
            information,
            dir_buckets,
            file_buckets,
            chain,
            dirs,
            files,
        ]);
    }
    let region = Extent {
        at: info.region_at,
        size: u64::from(info.count) * u64::from(info.block),
    };
    some_overlap(&[
        header,
        information,
        dir_buckets,
        file_buckets,
        chain,
        region,
    ])
}

/// The first of the conditions 6 to 9 that fails, by the counts of both tables: the most entries, their room, how many
/// were ever used, and that nothing overlaps.
#[tactic(auto, unfolding(tree_rules::specs::Layout::table_faults))]
pub fn table_fault(
    kind: TreeKind,
    split: Option<u64>,
    size: u64,
    info: &Information,
    dirs: Counts,
    files: Counts,
) -> Option<u8>
    ensures { (t : Tables) → dirs.count ≡ (t.table Dir).count → dirs.most ≡ (t.table Dir).most
        → files.count ≡ (t.table File).count → files.most ≡ (t.table File).most
        → result ≡ first_failing 6 (table_faults kind split size info.now t) }
{
    let front = front_len(split, size);
    let p = places_of(kind, split, info);
    if is_bad_most(EntryKind::Dir, dirs.most) || is_bad_most(EntryKind::File, files.most) {
        return Some(6);
    }
    if is_too_long(front, info.block, EntryKind::Dir, dirs.most, &p.dirs.table)
        || is_too_long(
            front,
            info.block,
            EntryKind::File,
            files.most,
            &p.files.table,
        )
    {
        return Some(7);
    }
    if is_outside(2, dirs.most, dirs.count) || is_outside(1, files.most, files.count) {
        return Some(8);
    }
    if has_overlap(kind, split, info, dirs.most, files.most) {
        return Some(9);
    }
    None
}
