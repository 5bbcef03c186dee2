//! Tables of entries as they were read.

use entry_tables::EntryFault;
use save_bytes::Name;

/// The fields of a used entry. Those that its kind does not have are 0.
#[derive(Clone, Copy, Debug, PartialEq, Eq)]
pub struct ReadEntry {
    pub parent: u32,
    pub name: Name,
    /// The next entry of its directory, 0 for none.
    pub sibling: u32,
    /// The next one in its bucket's list, 0 for none.
    pub link: u32,
    /// A directory's first directory and its first file, 0 for none.
    pub first_dir: u32,
    pub first_file: u32,
    /// A file's first data block, and its size or its identifier.
    pub start: u32,
    pub wide: u64,
}

/// A table with its buckets.
#[derive(Debug, Drop)]
pub struct ReadTable {
    /// By their numbers, from entry 0 on: none for entry 0, and for each freed one.
    pub entries: Vec<Option<ReadEntry>>,
    /// The first entry of each bucket's list, 0 for none.
    pub heads: Vec<u32>,
}

/// Both tables.
#[derive(Debug, Drop)]
pub struct ReadTables {
    pub dirs: ReadTable,
    pub files: ReadTable,
}

/// Where a rule fails: at an entry of a table, 2 for directories and 3 for files, or at one of its buckets, 4 and 5.
#[derive(Clone, Copy, Debug, PartialEq, Eq)]
pub struct RuleFault {
    pub table: u8,
    pub entry: u32,
}

/// Why tables are not read.
#[derive(Debug, Drop)]
pub enum TableFault {
    /// There is no memory for them.
    Memory,
    /// A byte of them can't be read, or the list of freed entries is broken.
    Entries(EntryFault),
}
