//! The two tables of entries, and why a call on them is refused.

ghost use Rattle.std.specs.Prelude.{◌≡◌, ◌↔◌, IsTrue};
ghost use Rattle.entry_tables.specs.Kinds.{entry_size, link_offset, child_offset, table_number, bucket_table, least_freed, IsRoot};

use save_bytes::Bad;

/// Which of the two tables: that of the directories or that of the files.
#[derive(Clone, Copy, Debug, PartialEq, Eq)]
pub enum EntryKind {
    Dir,
    File,
}

impl EntryKind {
    /// How many bytes an entry has.
    pub fn entry_size(self) -> u64
        ensures { result ≡ entry_size self }
    {
        match self {
            EntryKind::Dir => 0x28,
            EntryKind::File => 0x30,
        }
    }

    /// Where an entry's last word stands in it.
    pub fn link_offset(self) -> u64
        ensures { result ≡ link_offset self }
    {
        match self {
            EntryKind::Dir => 0x24,
            EntryKind::File => 0x2C,
        }
    }

    /// Where a directory's entry has its first entry of this kind.
    pub fn child_offset(self) -> u64
        ensures { result ≡ child_offset self }
    {
        match self {
            EntryKind::Dir => 0x18,
            EntryKind::File => 0x1C,
        }
    }

    /// The number that names the table in a refusal.
    pub fn table_number(self) -> u8
        ensures { result ≡ table_number self }
    {
        match self {
            EntryKind::Dir => 2,
            EntryKind::File => 3,
        }
    }

    /// The number that names the table's buckets in a refusal.
    pub fn bucket_table(self) -> u8
        ensures { result ≡ bucket_table self }
    {
        match self {
            EntryKind::Dir => 4,
            EntryKind::File => 5,
        }
    }

    /// Whether an entry is the root, directory 1.
    pub fn is_root(self, entry: u32) -> bool
        ensures { IsTrue result ↔ IsRoot self entry }
    {
        match self {
            EntryKind::Dir => entry == 1,
            EntryKind::File => false,
        }
    }

    /// The least number of an entry that can be freed: directory 1 is the root.
    pub fn least_freed(self) -> u32
        ensures { result ≡ least_freed self }
    {
        match self {
            EntryKind::Dir => 2,
            EntryKind::File => 1,
        }
    }
}

/// Where a table and its buckets stand in a space: the places of the first bucket and of entry 0, in bytes, and how
/// many buckets there are, at least one.
#[derive(Clone, Copy, Debug, PartialEq, Eq)]
pub struct TableInfo {
    pub buckets_at: u64,
    pub buckets: u32,
    pub table_at: u64,
}

/// What a file's entry says of its contents: its first data block, and its size or its identifier.
#[derive(Clone, Copy, Debug, PartialEq, Eq)]
pub struct FileFields {
    pub start: u32,
    pub wide: u64,
}

/// Why a call on entries is refused.
#[derive(Clone, Copy, Debug, PartialEq, Eq)]
pub enum EntryFault {
    /// A call of the space was refused.
    Bad(Bad),
    /// A rule fails at this entry of a table, 2 for directories and 3 for files, or at this one of its buckets, 4 and 5.
    Broken { table: u8, entry: u32 },
    /// No entry can be added: there are at most so many, entry 0 included.
    NoEntry { most: u32 },
}

impl From<Bad> for EntryFault {
    ghost use Rattle.entry_tables.specs.declared.table.EntryFault.{EntryFault};

    ghost from_gives = { λ bad fault. fault ≡ EntryFault.Bad bad };

    fn from(bad: Bad) -> EntryFault {
        EntryFault::Bad(bad)
    }
}
