//! What a filesystem's information says, and where its parts lie.

use chain_nodes::ChainInfo;

/// What the information says of the table of a kind of entries and its buckets.
#[derive(Clone, Copy, Debug, PartialEq, Eq)]
pub struct TableFields {
    /// Where the buckets begin, and how many there are.
    pub buckets_at: u64,
    pub buckets: u32,
    /// Where the table begins, if it lies plainly.
    pub table_at: u64,
    /// Otherwise its first data block, and how many it has.
    pub first: u32,
    pub blocks: u32,
}

/// The fields of a filesystem's information.
#[derive(Clone, Copy, Debug, PartialEq, Eq)]
pub struct Information {
    /// Where the information itself begins.
    pub at: u64,
    /// How many bytes a data block has.
    pub block: u32,
    pub dirs: TableFields,
    pub files: TableFields,
    /// Where the allocation table begins, and how many entries it has behind entry 0.
    pub chain_at: u64,
    pub count: u32,
    /// Where the data blocks begin, if they lie in the first part.
    pub region_at: u64,
}

/// Where a table of entries lies: plainly in the first part, or in the first data blocks of a chain.
#[derive(Clone, Copy, Debug, PartialEq, Eq)]
pub enum TableAt {
    Plainly(u64),
    InChain { first: u32, blocks: u32 },
}

/// Where a table of entries and its buckets lie.
#[derive(Clone, Copy, Debug, PartialEq, Eq)]
pub struct TablePlace {
    pub buckets_at: u64,
    pub buckets: u32,
    pub table: TableAt,
}

/// Where the parts of a filesystem lie in its store.
#[derive(Clone, Copy, Debug, PartialEq, Eq)]
pub struct Places {
    /// The allocation table, and the data blocks.
    pub chain: ChainInfo,
    pub dirs: TablePlace,
    pub files: TablePlace,
}
