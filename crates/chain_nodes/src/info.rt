//! Where an allocation table and its data blocks lie.

/// An allocation table of `count` entries behind entry 0, each of 8 bytes, and as many data blocks of `block` bytes
/// each, in a space. Entry `i` belongs to data block `i - 1`.
#[derive(Clone, Copy, Debug, PartialEq, Eq)]
pub struct ChainInfo {
    /// Where entry 0 lies.
    pub table_at: u64,
    /// How many entries there are behind entry 0, and how many data blocks: fewer than 2^31.
    pub count: u32,
    /// Where data block 0 lies.
    pub region_at: u64,
    /// How many bytes a data block has.
    pub block: u32,
}

/// Data blocks that follow each other: the number of the first one, and how many there are.
#[derive(Clone, Copy, Debug, PartialEq, Eq)]
pub struct Run {
    pub block: u32,
    pub len: u32,
}
