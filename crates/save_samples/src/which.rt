//! Which images there are.

/// A sample image. Each has 110,592 bytes, its primary table is active, and its authentication field is zero bytes.
#[derive(Clone, Copy, Debug, PartialEq, Eq)]
pub enum Sample {
    /// A DISA with one partition: the tables of its SAVE are chains in the data region.
    Single,
    /// A DISA with two partitions: the tables of its SAVE lie in part 0, and the data region is part 1.
    Dual,
    /// `Dual` with the partitions in the other order: level four of part 0 is the data region, which lies outside its
    /// double-copy tree.
    Loose,
    /// A DIFF: the tables of its VSXE are chains in the data region.
    Vsxe,
    /// `Single` with a directory `/a` and in it a file `/a/x` of the three bytes `xyz`.
    Tree,
    /// `Single` with a file `/u` of 1,000 bytes whose two data blocks, 20 and 21, were never written.
    Holes,
}
