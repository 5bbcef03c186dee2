//! Why a table has no sound descriptor at a place.

use thiserror::Error;

/// The first condition of a descriptor that fails. Of its three parts, DIFI is 1, IVFC is 2 and DPFS is 3.
#[derive(Clone, Copy, Debug, PartialEq, Eq, Error)]
pub enum DifiFault {
    /// A part does not begin with its four letters.
    #[error("part {which} does not begin with its name")]
    Magic { which: u8 },
    /// A part's version is not the one that is known.
    #[error("part {which} has a version that is not known")]
    Version { which: u8 },
    /// The fields do not fit each other, the descriptor or the partition. The conditions of the
    /// layout are:
    ///
    /// 1. IVFC lies inside the descriptor, and is given at least 0x78 bytes.
    /// 2. DPFS lies inside the descriptor, and is given at least 0x50 bytes.
    /// 3. The master hash lies inside the descriptor.
    /// 4. DIFI's 0x44 bytes, IVFC's first 0x78, DPFS's first 0x50 and the master hash lie apart.
    /// 5. The selector is 0 or 1.
    /// 6. The logarithm of a block's bytes is 7 to 16 for DPFS levels 2 and 3, 9 to 16 for IVFC.
    /// 7. No DPFS level is empty, and both its copies lie inside the partition.
    /// 8. DPFS levels 1 and 2 have a bit for each block of the next, in whole 32-bit words.
    /// 9. The three pairs of copies lie apart.
    /// 10. No IVFC level is empty, and all but an external level four lie inside DPFS level 3.
    /// 11. The IVFC levels in DPFS level 3 lie apart.
    /// 12. External level four lies inside the partition, apart from the pairs of copies.
    /// 13. The master hash has an entry of 32 bytes for each block of IVFC level 1, and IVFC levels
    ///     1 to 3 have one for each block of the next.
    #[error("condition {condition} of the layout fails")]
    Layout { condition: u8 },
}
