//! Why an image has no sound header.

use thiserror::Error;

/// The first condition of a header that fails.
#[derive(Clone, Copy, Debug, PartialEq, Eq, Error)]
pub enum HeaderFault {
    /// The image is shorter than its first 512 bytes, or the four bytes at 0x100 name neither kind.
    #[error("neither a DISA nor a DIFF image")]
    NotImage,
    /// The version is not the kind's.
    #[error("a version that is not known")]
    Version,
    /// The header's fields do not fit each other or the image. The number is that of the first
    /// condition that fails, from 1 on:
    ///
    /// 1. the image has at most 64 MiB;
    /// 2. there are one or two partitions;
    /// 3. the active byte is 0 or 1;
    /// 4. a table has 0x44 to 65,536 bytes;
    /// 5. the primary table lies in the image, from byte 512 on;
    /// 6. so does the secondary table;
    /// 7. descriptor A lies in the table, and has at least 0x44 bytes;
    /// 8. so does descriptor B, where there are two partitions;
    /// 9. the two descriptors lie apart;
    /// 10. partition A is not empty, and lies in the image from byte 512 on;
    /// 11. so does partition B, where there are two;
    /// 12. the tables and the partitions lie apart, each from each.
    #[error("condition {condition} of the layout fails")]
    Layout { condition: u8 },
}
