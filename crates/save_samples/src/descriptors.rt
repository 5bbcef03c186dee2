//! Descriptors, for tests of the layers that read by them.

use difi::{Difi, LevelPlace};
use save_bytes::Extent;

/// A level's place, its size and the logarithm of its block size.
macro_rules! level {
    ($at:expr, $size:expr, $log:expr) => {
        LevelPlace {
            at: $at,
            size: $size,
            log: $log,
        }
    };
}

/// The descriptor of the only partition of `Sample::Single`, which has 106,496 bytes.
pub const LONE_DIFI: Difi = Difi {
    place: 0,
    ivfc_at: 0x44,
    dpfs_at: 0xBC,
    master: Extent {
        at: 0x10C,
        size: 32,
    },
    external: false,
    external_at: 0,
    selector: 0,
    ivfc1: level!(0, 32, 9),
    ivfc2: level!(4096, 32, 9),
    ivfc3: level!(8192, 288, 12),
    ivfc4: level!(12_288, 34_816, 12),
    dpfs1: level!(0, 4, 0),
    dpfs2: level!(4096, 128, 7),
    dpfs3: level!(8192, 49_152, 12),
};

/// Level 3 of its double-copy tree has 1,030 blocks, so level 2 has 33 words in two blocks. Its partition has 264,192
/// bytes.
pub const LONG_DIFI: Difi = Difi {
    ivfc2: level!(512, 32, 9),
    ivfc3: level!(1024, 512, 9),
    ivfc4: level!(4096, 65_536, 12),
    dpfs2: level!(16, 132, 7),
    dpfs3: level!(512, 131_840, 7),
    ..LONE_DIFI
};

/// Level 3 of its double-copy tree has two blocks, the last of them short, and 1,000 bytes of level four lie behind its
/// copies. Its partition has 2,024 bytes.
pub const EXTERNAL_DIFI: Difi = Difi {
    external: true,
    external_at: 1024,
    ivfc2: level!(32, 32, 9),
    ivfc3: level!(64, 32, 9),
    ivfc4: level!(0, 1000, 12),
    dpfs2: level!(16, 4, 7),
    dpfs3: level!(512, 200, 7),
    ..LONE_DIFI
};
