//! A partition's descriptor, and the digests of its hash tree.

ghost use Rattle.std.specs.Prelude.{◌≡◌, ◌+◌, ◌≤◌, length};

use crate::fields::{put_digest, put_extent, put_level, put_name};
use save_bytes::set_u64;

/// What one partition does not have in common with the others, in bytes.
pub(crate) struct Partition {
    /// Hash level 3: 32 bytes for each block of level four.
    pub(crate) hashes: u64,
    pub(crate) level_four: u64,
    /// One copy of level 3 of the double-copy tree.
    pub(crate) copy: u64,
    /// Whether level four lies behind the double-copy tree, and not in it.
    pub(crate) external: bool,
}

/// The only partition of its image: a filesystem with its data region.
pub(crate) const LONE: Partition = Partition {
    hashes: 288,
    level_four: 34_816,
    copy: 49_152,
    external: false,
};

/// A filesystem without its data region.
pub(crate) const TREE: Partition = Partition {
    hashes: 32,
    level_four: 1560,
    copy: 16_384,
    external: false,
};

/// A data region.
pub(crate) const DATA: Partition = Partition {
    hashes: 256,
    level_four: 32_768,
    copy: 12_288,
    external: true,
};

/// The places in the image of part 0's hash levels, in the first copy of the double-copy tree's level 3.
const LEVEL_ONE: usize = 4096 + 8192;

const LEVEL_TWO: usize = LEVEL_ONE + 4096;

const LEVEL_THREE: usize = LEVEL_ONE + 8192;

pub(crate) const LEVEL_FOUR: usize = LEVEL_ONE + 12_288;

/// A descriptor with a master hash of zeros.
pub(crate) fn put_descriptor(descriptor: &mut [u8], partition: &Partition)
    requires { length descriptor.old ≡ 300 }
{
    put_difi(descriptor, partition.external);
    put_ivfc(&mut descriptor[0x44..], partition);
    put_dpfs(&mut descriptor[0xBC..], partition.copy);
}

fn put_difi(difi: &mut [u8], external: bool)
    requires { length difi.old ≡ 300 }
{
    put_name(difi, b"DIFI", 0x10000);
    put_extent(difi, 0x08, 0x44, 0x78);
    put_extent(difi, 0x18, 0xBC, 0x50);
    put_extent(difi, 0x28, 0x10C, 32);
    if external {
        difi[0x38] = 1;
        set_u64(difi, 0x3C, 32_768);
    }
}

fn put_ivfc(ivfc: &mut [u8], partition: &Partition)
    requires { 120 ≤ length ivfc.old }
{
    let level_four = if partition.external { 0 } else { 12_288 };
    put_name(ivfc, b"IVFC", 0x20000);
    set_u64(ivfc, 0x08, 32);
    put_level(ivfc, 0x10, 0, 32, 9);
    put_level(ivfc, 0x28, 4096, 32, 9);
    put_level(ivfc, 0x40, 8192, partition.hashes, 12);
    put_level(ivfc, 0x58, level_four, partition.level_four, 12);
    set_u64(ivfc, 0x70, 0x78);
}

fn put_dpfs(dpfs: &mut [u8], copy: u64)
    requires { 80 ≤ length dpfs.old }
{
    put_name(dpfs, b"DPFS", 0x10000);
    put_level(dpfs, 0x08, 0, 4, 0);
    put_level(dpfs, 0x20, 4096, 128, 7);
    put_level(dpfs, 0x38, 8192, copy, 12);
}

/// The digests above part 0's level four, level by level, up to the master hash. Its block 0 alone is written, so
/// block 0 alone of each level above it is too. Zeros lie behind each level up to the end of its last block.
pub(crate) fn put_digests(image: &mut [u8], master: usize)
    requires image { length image.old ≡ 110592 }
    requires master { master + 32 ≤ length image.old }
{
    put_digest(image, LEVEL_FOUR, 4096, LEVEL_THREE);
    put_digest(image, LEVEL_THREE, 4096, LEVEL_TWO);
    put_digest(image, LEVEL_TWO, 512, LEVEL_ONE);
    put_digest(image, LEVEL_ONE, 512, master);
}
