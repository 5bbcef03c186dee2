//! Changes of a sample image, after which its hashes and the digest in its header hold again.

ghost use Rattle.std.specs.Prelude.{◌≡◌, ◌+◌, ◌*◌, ◌/◌, ◌≤◌, length};

use crate::fields::put_digest;
use save_bytes::{u32_at, u64_at};

/// The bytes of a block of level four.
const BLOCK: usize = 4096;

/// Where the active table of an image and part 0's hash tree lie in it.
#[derive(Drop)]
struct Places {
    table: usize,
    table_size: usize,
    /// The digest of the table.
    digest: usize,
    master: usize,
    /// Hash level 1. Levels 2 and 3 follow at the next multiples of 4,096.
    hashes: usize,
    level_four: usize,
    size: usize,
    ghost table_inside: { table + table_size ≤ 4096 },
    ghost digest_inside: { digest + 32 ≤ 4096 },
    ghost master_inside: { master + 32 ≤ 4096 },
    ghost hashes_inside: { hashes + 12288 ≤ 110592 },
    ghost level_inside: { level_four + (size + 4095) / 4096 * 4096 ≤ 110592 },
}

/// Those of a DISA with one partition.
const LONE: Places = Places {
    table: 1024,
    table_size: 300,
    digest: 0x100 + 0x6C,
    master: 1024 + 0x10C,
    hashes: 12_288,
    level_four: 24_576,
    size: 34_816,
};

/// Those of a DISA with two partitions, in either order.
const FIRST: Places = Places {
    table: 1536,
    table_size: 604,
    digest: 0x100 + 0x6C,
    master: 1536 + 0x10C,
    hashes: 12_288,
    level_four: 24_576,
    size: 1560,
};

const TURNED: Places = Places {
    table: 1536,
    table_size: 604,
    digest: 0x100 + 0x6C,
    master: 1536 + 304 + 0x10C,
    hashes: 45_056 + 8192,
    level_four: 45_056 + 32_768,
    size: 32_768,
};

/// Those of a DIFF.
const DIFF: Places = Places {
    table: 1024,
    table_size: 300,
    digest: 0x100 + 0x34,
    master: 1024 + 0x10C,
    hashes: 12_288,
    level_four: 24_576,
    size: 34_816,
};

/// Puts bytes into part 0's level four of an image that `sample` gave, from its byte `at` on, and renews the hashes
/// above and the table's. What was never written of a block with one of these bytes is zeros from then on. Bytes
/// behind the end of a shorter level four are left out.
pub fn change(image: &mut [u8], at: u64, bytes: &[u8])
    requires image { length image.old ≡ 110592 }
    requires inside { at + length bytes.now ≤ 34816 }
    ensures { length image.new ≡ 110592 }
{
    let places = places_in(image);
    let start = (at as usize).min(places.size);
    let end = (at as usize + bytes.len()).min(places.size);
    if start < end {
        let level_four = &mut image[places.level_four..];
        level_four[start..end].copy_from_slice(&bytes[..end - start]);
        renew_blocks(image, &places, start / BLOCK, end.div_ceil(BLOCK));
        renew_table(image, &places);
    }
}

/// Puts bytes into the active table of an image that `sample` gave, from its byte `at` on, and renews its digest in the
/// header. Bytes behind the end of a shorter table are left out.
pub fn change_table(image: &mut [u8], at: u64, bytes: &[u8])
    requires image { length image.old ≡ 110592 }
    requires inside { at + length bytes.now ≤ 604 }
    ensures { length image.new ≡ 110592 }
{
    let places = places_in(image);
    let start = (at as usize).min(places.table_size);
    let end = (at as usize + bytes.len()).min(places.table_size);
    let table = &mut image[places.table..];
    table[start..end].copy_from_slice(&bytes[..end - start]);
    renew_table(image, &places);
}

/// The places in an image, by its header.
fn places_in(image: &[u8]) -> Places
    requires { length image.now ≡ 110592 }
{
    if image[0x100..].starts_with(b"DIFF") {
        DIFF
    } else if u32_at(image, 0x108) < 2 {
        LONE
    } else if u64_at(image, 0x128) == 0 {
        FIRST
    } else {
        TURNED
    }
}

/// The digests of the blocks `first` up to `last` of level four, and those above them up to the master hash.
fn renew_blocks(image: &mut [u8], places: &Places, first: usize, last: usize)
    requires image { length image.old ≡ 110592 }
    requires inside { last ≤ (places.now.size + 4095) / 4096 }
    ensures { length image.new ≡ 110592 }
{
    let level_three = places.hashes + 2 * BLOCK;
    for block in first..last {
        put_digest(
            image,
            places.level_four + block * BLOCK,
            BLOCK,
            level_three + 32 * block,
        );
    }
    let level_two = places.hashes + BLOCK;
    put_digest(image, level_three, BLOCK, level_two);
    put_digest(image, level_two, 512, places.hashes);
    put_digest(image, places.hashes, 512, places.master);
}

/// The digest of the active table.
fn renew_table(image: &mut [u8], places: &Places)
    requires { length image.old ≡ 110592 }
    ensures { length image.new ≡ 110592 }
{
    put_digest(image, places.table, places.table_size, places.digest);
}
