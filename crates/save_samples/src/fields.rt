//! What the headers and descriptors share: names, extents, levels, digests.

ghost use Rattle.std.specs.Prelude.{◌≡◌, ◌+◌, ◌≤◌, length};

use save_bytes::{set_u32, set_u64};
use sha2::{Digest, Sha256};

pub(crate) fn put_name(bytes: &mut [u8], name: &[u8; 4], version: u32)
    requires { 8 ≤ length bytes.old }
{
    bytes[..4].copy_from_slice(name);
    set_u32(bytes, 4, version);
}

/// Puts the place and the size of something, two numbers of 64 bits.
pub(crate) fn put_extent(bytes: &mut [u8], field: usize, at: u64, size: u64)
    requires { field + 16 ≤ length bytes.old }
{
    set_u64(bytes, field, at);
    set_u64(bytes, field + 8, size);
}

/// Puts a level's place, its size and the logarithm of its block size.
pub(crate) fn put_level(bytes: &mut [u8], field: usize, at: u64, size: u64, log: u32)
    requires { field + 20 ≤ length bytes.old }
{
    put_extent(bytes, field, at, size);
    set_u32(bytes, field + 16, log);
}

/// Puts the SHA-256 of the `size` bytes of an image from `at` on into the 32 bytes from `entry` on.
pub fn put_digest(image: &mut [u8], at: usize, size: usize, entry: usize)
    requires image { length image.old ≡ 110592 }
    requires block { at + size ≤ 110592 }
    requires entry { entry + 32 ≤ 110592 }
    ensures { length image.new ≡ 110592 }
{
    let digest = Sha256::digest(&image[at..at + size]);
    image[entry..entry + 32].copy_from_slice(&digest);
}
