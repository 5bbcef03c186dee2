//! Little-endian fields at places of a slice. All numbers of the formats are little-endian.

ghost use Rattle.std.specs.Prelude.{◌≡◌, ◌+◌, ◌≤◌, length};
ghost use Rattle.byteorder.specs.Endian.{little_bytes};
ghost use Rattle.save_bytes.specs.Fields.{number_at, with_bytes};

use byteorder::{ByteOrder, LittleEndian};

/// The 32-bit number in the four bytes from `at` on.
pub fn u32_at(bytes: &[u8], at: usize) -> u32
    requires { at + 4 ≤ length bytes.now }
    ensures { result ≡ number_at 4 bytes.now at }
{
    LittleEndian::read_u32(&bytes[at..])
}

/// The 64-bit number in the eight bytes from `at` on.
pub fn u64_at(bytes: &[u8], at: usize) -> u64
    requires { at + 8 ≤ length bytes.now }
    ensures { result ≡ number_at 8 bytes.now at }
{
    LittleEndian::read_u64(&bytes[at..])
}

/// Puts a 32-bit number into the four bytes from `at` on, and changes no other byte.
pub fn set_u32(bytes: &mut [u8], at: usize, n: u32)
    requires { at + 4 ≤ length bytes.old }
    ensures { bytes.new ≡ with_bytes bytes.old at (little_bytes 4 n) }
{
    LittleEndian::write_u32(&mut bytes[at..at + 4], n);
}

/// Puts a 64-bit number into the eight bytes from `at` on, and changes no other byte.
pub fn set_u64(bytes: &mut [u8], at: usize, n: u64)
    requires { at + 8 ≤ length bytes.old }
    ensures { bytes.new ≡ with_bytes bytes.old at (little_bytes 8 n) }
{
    LittleEndian::write_u64(&mut bytes[at..at + 8], n);
}
