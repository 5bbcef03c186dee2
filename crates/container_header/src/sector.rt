//! The fields of a header as they stand in the first 512 bytes of an image.

ghost use Rattle.std.specs.Prelude.{◌≡◌, ◌+◌, ◌≤◌, take, drop};
ghost use Rattle.container_header.specs.Fields.{header_bytes, header_word, header_extent, disa_fields, diff_fields};
ghost use Rattle.container_header.specs.Conditions.{kind_of, version_of};

use crate::header::{Header, Kind};
use save_bytes::{Extent, u32_at, u64_at};

/// Where the header stands in the image.
const HEADER: usize = 0x100;

/// The range of no byte, which stands for one that there is not.
const NO_EXTENT: Extent = Extent { at: 0, size: 0 };

/// The kind that the four bytes at the header's front name.
pub(crate) fn kind_at(sector: &[u8; 512]) -> Option<Kind>
    ensures { result ≡ kind_of sector.now }
{
    match &sector[HEADER..HEADER + 4] {
        b"DISA" => Some(Kind::Disa),
        b"DIFF" => Some(Kind::Diff),
        _ => None,
    }
}

/// The version that the header has.
pub(crate) fn version_at(sector: &[u8; 512]) -> u32
    ensures { result ≡ header_word sector.now 0x04 }
{
    u32_at(sector, HEADER + 0x04)
}

/// How many partitions a DISA names.
pub(crate) fn parts_at(sector: &[u8; 512]) -> u32
    ensures { result ≡ header_word sector.now 0x08 }
{
    u32_at(sector, HEADER + 0x08)
}

/// The 32 bytes from an offset on.
fn hash_at(sector: &[u8; 512], offset: usize) -> [u8; 32]
    requires { offset ≤ 0xE0 }
    ensures { result ≡ header_bytes sector.now offset 32 }
{
    let mut hash = [0; 32];
    hash.copy_from_slice(&sector[HEADER + offset..HEADER + offset + 32]);
    hash
}

/// The whole header.
fn raw_at(sector: &[u8; 512]) -> [u8; 256]
    ensures { result ≡ header_bytes sector.now 0 0x100 }
{
    let mut raw = [0; 256];
    raw.copy_from_slice(&sector[HEADER..]);
    raw
}

/// The offset field and the size field behind it.
fn header_extent(sector: &[u8; 512], offset: usize) -> Extent
    requires { offset ≤ 0xF0 }
    ensures { result ≡ header_extent sector.now offset }
{
    Extent {
        at: u64_at(sector, HEADER + offset),
        size: u64_at(sector, HEADER + offset + 8),
    }
}

/// The fields of a DISA of `parts` partitions.
pub(crate) fn disa(sector: &[u8; 512], parts: u8) -> Header
    requires { header_word sector.now 0x08 ≡ parts }
    ensures { result ≡ disa_fields sector.now }
{
    let (desc_b, part_b) = if parts == 2 {
        (header_extent(sector, 0x38), header_extent(sector, 0x58))
    } else {
        (NO_EXTENT, NO_EXTENT)
    };
    Header {
        kind: Kind::Disa,
        parts,
        secondary: u64_at(sector, HEADER + 0x10),
        primary: u64_at(sector, HEADER + 0x18),
        table_size: u64_at(sector, HEADER + 0x20),
        desc_a: header_extent(sector, 0x28),
        desc_b,
        part_a: header_extent(sector, 0x48),
        part_b,
        active: sector[HEADER + 0x68],
        hash: hash_at(sector, 0x6C),
        unique: 0,
        raw: raw_at(sector),
    }
}

/// The fields of a DIFF.
pub(crate) fn diff(sector: &[u8; 512]) -> Header
    ensures { result ≡ diff_fields sector.now }
{
    let table_size = u64_at(sector, HEADER + 0x18);
    Header {
        kind: Kind::Diff,
        parts: 1,
        secondary: u64_at(sector, HEADER + 0x08),
        primary: u64_at(sector, HEADER + 0x10),
        table_size,
        desc_a: Extent {
            at: 0,
            size: table_size,
        },
        desc_b: NO_EXTENT,
        part_a: header_extent(sector, 0x20),
        part_b: NO_EXTENT,
        active: sector[HEADER + 0x30],
        hash: hash_at(sector, 0x34),
        unique: u64_at(sector, HEADER + 0x54),
        raw: raw_at(sector),
    }
}
