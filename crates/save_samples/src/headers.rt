//! Headers of an image, without the digest of its table.

ghost use Rattle.std.specs.Prelude.{◌≡◌, length};

use crate::fields::{put_extent, put_name};
use save_bytes::{set_u32, set_u64};

/// A DISA with one partition.
pub(crate) fn put_single_disa(header: &mut [u8])
    requires { length header.old ≡ 256 }
{
    put_disa(header, 1, 1024, 300);
    put_extent(header, 0x28, 0, 300);
    put_extent(header, 0x48, 4096, 106_496);
}

/// A DISA with two partitions.
pub(crate) fn put_dual_disa(header: &mut [u8])
    requires { length header.old ≡ 256 }
{
    put_disa(header, 2, 1536, 604);
    put_extent(header, 0x28, 0, 300);
    put_extent(header, 0x38, 304, 300);
    put_extent(header, 0x48, 4096, 40_960);
    put_extent(header, 0x58, 45_056, 65_536);
}

/// The descriptors and partitions of a DISA with two of them, in the other order.
pub(crate) fn turn_partitions(header: &mut [u8])
    requires { length header.old ≡ 256 }
{
    put_extent(header, 0x28, 304, 300);
    put_extent(header, 0x38, 0, 300);
    put_extent(header, 0x48, 45_056, 65_536);
    put_extent(header, 0x58, 4096, 40_960);
}

fn put_disa(header: &mut [u8], partitions: u32, primary: u64, table: u64)
    requires { length header.old ≡ 256 }
{
    put_name(header, b"DISA", 0x40000);
    set_u32(header, 0x08, partitions);
    set_u64(header, 0x10, 512);
    set_u64(header, 0x18, primary);
    set_u64(header, 0x20, table);
}

pub(crate) fn put_diff(header: &mut [u8])
    requires { length header.old ≡ 256 }
{
    put_name(header, b"DIFF", 0x30000);
    set_u64(header, 0x08, 512);
    set_u64(header, 0x10, 1024);
    set_u64(header, 0x18, 300);
    put_extent(header, 0x20, 4096, 106_496);
}
