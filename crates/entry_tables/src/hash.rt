//! In which bucket a name is found.

ghost use Rattle.std.specs.Prelude.{◌≡◌, ◌<◌, ◌≤◌};
ghost use Rattle.entry_tables.specs.Hash.{bucket_number};

use save_bytes::{Name, u32_at};

/// The number, below `count`, of the bucket for an entry with this parent and name.
pub fn bucket(parent: u32, name: &Name, count: u32) -> u32
    requires { 1 ≤ count }
    ensures number { result ≡ bucket_number parent name.now.0 count }
    ensures below { result < count }
{
    let mut hash = parent ^ 0x091A_2B3C;
    hash = hash.rotate_right(1) ^ u32_at(&name.0, 0);
    hash = hash.rotate_right(1) ^ u32_at(&name.0, 4);
    hash = hash.rotate_right(1) ^ u32_at(&name.0, 8);
    hash = hash.rotate_right(1) ^ u32_at(&name.0, 12);
    hash % count
}
