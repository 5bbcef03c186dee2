ghost use Rattle.std.specs.Prelude.{◌≡◌, ◌+◌, ◌*◌, ◌≤◌, length};

use crate::fault::MountFault;
use crate::files::hold_files;
use chain_nodes::{ChainInfo, FLAG};
use entry_audit::ReadEntry;
use held_lists::EntrySet;
use save_bytes::{MemSpace, Name, set_u32};
use std::alloc::{AllocError, Global};
use tree_rules::{Places, TableAt, TablePlace};

/// What a file without data blocks has as its first.
const NO_BLOCK: u32 = FLAG;

/// A table that lies plainly.
const PLAIN: TablePlace = TablePlace {
    buckets_at: 0,
    buckets: 1,
    table: TableAt::Plainly(0),
};

/// An allocation table of 9 entries behind entry 0, and 9 blocks of 4 bytes each.
const NINE: Places = Places {
    chain: ChainInfo {
        table_at: 0,
        count: 9,
        region_at: 80,
        block: 4,
    },
    dirs: PLAIN,
    files: PLAIN,
};

/// Sets the two words of an entry of a table that begins at 0.
fn set_entry(bytes: &mut [u8], entry: usize, u: u32, v: u32)
    requires { 8 * entry + 8 ≤ length bytes.old }
{
    set_u32(bytes, 8 * entry, u);
    set_u32(bytes, 8 * entry + 4, v);
}

/// A chain of entry 1, one of entries 3 to 5 and entry 9, and one of entry 7, which names an entry past the last.
fn three_chains() -> [u8; 116] {
    let mut bytes = [0; 116];
    set_entry(&mut bytes, 1, FLAG, 0);
    set_entry(&mut bytes, 3, FLAG, FLAG + 9);
    set_entry(&mut bytes, 4, FLAG + 3, 5);
    set_entry(&mut bytes, 5, FLAG + 3, 5);
    set_entry(&mut bytes, 9, 3, 0);
    set_entry(&mut bytes, 7, FLAG, 10);
    bytes
}

/// A file with this first data block and this many bytes.
fn file(start: u32, wide: u64) -> Option<ReadEntry> {
    Some(ReadEntry {
        parent: 1,
        name: Name(*b"a\0\0\0\0\0\0\0\0\0\0\0\0\0\0\0"),
        sibling: 0,
        link: 0,
        first_dir: 0,
        first_file: 0,
        start,
        wide,
    })
}

/// How the chains of files 1 and 3 are found, where file 2 is freed.
fn walked(
    alloc: Global,
    first: (u32, u64),
    second: (u32, u64),
) -> Result<Result<(), MountFault>, AllocError> {
    let mut bytes = three_chains();
    let mut space = MemSpace::new(&mut bytes, 16);
    let mut held = EntrySet::new(alloc, 9)?;
    let files = [None, file(first.0, first.1), None, file(second.0, second.1)];
    Ok(hold_files(&mut space, &NINE, &files, &mut held))
}

#[test]
fn the_first_fault_of_two_files_is_named(rt: HostRuntime) {
    let chain = |entry| Err(MountFault::Broken { table: 1, entry });
    let of_file = |entry| Err(MountFault::Broken { table: 3, entry });
    for (first, second, want) in [
        // Chains of one block and of four, full or not.
        ((0, 4), (2, 16), Ok(())),
        ((2, 13), (0, 0), Ok(())),
        // One byte too many.
        ((0, 5), (2, 16), of_file(1)),
        ((0, 4), (2, 17), of_file(3)),
        // No block, and none that there is.
        ((NO_BLOCK, 0), (NO_BLOCK, 0), Ok(())),
        ((0, 4), (NO_BLOCK, 1), of_file(3)),
        ((9, 0), (0, 4), of_file(1)),
        ((0, 4), (u32::MAX, 0), of_file(3)),
        // A chain that both have, and one that begins in the middle.
        ((2, 16), (2, 16), chain(3)),
        ((0, 4), (0, 4), chain(1)),
        ((2, 16), (8, 4), chain(9)),
        // What is no chain.
        ((1, 0), (0, 4), chain(2)),
        ((2, 16), (6, 4), chain(7)),
    ] {
        let answer = walked(rt.alloc(), first, second);
        assert_eq!(rt; answer.ok(), Some(want));
    }
}
