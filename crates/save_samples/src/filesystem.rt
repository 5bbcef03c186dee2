//! Level four of part 0: a filesystem in which the root is the only directory and all blocks but those of its own
//! tables are free.

ghost use Rattle.std.specs.Prelude.{◌+◌, ◌*◌, ◌^◌, ◌<◌, ◌≤◌, length};

use crate::fields::put_name;
use save_bytes::{set_u32, set_u64};

/// The bytes of a data block.
const BLOCK: u32 = 512;
/// The number of blocks of that size in the image.
const IMAGE_BLOCKS: u64 = 216;
/// The buckets of each table: 8 raised to the next odd number.
const BUCKETS: u32 = 9;
/// The allocation table begins so far behind the information: 0x68 bytes and two ranges of nine buckets.
const ALLOCATION: usize = 0x68 + 36 + 36;
/// Bit 31 of an allocation entry's words.
pub(crate) const FLAG: u32 = 0x8000_0000;

/// A SAVE's header. The information follows it.
pub(crate) fn put_save_header(level_four: &mut [u8])
    requires { 2048 ≤ length level_four.old }
{
    put_name(level_four, b"SAVE", 0x40000);
    put_sizes(level_four, 0x20);
}

/// A VSXE's header. The information follows it.
pub(crate) fn put_vsxe_header(level_four: &mut [u8])
    requires { 2048 ≤ length level_four.old }
{
    put_name(level_four, b"VSXE", 0x30000);
    put_sizes(level_four, 0x138);
}

fn put_sizes(level_four: &mut [u8], information: u64)
    requires { 2048 ≤ length level_four.old }
{
    set_u64(level_four, 0x08, information);
    set_u64(level_four, 0x10, IMAGE_BLOCKS);
    set_u32(level_four, 0x18, BLOCK);
}

/// A filesystem whose data region follows it from 1,024 on. Data block 0 is the directory table and block 1 the
/// file table, each a chain of its own.
pub(crate) fn put_with_chained_tables(level_four: &mut [u8], information: usize)
    requires room { 2048 ≤ length level_four.old }
    requires information { information ≤ 312 }
{
    put_shared_information(level_four, information, 1024, 66);
    let fields = &mut level_four[information..];
    set_u32(fields, 0x48, 0);
    set_u32(fields, 0x4C, 1);
    set_u32(fields, 0x58, 1);
    set_u32(fields, 0x5C, 1);
    let table = &mut fields[ALLOCATION..];
    put_node(table, 1, 1, true);
    put_node(table, 2, 2, true);
    put_free_node(table, 3, 66);
    put_first_entries(level_four, 1024, 1536);
}

/// A filesystem whose tables follow its allocation table, and whose data region is all of another level four.
pub(crate) fn put_with_placed_tables(level_four: &mut [u8], information: usize)
    requires room { 2048 ≤ length level_four.old }
    requires information { information ≤ 312 }
{
    put_shared_information(level_four, information, 0, 64);
    let fields = &mut level_four[information..];
    set_u64(fields, 0x48, 728);
    set_u64(fields, 0x58, 1128);
    let table = &mut fields[ALLOCATION..];
    put_free_node(table, 1, 64);
    put_first_entries(level_four, 728, 1128);
}

/// The information without the places of the tables, and the root in its bucket: that of parent 0 and of a name
/// of 16 zero bytes. The root's entry is zeros.
fn put_shared_information(level_four: &mut [u8], information: usize, region: u64, blocks: u32)
    requires room { 2048 ≤ length level_four.old }
    requires information { information ≤ 312 }
{
    let buckets = information + 0x68;
    let fields = &mut level_four[information..];
    set_u32(fields, 0x04, BLOCK);
    set_u64(fields, 0x08, buckets as u64);
    set_u32(fields, 0x10, BUCKETS);
    set_u64(fields, 0x18, (buckets + 36) as u64);
    set_u32(fields, 0x20, BUCKETS);
    set_u64(fields, 0x28, (information + ALLOCATION) as u64);
    set_u32(fields, 0x30, blocks);
    set_u64(fields, 0x38, region);
    set_u32(fields, 0x40, blocks);
    set_u32(fields, 0x50, 8);
    set_u32(fields, 0x60, 8);
    let root = 0x091A_2B3C_u32.rotate_right(4) % BUCKETS;
    set_u32(level_four, buckets + 4 * root as usize, 1);
}

/// The node of the entries `first` to `last`, with no node before or after it in its list.
pub(crate) fn put_node(table: &mut [u8], first: u32, last: u32, chain: bool)
    requires order { first ≤ last }
    requires index { last < 2 ^ 31 }
    requires room { 8 * last + 8 ≤ length table.old }
{
    let place = 8 * first as usize;
    set_u32(table, place, if chain { FLAG } else { 0 });
    set_u32(table, place + 4, if first < last { FLAG } else { 0 });
    if first < last {
        put_bounds(table, first + 1, first, last);
        put_bounds(table, last, first, last);
    }
}

/// An entry that names its node's first and last entry.
fn put_bounds(table: &mut [u8], entry: u32, first: u32, last: u32)
    requires index { first < 2 ^ 31 }
    requires room { 8 * entry + 8 ≤ length table.old }
{
    let place = 8 * entry as usize;
    set_u32(table, place, FLAG + first);
    set_u32(table, place + 4, last);
}

/// The first free node, which entry 0 names, with no other free node after it.
pub(crate) fn put_free_node(table: &mut [u8], first: u32, last: u32)
    requires order { first ≤ last }
    requires index { last < 2 ^ 31 }
    requires room { 8 * last + 8 ≤ length table.old }
{
    set_u32(table, 4, first);
    put_node(table, first, last, false);
}

/// Entry 0 of the directory table and of the file table: how many entries were ever used, and how many there can be,
/// entry 0 itself and the root included.
fn put_first_entries(level_four: &mut [u8], directories: usize, files: usize)
    requires directories { directories + 8 ≤ length level_four.old }
    requires files { files + 8 ≤ length level_four.old }
{
    set_u32(level_four, directories, 2);
    set_u32(level_four, directories + 4, 10);
    set_u32(level_four, files, 1);
    set_u32(level_four, files + 4, 9);
}
