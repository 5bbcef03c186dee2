//! What `Tree` and `Holes` have in part 0's level four beyond what `Single` has there.

ghost use Rattle.std.specs.Prelude.{◌+◌, ◌*◌, ◌^◌, ◌<◌, ◌≤◌, length};

use crate::filesystem::{FLAG, put_free_node, put_node};
use save_bytes::{set_u32, set_u64};

/// Where the nine buckets of each table begin, and the tables.
const DIRECTORY_BUCKETS: usize = 136;

const FILE_BUCKETS: usize = 172;

const ALLOCATION: usize = 208;

const DIRECTORIES: usize = 1024;

const FILES: usize = 1536;

/// The entry of the root, and the bytes of a directory's entry and of a file's.
const ROOT: usize = DIRECTORIES + DIRECTORY_BYTES;

const DIRECTORY_BYTES: usize = 0x28;

const FILE_BYTES: usize = 0x30;

/// Data block 2, the first behind the tables.
const DATA: usize = 1024 + 2 * 512;

/// The fields of a directory's entry: its first directory and its first file.
const FIRST_DIRECTORY: usize = 0x18;

const FIRST_FILE: usize = 0x1C;

/// Directory 2 is `/a`, and file 1 is `/a/x` with the bytes `xyz` in data block 2.
pub(crate) fn put_tree(level_four: &mut [u8])
    requires { 4096 ≤ length level_four.old }
{
    set_u32(level_four, DIRECTORIES, 3);
    set_u32(level_four, ROOT + FIRST_DIRECTORY, 2);
    let entry = DIRECTORIES + 2 * DIRECTORY_BYTES;
    put_parent_and_name(level_four, entry, 1, b'a');
    set_u32(level_four, entry + FIRST_FILE, 1);
    // Parent 1 and `a` have bucket 6 of 9, and parent 2 and `x` bucket 5.
    set_u32(level_four, DIRECTORY_BUCKETS + 4 * 6, 2);
    put_file(level_four, 2, b'x', 2, 3);
    set_u32(level_four, FILE_BUCKETS + 4 * 5, 1);
    level_four[DATA..DATA + 3].copy_from_slice(b"xyz");
    let table = &mut level_four[ALLOCATION..];
    put_node(table, 3, 3, true);
    put_free_node(table, 4, 66);
}

/// File 1 is `/u` with 1,000 bytes in the data blocks 20 and 21, which were never written.
pub(crate) fn put_holes(level_four: &mut [u8])
    requires { 4096 ≤ length level_four.old }
{
    set_u32(level_four, ROOT + FIRST_FILE, 1);
    put_file(level_four, 1, b'u', 20, 1000);
    // Parent 1 and `u` have bucket 2 of 9.
    set_u32(level_four, FILE_BUCKETS + 4 * 2, 1);
    let table = &mut level_four[ALLOCATION..];
    put_node(table, 21, 22, true);
    put_free_node(table, 3, 20);
    put_node(table, 23, 66, false);
    link_nodes(table, 3, 23);
}

/// File 1, the only one, without its bucket.
fn put_file(level_four: &mut [u8], parent: u32, name: u8, block: u32, size: u64)
    requires { 4096 ≤ length level_four.old }
{
    set_u32(level_four, FILES, 2);
    let entry = FILES + FILE_BYTES;
    put_parent_and_name(level_four, entry, parent, name);
    set_u32(level_four, entry + 0x1C, block);
    set_u64(level_four, entry + 0x20, size);
}

/// An entry's parent, and its name of one byte.
fn put_parent_and_name(level_four: &mut [u8], entry: usize, parent: u32, name: u8)
    requires { entry + 5 ≤ length level_four.old }
{
    set_u32(level_four, entry, parent);
    level_four[entry + 4] = name;
}

/// Links two nodes by their first entries. The one before has more than one entry, and neither begins a chain.
fn link_nodes(table: &mut [u8], before: u32, after: u32)
    requires index { after < 2 ^ 31 }
    requires before { 8 * before + 8 ≤ length table.old }
    requires after { 8 * after + 8 ≤ length table.old }
{
    set_u32(table, 8 * before as usize + 4, FLAG + after);
    set_u32(table, 8 * after as usize, before);
}
