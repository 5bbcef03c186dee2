//! What the mounts of made filesystems say.

ghost use Rattle.std.specs.Prelude.{◌≡◌, ◌*◌, ◌<◌, ◌≤◌, None, length};
ghost use Rattle.save_fs.specs.Mounted.{IsMountable, StandsOn};

use super::*;
use arrayvec::ArrayVec;
use chain_nodes::FLAG;
use save_bytes::{MemSpace, Path, Space, set_u32};
use save_samples::{Hole, HoleSpace, Sample, sample};
use std::alloc::Global;
use std::test::Fail;
use tree_model::Row;

/// Where level four lies in a sample, and where it ends.
const CONTENTS: (usize, usize) = (24_576, 59_392);

/// A file's size, and how many bytes its first three pieces have.
type Got = (u64, [usize; 3]);

/// The refusal of what needs a block of part 0's level four.
fn damaged(level: u8, block: u64) -> FsFault {
    FsFault::Refused(Refusal::Damaged {
        part: 0,
        level,
        block,
    })
}

/// Sets words of level four.
fn put_words(level_four: &mut [u8], words: &[(usize, u32)])
    requires { length level_four.old ≡ 34816 }
{
    for (at, word) in words {
        if *at < 30_000 {
            set_u32(level_four, *at, *word);
        }
    }
}

/// Reads three pieces of a file, each of so many bytes.
fn get<S: Space>(
    fs: &SaveFs,
    store: &mut S,
    text: &[u8],
    step: usize,
    out: &mut [u8],
) -> Result<Got, FsFault>
    requires stands { StandsOn (S.state store.old).shape fs.now }
    requires room { 3 * step ≤ length out.old }
{
    let path = match Path::read(text) {
        Ok(path) => path,
        Err(fault) => return Err(FsFault::Refused(Refusal::BadPath(fault))),
    };
    let mut getting = fs.begin_get(store, &path)?;
    let first = fs.get_piece(store, &mut getting, &mut out[..step])?;
    let second = fs.get_piece(store, &mut getting, &mut out[step..2 * step])?;
    let third = fs.get_piece(store, &mut getting, &mut out[2 * step..3 * step])?;
    Ok((getting.size(), [first, second, third]))
}

/// Mounts what a store holds, and does the same.
fn mount_and_get<S: Space>(
    alloc: Global,
    store: &mut S,
    text: &[u8],
    step: usize,
    out: &mut [u8],
) -> Result<Result<Got, FsFault>, MountFault>
    requires mountable { IsMountable (S.state store.old).shape None }
    requires room { 3 * step ≤ length out.old }
{
    let fs = SaveFs::mount(alloc, store, None)?;
    Ok(get(&fs, store, text, step, out))
}

fn has_text(path: &Path, text: &[u8]) -> bool {
    let mut out = ArrayVec::new();
    path.write(&mut out);
    out.as_slice() == text
}

fn is_dir(listing: &Listing, i: usize, text: &[u8]) -> bool
    requires { i < length listing.now }
{
    matches!(listing.row(i), Row::Dir(path) if has_text(path, text))
}

fn is_file(listing: &Listing, i: usize, text: &[u8], size: u64) -> bool
    requires { i < length listing.now }
{
    matches!(listing.row(i), Row::File(path, found) if *found == size && has_text(path, text))
}

#[test]
fn a_tree_is_listed_and_its_file_is_read(rt: HostRuntime) -> Result<(), Fail> {
    let mut image = sample(rt.alloc(), Sample::Tree)?;
    let mut store = MemSpace::new(&mut image[CONTENTS.0..CONTENTS.1], 512);
    let fs = SaveFs::mount(rt.alloc(), &mut store, None)?;
    let room = Room {
        blocks: 63,
        dirs: 7,
        files: 7,
    };
    assert_eq!(rt; (fs.room(), fs.lost()), (room, 0));
    let rows = fs.list(rt.alloc(), &mut store)?;
    assert!(rt; rows.len() == 3);
    assert!(rt; is_dir(&rows, 0, b"/"));
    assert!(rt; is_dir(&rows, 1, b"/a"));
    assert!(rt; is_file(&rows, 2, b"/a/x", 3));
    let mut out = [b'.'; 6];
    let got = get(&fs, &mut store, b"/a/x", 2, &mut out);
    assert_eq!(rt; got, Ok((3, [2, 1, 0])));
    assert_eq!(rt; &out, b"xyz...");
    Ok(())
}

#[test]
fn no_file_is_read_where_none_stands(rt: HostRuntime) -> Result<(), Fail> {
    let cases: [(&[u8], Refusal); 5] = [
        (b"/", Refusal::IsRoot),
        (b"/a", Refusal::WrongKind),
        (b"/b", Refusal::NotFound),
        (b"/a/y", Refusal::NotFound),
        (b"/b/x", Refusal::NotFound),
    ];
    for (text, refusal) in cases {
        let mut image = sample(rt.alloc(), Sample::Tree)?;
        let mut store = MemSpace::new(&mut image[CONTENTS.0..CONTENTS.1], 512);
        let mut out = [b'.'; 6];
        let got = mount_and_get(rt.alloc(), &mut store, text, 2, &mut out)?;
        assert_eq!(rt; got, Err(FsFault::Refused(refusal)));
        assert_eq!(rt; out, [b'.'; 6]);
    }
    Ok(())
}

#[test]
fn what_was_never_written_is_no_part_of_a_file(rt: HostRuntime) -> Result<(), Fail> {
    let mut image = sample(rt.alloc(), Sample::Holes)?;
    let mut holes = [Hole::Filled; 9];
    holes[2] = Hole::NeverWritten(4);
    let mut store = HoleSpace::new(&mut image[CONTENTS.0..CONTENTS.1], 4096, &mut holes);
    let fs = SaveFs::mount(rt.alloc(), &mut store, None)?;
    let room = Room {
        blocks: 62,
        dirs: 8,
        files: 7,
    };
    assert_eq!(rt; (fs.room(), fs.lost()), (room, 0));
    let rows = fs.list(rt.alloc(), &mut store)?;
    assert!(rt; rows.len() == 2);
    assert!(rt; is_dir(&rows, 0, b"/"));
    assert!(rt; is_file(&rows, 1, b"/u", 1000));
    let mut out = [b'.'; 6];
    let got = get(&fs, &mut store, b"/u", 2, &mut out);
    assert_eq!(rt; got, Err(damaged(4, 2)));
    assert_eq!(rt; out, [b'.'; 6]);
    Ok(())
}

/// The file of `Holes` has 1,500 bytes in the data blocks 20, 21 and 2, of which the last one is another node.
fn put_two_nodes(level_four: &mut [u8])
    requires { length level_four.old ≡ 34816 }
{
    let words = [
        (1616, 1500),
        // The free list begins with entry 4.
        (212, 4),
        (240, 0),
        (244, FLAG + 23),
        (248, FLAG + 4),
        (252, 20),
        (368, FLAG + 4),
        (392, 4),
        // The node of entries 21 and 22, and that of entry 3.
        (380, FLAG + 3),
        (232, 21),
        (236, 0),
    ];
    put_words(level_four, &words);
    level_four[11_264..11_776].fill(b'p');
    level_four[11_776..12_288].fill(b'q');
    level_four[2048..2560].fill(b'r');
}

#[test]
fn a_file_over_two_nodes_is_read(rt: HostRuntime) -> Result<(), Fail> {
    let mut image = sample(rt.alloc(), Sample::Holes)?;
    let level_four = &mut image[CONTENTS.0..CONTENTS.1];
    put_two_nodes(level_four);
    let mut store = MemSpace::new(level_four, 512);
    let mut out = [b'.'; 2100];
    let got = mount_and_get(rt.alloc(), &mut store, b"/u", 700, &mut out)?;
    assert_eq!(rt; got, Ok((1500, [700, 700, 100])));
    // The first and the last byte of each block, and the byte behind them.
    let ends = [
        out[0], out[511], out[512], out[1023], out[1024], out[1499], out[1500],
    ];
    assert_eq!(rt; &ends, b"ppqqrr.");
    Ok(())
}

/// Two holes among the blocks of 512 bytes of a made filesystem.
fn two_holes(broken: usize, unwritten: usize) -> [Hole; 68]
    requires broken { broken < 68 }
    requires unwritten { unwritten < 68 }
{
    let mut holes = [Hole::Filled; 68];
    holes[unwritten] = Hole::NeverWritten(3);
    holes[broken] = Hole::Broken(2);
    holes
}

/// What reading the file of two nodes comes to, where two blocks of the store are holes.
fn get_with_holes(
    alloc: Global,
    broken: usize,
    unwritten: usize,
) -> Result<Result<Got, FsFault>, Fail>
    requires broken { broken < 68 }
    requires unwritten { unwritten < 68 }
{
    let mut image = sample(alloc, Sample::Holes)?;
    let level_four = &mut image[CONTENTS.0..CONTENTS.1];
    put_two_nodes(level_four);
    let mut holes = two_holes(broken, unwritten);
    let mut store = HoleSpace::new(level_four, 512, &mut holes);
    let mut out = [b'.'; 6];
    Ok(mount_and_get(alloc, &mut store, b"/u", 2, &mut out)?)
}

#[test]
fn the_block_of_the_first_byte_that_is_none_is_named(rt: HostRuntime) -> Result<(), Fail> {
    // Of the store's blocks, the file's are 22, 23 and 4.
    let alloc = rt.alloc();
    assert_eq!(rt; get_with_holes(alloc, 22, 4)?, Err(damaged(2, 22)));
    assert_eq!(rt; get_with_holes(alloc, 23, 4)?, Err(damaged(2, 23)));
    assert_eq!(rt; get_with_holes(alloc, 5, 4)?, Err(damaged(3, 4)));
    assert_eq!(rt; get_with_holes(alloc, 5, 24)?, Ok((1500, [2, 2, 2])));
    Ok(())
}

#[test]
fn an_empty_file_has_no_bytes(rt: HostRuntime) -> Result<(), Fail> {
    let mut image = sample(rt.alloc(), Sample::Tree)?;
    let level_four = &mut image[CONTENTS.0..CONTENTS.1];
    // The file's first data block and its size. Its block is in no chain then.
    put_words(level_four, &[(1612, FLAG), (1616, 0)]);
    let mut store = MemSpace::new(level_four, 512);
    let fs = SaveFs::mount(rt.alloc(), &mut store, None)?;
    assert_eq!(rt; (fs.room().blocks, fs.lost()), (63, 1));
    let rows = fs.list(rt.alloc(), &mut store)?;
    assert!(rt; rows.len() == 3);
    assert!(rt; is_file(&rows, 2, b"/a/x", 0));
    let mut out = [b'.'; 6];
    let got = get(&fs, &mut store, b"/a/x", 2, &mut out);
    assert_eq!(rt; got, Ok((0, [0, 0, 0])));
    assert_eq!(rt; out, [b'.'; 6]);
    Ok(())
}
