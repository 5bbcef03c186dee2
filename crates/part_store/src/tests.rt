//! Cells of a sample image's only partition through both of its trees.

ghost use Rattle.std.specs.Prelude.{◌≡◌, ◌+◌, ◌<◌, ◌≤◌, length, IfOk};
ghost use Rattle.save_bytes.specs.Memory.{memory_shape};
ghost use Rattle.save_bytes.specs.Extents.{AreApart};
ghost use Rattle.difi.specs.Sound.{HasSoundLevels, difi_part};
ghost use Rattle.ivfc_tree.specs.Levels.{HasBlock};
ghost use Rattle.part_store.specs.Parts.{CanViewPart};

use super::*;
use difi::Difi;
use ivfc_tree::Status;
use save_bytes::{Bad, Floor, MemSpace, Space, set_u32};
use save_samples::{LONE_DIFI, Sample, sample};
use std::alloc::{AllocError, Global};
use std::test::Fail;

/// The partition begins here in the image.
const PART_AT: u64 = 4096;
/// Level four begins here in the image, in the first copy of the contents.
const LEVEL_FOUR: usize = 24_576;
/// The second copy lies so far behind the first.
const COPY: usize = 49_152;
/// The bits that choose the copies of the contents' blocks, and those that choose the copies of these bits.
const LEVEL_TWO: usize = 8192;

const LEVEL_ONE: usize = 4096;
/// The active table.
const TABLE: usize = 1024;

/// What is needed of the sample's descriptor.
#[tactic(auto, unfolding(ivfc_tree::specs::Levels::level_of))]
fn lone() -> Difi
    ensures levels { HasSoundLevels result 106496 }
    ensures apart { AreApart difi_part result.master }
    ensures place { result.place ≡ 0 }
    ensures master { result.master.at + result.master.size ≡ 300 }
    ensures size { result.ivfc4.size ≡ 34816 }
    ensures block1 { HasBlock result 1 0 }
    ensures block2 { HasBlock result 2 0 }
    ensures block3 { HasBlock result 3 0 }
    ensures block4 { HasBlock result 4 0 }
    ensures last { HasBlock result 4 8 }
{
    LONE_DIFI
}

/// The partition with nothing changed, under a number.
pub(crate) fn open(alloc: Global, number: u8) -> Result<Part, AllocError>
    ensures view { IfOk result (λ part. CanViewPart (memory_shape 110592 512) part 300) }
    ensures size { IfOk result (λ part. part.difi.ivfc4.size ≡ 34816) }
    ensures block1 { IfOk result (λ part. HasBlock part.difi 1 0) }
    ensures block2 { IfOk result (λ part. HasBlock part.difi 2 0) }
    ensures block3 { IfOk result (λ part. HasBlock part.difi 3 0) }
    ensures block4 { IfOk result (λ part. HasBlock part.difi 4 0) }
    ensures last { IfOk result (λ part. HasBlock part.difi 4 8) }
{
    Part::open(alloc, number, PART_AT, &lone())
}

/// The table of an image.
pub(crate) fn table_of(image: &[u8]) -> [u8; 300]
    requires { length image.now ≡ 110592 }
{
    let mut table = [0; 300];
    table.copy_from_slice(&image[TABLE..TABLE + 300]);
    table
}

/// What is answered of the first four bytes at a place of level four.
fn four_at(
    alloc: Global,
    image: &mut [u8],
    number: u8,
    at: u64,
) -> Result<Result<[u8; 4], Bad>, AllocError>
    requires image { length image.old ≡ 110592 }
    requires inside { at < 34816 }
{
    let mut table = table_of(image);
    let mut part = open(alloc, number)?;
    let mut space = MemSpace::new(image, 512);
    let mut view = PartView::new(&mut space, &mut part, &mut table);
    let mut four = [0; 4];
    match view.piece(at, 4) {
        Ok(piece) => {
            let n = piece.len();
            four[..n].copy_from_slice(piece);
            Ok(Ok(four))
        }
        Err(bad) => Ok(Err(bad)),
    }
}

/// As `four_at`, with the bytes lent past the view's end.
fn four_lent(alloc: Global, image: &mut [u8], at: u64) -> Result<Result<[u8; 4], Bad>, AllocError>
    requires image { length image.old ≡ 110592 }
    requires inside { at < 34816 }
{
    let mut table = table_of(image);
    let mut part = open(alloc, 0)?;
    let mut space = MemSpace::new(image, 512);
    let mut four = [0; 4];
    match lend(&mut space, &mut part, &mut table, at, 4) {
        Ok(piece) => {
            let n = piece.len();
            four[..n].copy_from_slice(piece);
            Ok(Ok(four))
        }
        Err(bad) => Ok(Err(bad)),
    }
}

/// What is answered of the first four bytes at a place of level four once its block was cleared, and where the block
/// lies.
fn four_cleared(
    alloc: Global,
    image: &mut [u8],
    at: u64,
) -> Result<Result<([u8; 4], (u64, u64)), Bad>, AllocError>
    requires image { length image.old ≡ 110592 }
    requires inside { at < 34816 }
{
    let mut table = table_of(image);
    let mut part = open(alloc, 0)?;
    let mut space = MemSpace::new(image, 512);
    let mut view = PartView::new(&mut space, &mut part, &mut table);
    let block = view.block_of(at);
    match view.clear(at) {
        Ok(()) => (),
        Err(bad) => return Ok(Err(bad)),
    }
    let mut four = [1; 4];
    match view.piece(at, 4) {
        Ok(piece) => {
            let n = piece.len();
            four[..n].copy_from_slice(piece);
            Ok(Ok((four, block)))
        }
        Err(bad) => Ok(Err(bad)),
    }
}

/// As `four_at`, once a selector was taken.
fn four_settled(
    alloc: Global,
    image: &mut [u8],
    selector: u8,
) -> Result<Result<[u8; 4], Bad>, AllocError>
    requires image { length image.old ≡ 110592 }
    requires selector { selector < 2 }
{
    let mut table = table_of(image);
    let mut part = open(alloc, 0)?;
    part.settle(selector);
    let mut space = MemSpace::new(image, 512);
    let mut view = PartView::new(&mut space, &mut part, &mut table);
    let mut four = [0; 4];
    match view.piece(0, 4) {
        Ok(piece) => {
            let n = piece.len();
            four[..n].copy_from_slice(piece);
            Ok(Ok(four))
        }
        Err(bad) => Ok(Err(bad)),
    }
}

/// Puts bytes at a place of level four.
pub(crate) fn put_at<S: Space>(
    base: &mut S,
    part: &mut Part,
    table: &mut [u8],
    at: u64,
    bytes: &[u8],
) -> Result<(), Bad>
    requires view { CanViewPart (S.state base.old).shape part.old (length table.old) }
    requires inside { at + length bytes.now ≤ part.old.difi.ivfc4.size }
    ensures shape { (S.state base.new).shape ≡ (S.state base.old).shape }
    ensures view { CanViewPart (S.state base.new).shape part.new (length table.new) }
    ensures descriptor { part.new.difi ≡ part.old.difi }
    ensures table { length table.new ≡ length table.old }
{
    let mut view = PartView::new(base, part, table);
    view.put(at, bytes)
}

/// As `four_at`, once four other bytes were put there and dropped again.
fn four_dropped(alloc: Global, image: &mut [u8]) -> Result<Result<[u8; 4], Bad>, AllocError>
    requires { length image.old ≡ 110592 }
{
    let mut table = table_of(image);
    let mut part = open(alloc, 0)?;
    let mut space = MemSpace::new(image, 512);
    match put_at(&mut space, &mut part, &mut table, 0, b"DATA") {
        Ok(()) => (),
        Err(bad) => return Ok(Err(bad)),
    }
    part.drop_changes();
    let mut view = PartView::new(&mut space, &mut part, &mut table);
    let mut four = [0; 4];
    match view.piece(0, 4) {
        Ok(piece) => {
            let n = piece.len();
            four[..n].copy_from_slice(piece);
            Ok(Ok(four))
        }
        Err(bad) => Ok(Err(bad)),
    }
}

/// Where up to ten bytes from a place of level four on lie in the image.
fn run_at(alloc: Global, image: &mut [u8], at: u64) -> Result<Result<(u64, usize), Bad>, AllocError>
    requires image { length image.old ≡ 110592 }
    requires inside { at < 34816 }
{
    let mut table = table_of(image);
    let mut part = open(alloc, 0)?;
    let mut space = MemSpace::new(image, 512);
    let mut view = PartView::new(&mut space, &mut part, &mut table);
    Ok(view.locate(at, 10))
}

/// The states of the first block of each hash level, and of the last of level four.
fn statuses(alloc: Global, image: &mut [u8]) -> Result<[Status; 5], Fail>
    requires { length image.old ≡ 110592 }
{
    let mut table = table_of(image);
    let mut part = open(alloc, 0)?;
    let mut space = MemSpace::new(image, 512);
    let mut view = PartView::new(&mut space, &mut part, &mut table);
    Ok([
        view.status(1, 0)?,
        view.status(2, 0)?,
        view.status(3, 0)?,
        view.status(4, 0)?,
        view.status(4, 8)?,
    ])
}

#[test]
fn bytes_are_read_through_both_trees(rt: HostRuntime) -> Result<(), Fail> {
    let alloc = rt.alloc();
    let mut image = sample(alloc, Sample::Single)?;
    // The information begins at 0x20 of the filesystem, as its header says at 8.
    for (at, want) in [(0, *b"SAVE"), (8, [0x20, 0, 0, 0])] {
        assert_eq!(rt; four_at(alloc, &mut image, 0, at)?, Ok(want));
        assert_eq!(rt; four_lent(alloc, &mut image, at)?, Ok(want));
    }
    assert_eq!(rt; run_at(alloc, &mut image, 0)?, Ok((24_576, 10)));
    // A piece ends with its block.
    assert_eq!(rt; run_at(alloc, &mut image, 4093)?, Ok((28_669, 3)));
    Ok(())
}

#[test]
fn chosen_copy_is_read(rt: HostRuntime) -> Result<(), Fail> {
    let alloc = rt.alloc();
    let mut image = sample(alloc, Sample::Single)?;
    let blames = Bad::Damaged {
        part: 0,
        level: 4,
        block: 0,
    };
    image.copy_within(LEVEL_FOUR..LEVEL_FOUR + 4096, LEVEL_FOUR + COPY);
    image[LEVEL_FOUR] = b'D';
    assert_eq!(rt; four_at(alloc, &mut image, 0, 0)?, Err(blames));
    // Level four begins with block 3 of the contents.
    set_u32(&mut image, LEVEL_TWO, 0x1000_0000);
    assert_eq!(rt; four_at(alloc, &mut image, 0, 0)?, Ok(*b"SAVE"));
    assert_eq!(rt; run_at(alloc, &mut image, 0)?, Ok((73_728, 10)));
    // The bits of the second copy are chosen, which are all 0.
    set_u32(&mut image, LEVEL_ONE, 0x8000_0000);
    assert_eq!(rt; four_lent(alloc, &mut image, 0)?, Err(blames));
    set_u32(&mut image, LEVEL_TWO + 128, 0x1000_0000);
    assert_eq!(rt; four_lent(alloc, &mut image, 0)?, Ok(*b"SAVE"));
    Ok(())
}

// Each byte is turned and not turned back: the later ones are of blocks above.
#[test]
fn topmost_block_at_fault_is_named(rt: HostRuntime) -> Result<(), Fail> {
    let alloc = rt.alloc();
    let mut image = sample(alloc, Sample::Single)?;
    for (place, level) in [(28_671, 4), (20_480, 3), (16_384, 2), (12_288, 1)] {
        image[place] ^= 1;
        let blames = Bad::Damaged {
            part: 1,
            level,
            block: 0,
        };
        assert_eq!(rt; four_at(alloc, &mut image, 1, 0)?, Err(blames));
    }
    let mut image = sample(alloc, Sample::Single)?;
    image[TABLE + 0x10C + 31] ^= 0x80;
    let blames = Bad::Damaged {
        part: 0,
        level: 1,
        block: 0,
    };
    assert_eq!(rt; four_lent(alloc, &mut image, 0)?, Err(blames));
    assert_eq!(rt; run_at(alloc, &mut image, 0)?, Err(blames));
    Ok(())
}

#[test]
fn block_that_was_never_written_is_named(rt: HostRuntime) -> Result<(), Fail> {
    let alloc = rt.alloc();
    let mut image = sample(alloc, Sample::Single)?;
    for (at, block) in [(4096, 1), (8191, 1), (34_815, 8)] {
        let blames = Bad::Damaged {
            part: 0,
            level: 4,
            block,
        };
        assert_eq!(rt; four_at(alloc, &mut image, 0, at)?, Err(blames));
    }
    Ok(())
}

#[test]
fn status_is_by_the_topmost_hash_that_fails(rt: HostRuntime) -> Result<(), Fail> {
    use Status::{Bad, Blank, Good};
    let alloc = rt.alloc();
    let mut image = sample(alloc, Sample::Single)?;
    assert_eq!(rt;
        statuses(alloc, &mut image)?,
        [Good, Good, Good, Good, Blank]
    );
    for (place, want) in [
        (24_576, [Good, Good, Good, Bad, Blank]),
        (20_480 + 287, [Good, Good, Bad, Bad, Bad]),
        (12_288 + 31, [Bad, Bad, Bad, Bad, Bad]),
    ] {
        image[place] ^= 1;
        assert_eq!(rt; statuses(alloc, &mut image)?, want);
    }
    Ok(())
}

// The last block of level four is shorter than the others, and was never written, as the second.
#[test]
fn cleared_block_holds_zeros(rt: HostRuntime) -> Result<(), Fail> {
    let alloc = rt.alloc();
    for (at, block) in [
        (0, (0, 4096)),
        (8188, (4096, 4096)),
        (34_000, (32_768, 2048)),
    ] {
        let mut image = sample(alloc, Sample::Single)?;
        assert_eq!(rt; four_cleared(alloc, &mut image, at)?, Ok(([0; 4], block)));
    }
    // A block of level 4 that is spoilt can be cleared; below one of level 3 none can.
    let mut image = sample(alloc, Sample::Single)?;
    image[LEVEL_FOUR] ^= 1;
    assert_eq!(rt;
        four_cleared(alloc, &mut image, 0)?,
        Ok(([0; 4], (0, 4096)))
    );
    let mut image = sample(alloc, Sample::Single)?;
    image[20_480 + 287] ^= 1;
    let blames = Bad::Damaged {
        part: 0,
        level: 3,
        block: 0,
    };
    assert_eq!(rt; four_cleared(alloc, &mut image, 0)?, Err(blames));
    Ok(())
}

#[test]
fn settled_selector_chooses(rt: HostRuntime) -> Result<(), Fail> {
    let alloc = rt.alloc();
    let mut image = sample(alloc, Sample::Single)?;
    let blames = Bad::Damaged {
        part: 0,
        level: 4,
        block: 0,
    };
    image.copy_within(LEVEL_FOUR..LEVEL_FOUR + 4096, LEVEL_FOUR + COPY);
    image[LEVEL_FOUR] = b'D';
    // The first copy of level 1 chooses bits that are all 0, and the second those that choose the second copy.
    set_u32(&mut image, LEVEL_ONE, 0x8000_0000);
    set_u32(&mut image, LEVEL_TWO, 0x1000_0000);
    assert_eq!(rt; four_settled(alloc, &mut image, 0)?, Err(blames));
    assert_eq!(rt; four_settled(alloc, &mut image, 1)?, Ok(*b"SAVE"));
    Ok(())
}

#[test]
fn dropped_put_is_gone(rt: HostRuntime) -> Result<(), Fail> {
    let alloc = rt.alloc();
    let mut image = sample(alloc, Sample::Single)?;
    assert_eq!(rt; four_dropped(alloc, &mut image)?, Ok(*b"SAVE"));
    // The other copy has the bytes that were put.
    assert!(rt; image[LEVEL_FOUR + COPY..].starts_with(b"DATA"));
    Ok(())
}
