//! The stores of sample images, whole and spoilt, over desks in memory.

ghost use Rattle.std.specs.Prelude.{◌≡◌, ℕ, ◌+◌, ◌<◌, ◌≤◌, length, slice_index, IsTrue, OnOk};
ghost use Rattle.save_bytes.specs.Cells.{AreBytesAt};
ghost use Rattle.save_bytes.specs.State.{IsInside};
ghost use Rattle.save_bytes.specs.Spots.{Spot, Sector, Hold};
ghost use Rattle.ivfc_tree.specs.Levels.{HasBlock};
ghost use Rattle.part_store.specs.Spots.{SamePart};
ghost use Rattle.page_image.specs.Images.{IsDiskOf};
ghost use Rattle.page_image.specs.Spots.{Leaves};
ghost use Rattle.container.specs.Containers.{IsWholeContainer};
ghost use Rattle.container.specs.StoreHeld.{store_of, IsKept};

use super::*;
use difi::{Difi, LevelPlace};
use ivfc_tree::Status;
use page_image::ImageState;
use part_store::Part;
use save_bytes::{Bad, Space, set_u32};
use save_disk::{Call, Disk, MemDesk, ZeroSigner};
use save_samples::{Sample, put_digest, sample};
use std::alloc::Global;
use std::process::Abort;
use std::test::Fail;

/// The first bytes of a filesystem: its name and version, where its information begins, the image's length in blocks,
/// and the bytes of a block, which are 512.
const HEAD: [u8; 32] = [
    b'S', b'A', b'V', b'E', 0, 0, 4, 0, 0x20, 0, 0, 0, 0, 0, 0, 0, 216, 0, 0, 0, 0, 0, 0, 0, 0, 2,
    0, 0, 0, 0, 0, 0,
];

/// How many cells the store of an image has.
fn len_of(alloc: Global, image: &[u8]) -> Result<u64, Fail> {
    let mut desk = MemDesk::new(alloc, image, &[])?;
    let mut container = Container::open(alloc, &mut desk, &ZeroSigner)?;
    Ok(container.store(&mut desk).len())
}

/// How many bytes the store of an image lends from a place on, and the first of them.
fn lent(
    rt: &impl Abort,
    alloc: Global,
    image: &[u8],
    at: u64,
    most: usize,
) -> Result<Result<(usize, u8), Bad>, Fail>
    requires { 1 ≤ most }
{
    let mut desk = MemDesk::new(alloc, image, &[])?;
    let mut container = Container::open(alloc, &mut desk, &ZeroSigner)?;
    let mut store = container.store(&mut desk);
    assert!(rt; at < store.len());
    match store.piece(at, most) {
        Ok(piece) => Ok(Ok((piece.len(), piece[0]))),
        Err(bad) => Ok(Err(bad)),
    }
}

/// The 32 bytes from a place of the store of an image on.
fn copied(
    rt: &impl Abort,
    alloc: Global,
    image: &[u8],
    at: u64,
) -> Result<Result<[u8; 32], Bad>, Fail>
    requires { at ≤ 100000 }
{
    let mut desk = MemDesk::new(alloc, image, &[])?;
    let mut container = Container::open(alloc, &mut desk, &ZeroSigner)?;
    let mut store = container.store(&mut desk);
    assert!(rt; at + 32 <= store.len());
    let mut out = [0; 32];
    match store.copy(at, &mut out) {
        Ok(()) => Ok(Ok(out)),
        Err(bad) => Ok(Err(bad)),
    }
}

// Copies by one store, and then by another: the container and the disk are known between and behind.
fn copy_twice<D: Disk>(
    container: &mut Container,
    disk: &mut D,
    at: u64,
    first: &mut [u8],
    last: &mut [u8],
) -> Result<(), Bad>
    requires disk { IsDiskOf (D.state disk.old) container.old.image }
    requires first { IsInside (store_of (D.state disk.old) container.old).shape at (length first.old) }
    requires last { IsInside (store_of (D.state disk.old) container.old).shape at (length last.old) }
    ensures first { IsTrue (store_of (D.state disk.old) container.old).told
        → OnOk result (AreBytesAt (store_of (D.state disk.old) container.old).cells at first.new) }
    ensures last { IsTrue (store_of (D.state disk.old) container.old).told
        → OnOk result (AreBytesAt (store_of (D.state disk.old) container.old).cells at last.new) }
    ensures kept { IsKept container.old container.new }
    ensures disk { IsDiskOf (D.state disk.new) container.new.image }
    ensures sectors { (number : ℕ) → Leaves (Sector number) (D.state disk.old) container.old.image (D.state disk.new) container.new.image }
    ensures spots { IsTrue (store_of (D.state disk.old) container.old).told → (spot : Spot)
        → Leaves spot (D.state disk.old) container.old.image (D.state disk.new) container.new.image }
{
    container.store(disk).copy(at, first)?;
    container.store(disk).copy(at, last)
}

// Changes marks of a part, as far as its contract says.
fn mark(part: &mut Part)
    ensures { SamePart part.old part.new }
{
    let _ = part;
}

// Puts a byte of the image.
fn put_byte<D: Disk>(image: &mut ImageState, disk: &mut D, at: u64, byte: u8) -> Result<(), Bad>
    requires disk { IsDiskOf (D.state disk.old) image.old }
    requires behind_header { 512 ≤ at }
    requires inside { at < image.old.len }
    ensures { Leaves Hold (D.state disk.old) image.old (D.state disk.new) image.new }
{
    let mut view = image.view(disk);
    view.put(at, &[byte])
}

// Changes the image, a part and the table, as a put through a store does.
fn change_in<D: Disk>(container: &mut Container, disk: &mut D, at: u64, byte: u8) -> Result<(), Bad>
    requires disk { IsDiskOf (D.state disk.old) container.old.image }
    requires behind_header { 512 ≤ at }
    requires inside { at < container.old.image.len }
    requires table { 1 ≤ length container.old.table.items }
    ensures header { container.new.header ≡ container.old.header }
    ensures part { SamePart container.old.parts.first container.new.parts.first }
    ensures table { slice_index container.new.table.items 0 ≡ byte }
    ensures hold { Leaves Hold (D.state disk.old) container.old.image (D.state disk.new) container.new.image }
{
    mark(&mut container.parts.first);
    container.table[0] = byte;
    put_byte(&mut container.image, disk, at, byte)
}

// Changes them through a store.
fn change<D: Disk>(store: &mut Store<'_, D>, at: u64, byte: u8) -> Result<(), Bad>
    requires disk { IsDiskOf (D.state store.old.disk.now) store.old.container.now.image }
    requires behind_header { 512 ≤ at }
    requires inside { at < store.old.container.now.image.len }
    requires table { 1 ≤ length store.old.container.now.table.items }
    ensures container { store.new.container.ghost_name ≡ store.old.container.ghost_name }
    ensures disk { store.new.disk.ghost_name ≡ store.old.disk.ghost_name }
    ensures header { store.new.container.now.header ≡ store.old.container.now.header }
    ensures part { SamePart store.old.container.now.parts.first store.new.container.now.parts.first }
    ensures table { slice_index store.new.container.now.table.items 0 ≡ byte }
    ensures hold { Leaves Hold (D.state store.old.disk.now) store.old.container.now.image (D.state store.new.disk.now) store.new.container.now.image }
{
    let container = &mut *store.container;
    let disk = &mut *store.disk;
    change_in(container, disk, at, byte)
}

// Changes them through one store, and reads through another: behind the loans each is known.
fn change_and_read<D: Disk>(
    container: &mut Container,
    disk: &mut D,
    at: u64,
    byte: u8,
) -> Result<u64, Bad>
    requires disk { IsDiskOf (D.state disk.old) container.old.image }
    requires behind_header { 512 ≤ at }
    requires inside { at < container.old.image.len }
    requires table { 1 ≤ length container.old.table.items }
    ensures header { container.new.header ≡ container.old.header }
    ensures part { SamePart container.old.parts.first container.new.parts.first }
    ensures table { slice_index container.new.table.items 0 ≡ byte }
    ensures hold { Leaves Hold (D.state disk.old) container.old.image (D.state disk.new) container.new.image }
{
    change(&mut container.store(disk), at, byte)?;
    Ok(container.store(disk).len())
}

/// A level of the hash tree.
fn level(at: u64, size: u64, log: u32) -> LevelPlace
    ensures at { result.at ≡ at }
    ensures size { result.size ≡ size }
    ensures log { result.log ≡ log }
{
    LevelPlace { at, size, log }
}

/// The levels of the only part's hash tree.
#[tactic(auto, unfolding(ivfc_tree::specs::Levels::level_of))]
fn assert_levels(rt: &impl Abort, difi: &Difi)
    ensures block1 { HasBlock difi.now 1 0 }
    ensures block2 { HasBlock difi.now 2 0 }
    ensures block3 { HasBlock difi.now 3 0 }
    ensures block4 { HasBlock difi.now 4 0 }
    ensures next { HasBlock difi.now 4 1 }
{
    assert!(rt; !difi.external);
    assert!(rt; difi.ivfc1 == level(0, 32, 9));
    assert!(rt; difi.ivfc2 == level(4096, 32, 9));
    assert!(rt; difi.ivfc3 == level(8192, 288, 12));
    assert!(rt; difi.ivfc4 == level(12_288, 34_816, 12));
}

/// The states of the first block of each hash level, and of the next of level four.
fn statuses(rt: &impl Abort, alloc: Global, image: &[u8]) -> Result<[Status; 5], Fail> {
    let mut desk = MemDesk::new(alloc, image, &[])?;
    let mut container = Container::open(alloc, &mut desk, &ZeroSigner)?;
    assert_levels(rt, container.parts.first.difi());
    let mut store = container.store(&mut desk);
    Ok([
        store.status(0, 1, 0)?,
        store.status(0, 2, 0)?,
        store.status(0, 3, 0)?,
        store.status(0, 4, 0)?,
        store.status(0, 4, 1)?,
    ])
}

/// The refusal that names a block.
fn blames(part: u8, level: u8, block: u64) -> Bad {
    Bad::Damaged { part, level, block }
}

#[test]
fn store_has_the_cells_of_both_parts(rt: HostRuntime) -> Result<(), Fail> {
    let alloc = rt.alloc();
    let single = sample(alloc, Sample::Single)?;
    let dual = sample(alloc, Sample::Dual)?;
    assert_eq!(rt; len_of(alloc, &single)?, 34_816);
    assert_eq!(rt; len_of(alloc, &dual)?, 34_328);
    for image in [&single, &dual] {
        assert_eq!(rt; copied(&rt, alloc, image, 0)?, Ok(HEAD));
        assert_eq!(rt; lent(&rt, alloc, image, 3, 10)?, Ok((10, b'E')));
    }
    // A piece ends with its block, and with its part.
    assert_eq!(rt; lent(&rt, alloc, &single, 4095, 10)?, Ok((1, 0)));
    assert_eq!(rt; lent(&rt, alloc, &dual, 1559, 10)?, Ok((1, 0)));
    // These were never written.
    assert_eq!(rt; lent(&rt, alloc, &single, 4096, 10)?, Err(blames(0, 4, 1)));
    assert_eq!(rt; lent(&rt, alloc, &dual, 1560, 10)?, Err(blames(1, 1, 0)));
    assert_eq!(rt; copied(&rt, alloc, &single, 4095)?, Err(blames(0, 4, 1)));
    assert_eq!(rt; copied(&rt, alloc, &dual, 1559)?, Err(blames(1, 1, 0)));
    Ok(())
}

// Block 0 of the data region, which is part 1's external level four, is written, and the end of part 0's level four.
#[test]
fn copy_goes_from_part_to_part(rt: HostRuntime) -> Result<(), Fail> {
    let alloc = rt.alloc();
    let mut image = sample(alloc, Sample::Dual)?;
    image[26_132..26_136].copy_from_slice(b"tree");
    image[77_824..77_828].copy_from_slice(b"data");
    put_digest(&mut image, 24_576, 4096, 20_480);
    put_digest(&mut image, 20_480, 4096, 16_384);
    put_digest(&mut image, 16_384, 512, 12_288);
    put_digest(&mut image, 12_288, 512, 1536 + 0x10C);
    put_digest(&mut image, 77_824, 4096, 61_440);
    put_digest(&mut image, 61_440, 4096, 57_344);
    put_digest(&mut image, 57_344, 512, 53_248);
    put_digest(&mut image, 53_248, 512, 1840 + 0x10C);
    put_digest(&mut image, 1536, 604, 0x16C);
    let mut want = [0; 32];
    want[12..20].copy_from_slice(b"treedata");
    assert_eq!(rt; copied(&rt, alloc, &image, 1544)?, Ok(want));
    assert_eq!(rt; lent(&rt, alloc, &image, 1556, 10)?, Ok((4, b't')));
    assert_eq!(rt; lent(&rt, alloc, &image, 1560, 10)?, Ok((10, b'd')));
    assert_eq!(rt; lent(&rt, alloc, &image, 5655, 10)?, Ok((1, 0)));
    assert_eq!(rt; lent(&rt, alloc, &image, 5656, 10)?, Err(blames(1, 4, 1)));
    image[77_824] ^= 1;
    assert_eq!(rt; copied(&rt, alloc, &image, 1544)?, Err(blames(1, 4, 0)));
    Ok(())
}

// Each bit is turned and not turned back: the later ones are of blocks above.
#[test]
fn topmost_failing_block_is_named(rt: HostRuntime) -> Result<(), Fail> {
    use Status::{Bad, Blank, Good};
    let alloc = rt.alloc();
    let mut image = sample(alloc, Sample::Single)?;
    assert_eq!(rt;
        statuses(&rt, alloc, &image)?,
        [Good, Good, Good, Good, Blank]
    );
    for (place, level, want) in [
        (24_576, 4, [Good, Good, Good, Bad, Blank]),
        (20_480, 3, [Good, Good, Bad, Bad, Bad]),
        (16_384, 2, [Good, Bad, Bad, Bad, Bad]),
        (12_288, 1, [Bad, Bad, Bad, Bad, Bad]),
    ] {
        image[place] ^= 1;
        assert_eq!(rt; lent(&rt, alloc, &image, 0, 1)?, Err(blames(0, level, 0)));
        assert_eq!(rt; copied(&rt, alloc, &image, 8)?, Err(blames(0, level, 0)));
        assert_eq!(rt; statuses(&rt, alloc, &image)?, want);
    }
    Ok(())
}

#[test]
fn a_loose_image_is_read(rt: HostRuntime) -> Result<(), Fail> {
    let alloc = rt.alloc();
    let image = sample(alloc, Sample::Loose)?;
    assert_eq!(rt; len_of(alloc, &image)?, 34_328);
    assert_eq!(rt; lent(&rt, alloc, &image, 0, 10)?, Err(blames(0, 1, 0)));
    assert_eq!(rt; lent(&rt, alloc, &image, 32_767, 10)?, Err(blames(0, 1, 0)));
    assert_eq!(rt; copied(&rt, alloc, &image, 32_768)?, Ok(HEAD));
    Ok(())
}

// Level four begins with block 3 of the contents. Its second copy is chosen by the second copy of the bits of level
// 2, that one by the second copy of the bits of level 1, and that one by the selector.
#[test]
fn second_copy_is_chosen(rt: HostRuntime) -> Result<(), Fail> {
    let alloc = rt.alloc();
    let mut image = sample(alloc, Sample::Single)?;
    image.copy_within(24_576..28_672, 73_728);
    image[24_576] = b'D';
    set_u32(&mut image, 8192 + 128, 0x1000_0000);
    set_u32(&mut image, 4096 + 4, 0x8000_0000);
    assert_eq!(rt; copied(&rt, alloc, &image, 0)?, Err(blames(0, 4, 0)));
    image[1024 + 0x39] = 1;
    put_digest(&mut image, 1024, 300, 0x16C);
    assert_eq!(rt; copied(&rt, alloc, &image, 0)?, Ok(HEAD));
    Ok(())
}

// In sectors of 4,096 bytes an image is opened by four calls. The first bytes of the store and their path lie in six pages.
#[test]
fn store_reads_the_pages_of_a_path_once(rt: HostRuntime) -> Result<(), Fail> {
    let alloc = rt.alloc();
    let image = sample(alloc, Sample::Single)?;
    let mut desk = MemDesk::wide(alloc, &image, &[])?;
    let mut container = Container::open(alloc, &mut desk, &ZeroSigner)?;
    let mut store = container.store(&mut desk);
    assert!(rt; store.len() == 34_816);
    let mut out = [0; 32];
    assert_eq!(rt; store.copy(0, &mut out), Ok(()));
    assert_eq!(rt; out, HEAD);
    assert_eq!(rt; desk.call(9), Some(Call::Read));
    assert_eq!(rt; desk.call(10), None);
    Ok(())
}

/// Reads by two stores of a container, and writes through a third.
fn follow<D: Disk>(
    rt: &impl Abort,
    container: &mut Container,
    disk: &mut D,
) -> Result<([[u8; 32]; 2], u64), Bad>
    requires disk { IsDiskOf (D.state disk.old) container.old.image }
    requires whole { IsWholeContainer container.old }
{
    let (mut first, mut last) = ([0; 32], [0; 32]);
    assert!(rt; container.store(disk).len() >= 32);
    copy_twice(container, disk, 0, &mut first, &mut last)?;
    let size = disk.len().map_err(|_| Bad::Disk)?;
    assert!(rt; size > 1000 && !container.table.is_empty());
    let len = change_and_read(container, disk, 1000, 7)?;
    Ok(([first, last], len))
}

#[test]
fn stores_follow_each_other(rt: HostRuntime) -> Result<(), Fail> {
    let alloc = rt.alloc();
    let image = sample(alloc, Sample::Single)?;
    let mut desk = MemDesk::new(alloc, &image, &[])?;
    let mut container = Container::open(alloc, &mut desk, &ZeroSigner)?;
    assert_eq!(rt;
        follow(&rt, &mut container, &mut desk),
        Ok(([HEAD, HEAD], 34_816))
    );
    Ok(())
}
