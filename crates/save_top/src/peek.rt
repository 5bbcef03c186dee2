//! A block of an open image, by its part and its number.

ghost use Rattle.std.specs.Prelude.{◌≡◌, ℕ, ◌+◌, ◌<◌, ◌≤◌, Bool, List, length, IsTrue, IfOk, IfErr, OnOk};
ghost use Rattle.std.specs.Result.{result_err};
ghost use Rattle.save_bytes.specs.Cells.{AreBytesAt};
ghost use Rattle.save_bytes.specs.Answers.{IsRead};
ghost use Rattle.save_bytes.specs.Refusals.{OnDisk};
ghost use Rattle.save_disk.specs.State.{IsQuiet, IsSteady, Rose};
ghost use Rattle.save_disk.specs.Tells.{tells};
ghost use Rattle.page_image.specs.Images.{IsDiskOf};
ghost use Rattle.page_image.specs.WriteOuts.{IsClean};
ghost use Rattle.container.specs.Signers.{Signing};
ghost use Rattle.container.specs.Parts.{part_count};
ghost use Rattle.container.specs.Containers.{IsWholeContainer, OfPart};
ghost use Rattle.difi.specs.Places.{block_size};
ghost use Rattle.container.specs.StoreHeld.{store_of};
ghost use Rattle.save_top.specs.Peeks.{Holds, part_start, IsPlaceOf, IsMissOf, IsMissBy, MatchBad};
ghost use Rattle.save_top.specs.Output.{done};
ghost use Rattle.save_top.specs.Replies.{peek_reply};

use crate::block::block_text;
use container::Container;
use difi::LevelPlace;
use save_bytes::Bad;
use save_disk::Disk;
use std::alloc::Global;

/// Why a block is not shown.
#[derive(Clone, Copy, Debug, PartialEq, Eq)]
pub enum Miss {
    /// Memory was wanting.
    Memory,
    /// The disk failed.
    Disk,
    /// The image has only so many parts.
    NoPart { have: u64 },
    /// The part has only so many blocks.
    NoBlock { have: u64 },
    /// The topmost block that fails on the block's hash path.
    Damaged { part: u8, level: u8, block: u64 },
}

/// A block's part, its place in the store, and its bytes below level four's size.
#[derive(Clone, Copy, Debug)]
pub struct Place {
    part: u8,
    at: u64,
    len: usize,
}

// A part's level four: its bytes, and the logarithm of its block size.
fn level_four(container: &Container, part: u8) -> LevelPlace
    requires whole { IsWholeContainer container.now }
    requires there { part < part_count container.now.parts.second }
    ensures level { OfPart container.now part (λ difi. result ≡ difi.ivfc4) }
    ensures log { result.log ≤ 16 }
    ensures small { result.size ≤ 67108864 }
{
    container.level(part, 4)
}

fn block_size(level: &LevelPlace) -> u64
    requires { level.now.log ≤ 16 }
    ensures size { result ≡ block_size level.now }
    ensures small { result ≤ 65536 }
    ensures some { 1 ≤ result }
{
    1 << level.log
}

// Where a part's level four begins in the store.
fn start_of(container: &Container, part: u8) -> u64
    requires whole { IsWholeContainer container.now }
    requires there { part < part_count container.now.parts.second }
    ensures start { result ≡ part_start container.now.parts part }
    ensures small { result ≤ 67108864 }
{
    if part == 0 {
        return 0;
    }
    level_four(container, 0).size
}

// The place of a block in the store.
fn find(container: &Container, part: u64, block: u64) -> Result<Place, Miss>
    requires { IsWholeContainer container.now }
    ensures place { IfOk result (IsPlaceOf container.now part block) }
    ensures miss { IfErr result (IsMissOf container.now part block) }
{
    let have = u64::from(container.parts());
    if part >= have {
        return Err(Miss::NoPart { have });
    }
    let part = part as u8;
    let level = level_four(container, part);
    let size = block_size(&level);
    let have = level.size.div_ceil(size);
    if block >= have {
        return Err(Miss::NoBlock { have });
    }
    let from = block * size;
    Ok(Place {
        part,
        at: start_of(container, part) + from,
        len: size.min(level.size - from) as usize,
    })
}

// Copies bytes of a container's store.
fn fill<D: Disk>(
    container: &mut Container,
    disk: &mut D,
    at: u64,
    out: &mut [u8],
) -> Result<(), Bad>
    requires whole { IsWholeContainer container.old }
    requires disk { IsDiskOf (D.state disk.old) container.old.image }
    requires inside { at + length out.old ≤ (store_of (D.state disk.old) container.old).shape.size }
    ensures read { IsRead (store_of (D.state disk.old) container.old) at (length out.old) (result_err result) }
    ensures bytes { IsTrue (store_of (D.state disk.old) container.old).told
        → OnOk result (AreBytesAt (store_of (D.state disk.old) container.old).cells at out.new) }
    ensures quiet { IsClean container.old.image → IsQuiet (D.state disk.old) (D.state disk.new) }
    ensures steady { IsSteady (D.state disk.old) (D.state disk.new) }
    ensures cause { OnDisk (result_err result) (Rose (D.state disk.old).counts.disk (D.state disk.new).counts.disk) }
{
    let mut store = container.store(disk);
    store.copy(at, out)
}

// What a refusal of the store comes to.
fn miss_of(bad: Bad) -> Miss
    ensures { MatchBad bad result }
{
    match bad {
        Bad::Disk => Miss::Disk,
        Bad::Damaged { part, level, block } => Miss::Damaged { part, level, block },
    }
}

/// The text of a block of an open image of which nothing was changed.
///
/// # Errors
///
/// In this order: the image has no such part, the part has no such block, the block has no hash path. `Memory` where
/// memory runs out, `Disk` where the disk fails.
pub fn show<D: Disk>(
    alloc: Global,
    container: &mut Container,
    disk: &mut D,
    part: u64,
    block: u64,
) -> Result<Vec<u8>, Miss>
    requires whole { IsWholeContainer container.old }
    requires disk { IsDiskOf (D.state disk.old) container.old.image }
    ensures shown { (sign : Signing) (image : List ℕ) → IsTrue (tells (D.state disk.old)) → Holds sign image (D.state disk.old) container.old
        → IfOk result (λ text. peek_reply image container.old.header part block ≡ done text.items) }
    ensures miss { (sign : Signing) (image : List ℕ) → IsTrue (tells (D.state disk.old)) → Holds sign image (D.state disk.old) container.old
        → IfErr result (IsMissBy (peek_reply image container.old.header part block)) }
    ensures quiet { IsClean container.old.image → IsQuiet (D.state disk.old) (D.state disk.new) }
    ensures steady { IsSteady (D.state disk.old) (D.state disk.new) }
    ensures cause { IfErr result (λ miss. miss ≡ Miss.Disk → Rose (D.state disk.old).counts.disk (D.state disk.new).counts.disk) }
{
    let place = find(container, part, block)?;
    let Ok(mut bytes) = vec![in alloc; 0; place.len] else {
        return Err(Miss::Memory);
    };
    if let Err(bad) = fill(container, disk, place.at, &mut bytes) {
        return Err(miss_of(bad));
    }
    match block_text(alloc, part, block, &bytes) {
        Ok(text) => Ok(text),
        Err(_) => Err(Miss::Memory),
    }
}
