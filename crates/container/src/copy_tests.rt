//! Changes of a part's double-copy tree, over the image on a disk: which sectors are written, and what a fault leaves.

ghost use Rattle.std.specs.Prelude.{◌≡◌, ◌+◌, ◌≤◌, length, IsTrue};
ghost use Rattle.difi.specs.Contents.{view_size};
ghost use Rattle.dpfs_tree.specs.View.{CanViewContents};
ghost use Rattle.page_image.specs.Held.{shown};

use difi::Difi;
use dpfs_tree::{DpfsState, DpfsView};
use page_image::{Image, ImageState};
use save_bytes::{Bad, Space};
use save_disk::{Call, Disk, Failed, MemDesk};
use save_samples::{Sample, sample};
use std::alloc::{AllocError, Global};
use std::process::Abort;
use std::test::Fail;

/// Part 0 of the image begins here.
const PART_AT: u64 = 4096;

/// A new image with one part, on a disk whose sectors are of 512 or of 4,096 bytes.
fn desk_of(alloc: Global, is_wide: bool) -> Result<MemDesk, AllocError> {
    let image = sample(alloc, Sample::Single)?;
    if is_wide {
        MemDesk::wide(alloc, &image, &[])
    } else {
        MemDesk::new(alloc, &image, &[])
    }
}

/// Puts bytes into a view of the part, and seals it: the selector that chooses them then.
fn put_and_seal<S: Space>(
    base: &mut S,
    difi: &Difi,
    state: &mut DpfsState,
    at: u64,
    new: &[u8],
) -> Result<u8, Bad>
    requires view { CanViewContents (S.state base.old).shape PART_AT difi.now state.old }
    requires inside { at + length new.now ≤ view_size difi.now }
    ensures { (S.state base.new).shape ≡ (S.state base.old).shape }
{
    let mut view = DpfsView::new(base, PART_AT, difi, state);
    match view.put(at, new) {
        Ok(()) => view.seal(),
        Err(bad) => Err(bad),
    }
}

/// Writes out what was put, and keeps it.
fn keep<D: Disk>(base: &mut Image<'_, D>) -> Result<(), Failed>
    requires { IsTrue (shown D.state base.old).shape.sound }
{
    match base.flush() {
        Ok(()) => base.sync(),
        Err(failed) => Err(failed),
    }
}

/// Changes the part's bytes from a place on, and keeps them: the selector that chooses them then.
fn change(
    rt: &impl Abort,
    alloc: Global,
    desk: &mut MemDesk,
    at: u64,
    new: &[u8],
) -> Result<Result<u8, Bad>, Fail> {
    let table = sample(alloc, Sample::Single)?;
    let difi = Difi::read(&table, 1024, 300, 106_496)?;
    assert!(rt; difi.dpfs3.size == 49_152 && at < 40_000 && new.len() < 9000);
    let Ok(len) = desk.len() else {
        return Ok(Err(Bad::Disk));
    };
    assert_eq!(rt; len, 110_592);
    let Ok(mut image) = ImageState::open(alloc, desk, 110_592) else {
        return Ok(Err(Bad::Disk));
    };
    let mut state = DpfsState::new(alloc, &difi)?;
    let mut base = image.view(desk);
    let selector = put_and_seal(&mut base, &difi, &mut state, at, new);
    match keep(&mut base) {
        Ok(()) => Ok(selector),
        Err(Failed) => Ok(Err(Bad::Disk)),
    }
}

/// How many calls of a desk are of a kind.
fn count(desk: &MemDesk, kind: Call) -> usize {
    let mut n: usize = 0;
    for i in 0..500usize {
        if desk.call(i) == Some(kind) {
            n = n.saturating_add(1);
        }
    }
    n
}

/// Whether the copies that the new image chooses are those of another image: of level 1, 2 and 3.
fn has_chosen_copies(image: &[u8], other: &[u8]) -> bool {
    image.get(4096..4100) == other.get(4096..4100)
        && image.get(8192..8320) == other.get(8192..8320)
        && image.get(12_288..61_440) == other.get(12_288..61_440)
}

// Block 0 of level 3 has 4,096 bytes; a word of level 2 and one of level 1 say where it is.
#[test]
fn a_change_writes_the_sectors_of_other_copies(rt: HostRuntime) -> Result<(), Fail> {
    let old = sample(rt.alloc(), Sample::Single)?;
    for (is_wide, writes) in [(false, 10usize), (true, 3)] {
        let mut desk = desk_of(rt.alloc(), is_wide)?;
        assert_eq!(rt; change(&rt, rt.alloc(), &mut desk, 100, &[7])?, Ok(1));
        assert_eq!(rt; count(&desk, Call::Write), writes);
        assert_eq!(rt; count(&desk, Call::Sync), 1);
        let new = desk.image();
        assert!(rt; has_chosen_copies(new, &old));
        assert_eq!(rt; new.get(4100..4104), Some(&[0u8, 0, 0, 0x80][..]));
        assert_eq!(rt;
            new.get(8320..8328),
            Some(&[0u8, 0, 0, 0x80, 0, 0, 0, 0][..])
        );
        assert_eq!(rt; new.get(61_440..61_540), old.get(12_288..12_388));
        assert_eq!(rt; new.get(61_540), Some(&7));
        assert_eq!(rt; new.get(61_541..65_536), old.get(12_389..16_384));
        // All else is as before, but for these.
        assert_eq!(rt; new.get(..4100), old.get(..4100));
        assert_eq!(rt; new.get(4104..8320), old.get(4104..8320));
        assert_eq!(rt; new.get(8324..61_440), old.get(8324..61_440));
        assert_eq!(rt; new.get(65_536..), old.get(65_536..));
    }
    Ok(())
}

#[test]
fn a_fault_leaves_the_chosen_copies(rt: HostRuntime) -> Result<(), Fail> {
    let old = sample(rt.alloc(), Sample::Single)?;
    for is_wide in [false, true] {
        for (call, last) in [
            (Call::Len, 1u32),
            (Call::Read, 27),
            (Call::Write, 3),
            (Call::Sync, 1),
        ] {
            for nth in 1..last + 1 {
                let mut desk = desk_of(rt.alloc(), is_wide)?;
                desk.fail(call, nth);
                // Bytes 4,000 to 4,199 lie in the first two blocks of level 3.
                let result = change(&rt, rt.alloc(), &mut desk, 4000, &[7; 200])?;
                if count(&desk, call) >= nth as usize {
                    assert_eq!(rt; result, Err(Bad::Disk));
                }
                assert!(rt; has_chosen_copies(desk.image(), &old));
            }
        }
    }
    Ok(())
}
