//! Made filesystems, mounted as they are and with a word or a block of theirs changed.

ghost use Rattle.std.specs.Prelude.{◌≡◌, ◌<◌, ◌≤◌, IsTrue, IfSome};

use crate::fault::MountFault;
use crate::mounting::mount;
use chain_nodes::FLAG;
use save_bytes::{MemSpace, Space, set_u32};
use save_samples::{Hole, HoleSpace, Sample, sample};
use std::alloc::{AllocError, Global};
use std::test::Fail;
use tree_model::{Room, TreeKind};

/// What can be added, and how many data blocks are lost; or why there is no mount.
type Answer = Result<(Room, u32), MountFault>;

/// Where level four lies in a sample, and where it ends.
const CONTENTS: (usize, usize) = (24_576, 59_392);

/// The room of a made filesystem.
const MADE: Room = Room {
    blocks: 64,
    dirs: 8,
    files: 8,
};

fn answer<S: Space>(alloc: Global, store: &mut S, kind: TreeKind, split: Option<u64>) -> Answer
    requires sound { IsTrue (S.state store.old).shape.sound }
    requires first { (S.state store.old).shape.first ≡ 0 }
    requires small { (S.state store.old).shape.size ≤ 67108864 }
    requires inside { IfSome split (λ n. n ≤ (S.state store.old).shape.size) }
{
    match mount(alloc, store, kind, split) {
        Ok(mounted) => Ok((mounted.room, mounted.lost)),
        Err(fault) => Err(fault),
    }
}

/// A made filesystem in one part, with these words at these places of level four.
fn written(
    alloc: Global,
    which: Sample,
    kind: TreeKind,
    words: &[(usize, u32)],
) -> Result<Answer, AllocError> {
    let mut image = sample(alloc, which)?;
    let bytes = &mut image[CONTENTS.0..CONTENTS.1];
    for (at, word) in words {
        if *at < 30_000 {
            set_u32(bytes, *at, *word);
        }
    }
    let mut space = MemSpace::new(bytes, 512);
    Ok(answer(alloc, &mut space, kind, None))
}

/// The same with one word.
fn changed(alloc: Global, at: usize, word: u32) -> Result<Answer, AllocError> {
    written(alloc, Sample::Single, TreeKind::Save, &[(at, word)])
}

#[test]
fn made_filesystems_are_mounted(rt: HostRuntime) -> Result<(), Fail> {
    let alloc = rt.alloc();
    let single = written(alloc, Sample::Single, TreeKind::Save, &[])?;
    assert_eq!(rt; single, Ok((MADE, 0)));
    let vsxe = written(alloc, Sample::Vsxe, TreeKind::Vsxe, &[])?;
    assert_eq!(rt; vsxe, Ok((MADE, 0)));
    // The flag of the first free entry is not looked at, and the root may stand in no bucket.
    for (at, word) in [(232, FLAG), (136, 0)] {
        let same = changed(alloc, at, word)?;
        assert_eq!(rt; same, Ok((MADE, 0)));
    }
    // The free node ends at entry 60 in place of entry 66.
    let words = [(244, 60), (688, FLAG + 3), (692, 60)];
    let shorter = written(alloc, Sample::Single, TreeKind::Save, &words)?;
    let room = Room {
        blocks: 58,
        dirs: 8,
        files: 8,
    };
    assert_eq!(rt; shorter, Ok((room, 6)));
    Ok(())
}

#[test]
fn a_filesystem_in_two_parts_is_mounted(rt: HostRuntime) -> Result<(), Fail> {
    let image = sample(rt.alloc(), Sample::Dual)?;
    let mut bytes = vec![in rt.alloc(); 0; 34_328]?;
    bytes[..1560].copy_from_slice(&image[24_576..26_136]);
    let mut space = MemSpace::new(&mut bytes, 512);
    let dual = answer(rt.alloc(), &mut space, TreeKind::Save, Some(1560));
    assert_eq!(rt; dual, Ok((MADE, 0)));
    Ok(())
}

#[test]
fn other_beginnings_are_not_mounted(rt: HostRuntime) -> Result<(), Fail> {
    let save = written(rt.alloc(), Sample::Single, TreeKind::Vsxe, &[])?;
    assert_eq!(rt; save, Err(MountFault::NotSave));
    let vsxe = written(rt.alloc(), Sample::Vsxe, TreeKind::Save, &[])?;
    assert_eq!(rt; vsxe, Err(MountFault::NotSave));
    let version = changed(rt.alloc(), 4, 0x30000)?;
    assert_eq!(rt; version, Err(MountFault::NotSave));
    Ok(())
}

#[test]
fn the_first_failing_condition_is_named(rt: HostRuntime) -> Result<(), Fail> {
    for (at, word, condition) in [
        // The information's place, the size of a block, how many buckets and blocks, and where blocks begin.
        (0x08, 0x1F, 1),
        (0x24, 511, 2),
        (0x30, 0, 3),
        (0x50, 0, 4),
        (0x58, 2000, 5),
        // The most directories, their room, and how many there were; buckets before the information's end.
        (1028, 1, 6),
        (1028, 13, 7),
        (1024, 1, 8),
        (0x28, 135, 9),
    ] {
        let found = changed(rt.alloc(), at, word)?;
        assert_eq!(rt; found, Err(MountFault::Layout { condition }));
    }
    Ok(())
}

#[test]
fn a_broken_rule_is_named(rt: HostRuntime) -> Result<(), Fail> {
    for (at, word, table, entry) in [
        // The chain of the directories' table: its first word, and its table with more blocks than it has.
        (216, 0, 1, 1),
        (0x6C, 2, 1, 1),
        // The chain of the other table is the same.
        (0x78, 0, 1, 1),
        // The free list: its beginning, and the first, second and last entry of its node.
        (212, 70, 1, 0),
        (232, 1, 1, 3),
        (244, 2, 1, 4),
        (736, FLAG + 4, 1, 66),
        // A freed directory that never was used.
        (1060, 5, 2, 0),
        // The root among its own directories, and a file of its that there is not.
        (1088, 1, 2, 1),
        (1092, 1, 2, 1),
        // The root in a bucket of others, and a file that there is not.
        (140, 1, 4, 1),
        (172, 1, 5, 0),
    ] {
        let found = changed(rt.alloc(), at, word)?;
        assert_eq!(rt; found, Err(MountFault::Broken { table, entry }));
    }
    Ok(())
}

/// One hole among the blocks of 512 bytes of a made filesystem.
fn hole_at(block: usize, hole: Hole) -> [Hole; 68]
    requires { block < 68 }
{
    let mut holes = [Hole::Filled; 68];
    holes[block] = hole;
    holes
}

/// How such a filesystem is mounted.
fn with_hole(alloc: Global, block: usize, hole: Hole) -> Result<Answer, AllocError>
    requires { block < 68 }
{
    let mut image = sample(alloc, Sample::Single)?;
    let bytes = &mut image[CONTENTS.0..CONTENTS.1];
    let mut holes = hole_at(block, hole);
    let mut space = HoleSpace::new(bytes, 512, &mut holes);
    Ok(answer(alloc, &mut space, TreeKind::Save, None))
}

#[test]
fn needed_bytes_alone_are_read(rt: HostRuntime) -> Result<(), Fail> {
    let alloc = rt.alloc();
    let damaged = |level, block| Err(MountFault::Damaged {
        part: 0,
        level,
        block,
    });
    assert_eq!(rt; with_hole(alloc, 0, Hole::Broken(4))?, damaged(4, 0));
    assert_eq!(rt; with_hole(alloc, 1, Hole::Broken(1))?, damaged(1, 1));
    assert_eq!(rt; with_hole(alloc, 2, Hole::NeverWritten(3))?, damaged(3, 2));
    assert_eq!(rt; with_hole(alloc, 3, Hole::Broken(4))?, damaged(4, 3));
    assert_eq!(rt; with_hole(alloc, 4, Hole::Broken(4))?, Ok((MADE, 0)));
    Ok(())
}
