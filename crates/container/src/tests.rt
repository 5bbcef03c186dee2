//! Opening sample images, whole and spoilt, over desks in memory.

ghost use Rattle.std.specs.Prelude.{◌≡◌, ◌+◌, ◌≤◌, length};

use super::*;
use container_header::{Extent, HeaderFault, Kind};
use difi::{DifiFault, LevelPlace};
use save_disk::{Call, MemDesk, PlainSigner, Signer, ZeroSigner};
use save_samples::{Sample, put_digest, sample};
use sha2::{Digest, Sha256};
use std::alloc::{AllocError, Global};
use std::test::Fail;

/// The fault of an image, if it has one.
fn fault_of<G: Signer>(
    alloc: Global,
    image: &[u8],
    signer: &G,
) -> Result<Option<OpenFault>, AllocError> {
    let mut desk = MemDesk::new(alloc, image, &[])?;
    Ok(Container::open(alloc, &mut desk, signer).err())
}

/// A level of the hash tree.
fn level(at: u64, size: u64, log: u32) -> LevelPlace {
    LevelPlace { at, size, log }
}

#[test]
fn one_partition_opens_with_its_numbers(rt: HostRuntime) -> Result<(), Fail> {
    let alloc = rt.alloc();
    for (which, kind) in [(Sample::Single, Kind::Disa), (Sample::Vsxe, Kind::Diff)] {
        let image = sample(alloc, which)?;
        let mut desk = MemDesk::new(alloc, &image, &[])?;
        let container = Container::open(alloc, &mut desk, &ZeroSigner)?;
        let header = container.header();
        assert_eq!(rt; (header.kind, header.parts, header.active), (kind, 1, 0));
        assert_eq!(rt;
            (header.primary, header.secondary, header.table_size),
            (1024, 512, 300)
        );
        assert_eq!(rt;
            header.part_a,
            Extent {
                at: 4096,
                size: 106_496
            }
        );
        assert_eq!(rt; container.parts(), 1);
        assert!(rt; !container.loose());
        assert_eq!(rt; container.level(0, 1), level(0, 32, 9));
        assert_eq!(rt; container.level(0, 2), level(4096, 32, 9));
        assert_eq!(rt; container.level(0, 3), level(8192, 288, 12));
        assert_eq!(rt; container.level(0, 4), level(12_288, 34_816, 12));
        assert_eq!(rt; container.split(), None);
    }
    Ok(())
}

#[test]
fn two_partitions_open_with_their_numbers(rt: HostRuntime) -> Result<(), Fail> {
    let alloc = rt.alloc();
    let image = sample(alloc, Sample::Dual)?;
    let mut desk = MemDesk::wide(alloc, &image, &[])?;
    let container = Container::open(alloc, &mut desk, &ZeroSigner)?;
    assert_eq!(rt; container.header().table_size, 604);
    assert!(rt; container.parts() == 2);
    assert!(rt; !container.loose());
    assert_eq!(rt; container.level(0, 1), level(0, 32, 9));
    assert_eq!(rt; container.level(0, 3), level(8192, 32, 12));
    assert_eq!(rt; container.level(0, 4), level(12_288, 1560, 12));
    assert_eq!(rt; container.level(1, 2), level(4096, 32, 9));
    assert_eq!(rt; container.level(1, 3), level(8192, 256, 12));
    assert_eq!(rt; container.level(1, 4), level(0, 32_768, 12));
    assert_eq!(rt; container.split(), Some(1560));
    Ok(())
}

#[test]
fn loose_where_part_0_is_external(rt: HostRuntime) -> Result<(), Fail> {
    let alloc = rt.alloc();
    let image = sample(alloc, Sample::Loose)?;
    let mut desk = MemDesk::new(alloc, &image, &[])?;
    let container = Container::open(alloc, &mut desk, &ZeroSigner)?;
    assert!(rt; container.loose());
    assert_eq!(rt; container.split(), Some(32_768));
    assert_eq!(rt; container.level(0, 4), level(0, 32_768, 12));
    Ok(())
}

// The inactive table has the header's digest, and the active one has not.
#[test]
fn active_table_alone_decides(rt: HostRuntime) -> Result<(), Fail> {
    let alloc = rt.alloc();
    let mut image = sample(alloc, Sample::Single)?;
    image.copy_within(1024..1324, 512);
    assert_eq!(rt; fault_of(alloc, &image, &ZeroSigner)?, None);
    image[1024 + 299] ^= 1;
    assert_eq!(rt;
        fault_of(alloc, &image, &ZeroSigner)?,
        Some(OpenFault::TableHash)
    );
    image[0x168] = 1;
    assert_eq!(rt; fault_of(alloc, &image, &ZeroSigner)?, None);
    image[512] ^= 0x80;
    assert_eq!(rt;
        fault_of(alloc, &image, &ZeroSigner)?,
        Some(OpenFault::TableHash)
    );
    Ok(())
}

#[test]
fn tag_is_demanded_over_the_header(rt: HostRuntime) -> Result<(), Fail> {
    let alloc = rt.alloc();
    let mut image = sample(alloc, Sample::Single)?;
    let digest = Sha256::digest(&image[256..512]);
    let mut want = [0; 16];
    want.copy_from_slice(&digest[..16]);
    let fault = OpenFault::Tag {
        want,
        found: [0; 16],
    };
    assert_eq!(rt; fault_of(alloc, &image, &PlainSigner)?, Some(fault));
    assert_eq!(rt; fault_of(alloc, &image, &ZeroSigner)?, None);
    image[..16].copy_from_slice(&want);
    assert_eq!(rt; fault_of(alloc, &image, &PlainSigner)?, None);
    image[16] ^= 1;
    assert_eq!(rt; fault_of(alloc, &image, &PlainSigner)?, None);
    let mut found = want;
    found[15] ^= 1;
    image[15] ^= 1;
    assert_eq!(rt;
        fault_of(alloc, &image, &PlainSigner)?,
        Some(OpenFault::Tag { want, found })
    );
    Ok(())
}

// From the last fault to the first: each is named in place of those behind it.
#[test]
fn first_fault_is_named(rt: HostRuntime) -> Result<(), Fail> {
    let alloc = rt.alloc();
    let mut image = sample(alloc, Sample::Dual)?;
    image[1840] = b'd';
    put_digest(&mut image, 1536, 604, 0x16C);
    let magic = DifiFault::Magic { which: 1 };
    let second = OpenFault::Difi {
        part: 1,
        fault: magic,
    };
    assert_eq!(rt; fault_of(alloc, &image, &ZeroSigner)?, Some(second));
    image[1536] = b'd';
    put_digest(&mut image, 1536, 604, 0x16C);
    let first = OpenFault::Difi {
        part: 0,
        fault: magic,
    };
    assert_eq!(rt; fault_of(alloc, &image, &ZeroSigner)?, Some(first));
    image[2139] ^= 1;
    assert_eq!(rt;
        fault_of(alloc, &image, &ZeroSigner)?,
        Some(OpenFault::TableHash)
    );
    let tag = fault_of(alloc, &image, &PlainSigner)?;
    assert!(rt; matches!(tag, Some(OpenFault::Tag { .. })));
    image[0x168] = 2;
    let layout = HeaderFault::Layout { condition: 3 };
    assert_eq!(rt;
        fault_of(alloc, &image, &PlainSigner)?,
        Some(OpenFault::Header(layout))
    );
    image[0x100] = b'd';
    let none = Some(OpenFault::Header(HeaderFault::NotImage));
    assert_eq!(rt; fault_of(alloc, &image, &PlainSigner)?, none);
    Ok(())
}

#[test]
fn short_image_is_none(rt: HostRuntime) -> Result<(), Fail> {
    let alloc = rt.alloc();
    let mut image = [0; 511];
    image[0x100..0x104].copy_from_slice(b"DISA");
    let mut desk = MemDesk::new(alloc, &image, &[])?;
    let none = OpenFault::Header(HeaderFault::NotImage);
    assert_eq!(rt;
        Container::open(alloc, &mut desk, &ZeroSigner).err(),
        Some(none)
    );
    assert_eq!(rt; desk.call(0), Some(Call::Len));
    assert_eq!(rt; desk.call(1), None);
    Ok(())
}

// In sectors of 4,096 bytes: the front, the table, and the image's first bytes.
#[test]
fn failed_call_is_the_last(rt: HostRuntime) -> Result<(), Fail> {
    let alloc = rt.alloc();
    let image = sample(alloc, Sample::Single)?;
    let mut desk = MemDesk::wide(alloc, &image, &[])?;
    desk.fail(Call::Len, 1);
    assert_eq!(rt;
        Container::open(alloc, &mut desk, &ZeroSigner).err(),
        Some(OpenFault::Disk)
    );
    assert_eq!(rt; desk.call(1), None);
    for nth in 1..4 {
        let mut desk = MemDesk::wide(alloc, &image, &[])?;
        desk.fail(Call::Read, nth);
        let fault = Container::open(alloc, &mut desk, &ZeroSigner).err();
        assert_eq!(rt; fault, Some(OpenFault::Disk), "at {nth}");
        assert_eq!(rt; desk.call(nth as usize), Some(Call::Read));
        assert_eq!(rt; desk.call(nth as usize + 1), None);
    }
    Ok(())
}

// The table of 604 bytes at 1,536 lies in two sectors of 512 bytes. Of the image one is read.
#[test]
fn nothing_is_written(rt: HostRuntime) -> Result<(), Fail> {
    let alloc = rt.alloc();
    let image = sample(alloc, Sample::Dual)?;
    let mut desk = MemDesk::new(alloc, &image, &[])?;
    assert!(rt; Container::open(alloc, &mut desk, &ZeroSigner).is_ok());
    assert_eq!(rt; desk.call(0), Some(Call::Len));
    for i in 1..5 {
        assert_eq!(rt; desk.call(i), Some(Call::Read), "at {i}");
    }
    assert_eq!(rt; desk.call(5), None);
    assert_eq!(rt; desk.image(), image.as_slice());
    Ok(())
}
