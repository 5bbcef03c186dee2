//! Which images open: what opening comes to tells whether the definition holds.

ghost use Rattle.std.specs.Prelude.{◌↔◌, IfOk, IsTrue, None};
ghost use Rattle.container.specs.Signers.{signing};
ghost use Rattle.container.specs.Openings.{IsCaused};
ghost use Rattle.container.specs.Opens.{Opens};

use super::*;
use save_disk::{MemDesk, PlainSigner, Signer, ZeroSigner};
use save_samples::{Sample, sample};
use sha2::{Digest, Sha256};
use std::alloc::Global;
use std::test::Fail;

/// Whether the fault is one of the image: want of memory and a fault of the disk come where none is found, too.
fn is_of_image(fault: &OpenFault) -> bool
    ensures { IsTrue result → IsCaused None fault.now → ⊥ }
{
    match fault {
        OpenFault::Memory | OpenFault::Disk => false,
        OpenFault::Header(_)
        | OpenFault::Tag { .. }
        | OpenFault::TableHash
        | OpenFault::Difi { .. } => true,
    }
}

/// Whether an image opens under a signer.
fn opens<G: Signer>(alloc: Global, image: &[u8], signer: &G) -> Result<bool, OpenFault>
    ensures { IfOk result (λ is_open. IsTrue is_open
        ↔ Opens (signing G.tag_of G.is_demanding signer.now) image.now) }
{
    let Ok(mut desk) = MemDesk::new(alloc, image, &[]) else {
        return Err(OpenFault::Memory);
    };
    match Container::open(alloc, &mut desk, signer) {
        Ok(_) => Ok(true),
        Err(fault) => {
            if is_of_image(&fault) {
                Ok(false)
            } else {
                Err(fault)
            }
        }
    }
}

// The active table of this image is the one of 604 bytes at 1,536, and its contents begin at 4,096. Of the places, the
// first is in the kind's name, the second the active byte, the third and fourth the ends of the active table, the fifth
// in the inactive one, the sixth in the contents, and the seventh where a signer's tag stands.
#[test]
fn one_byte_decides_whether_an_image_opens(rt: HostRuntime) -> Result<(), Fail> {
    let alloc = rt.alloc();
    let rows = [
        (0x100, false),
        (0x168, false),
        (1536, false),
        (2139, false),
        (700, true),
        (50_000, true),
        (15, true),
    ];
    for (at, is_open) in rows {
        let mut image = sample(alloc, Sample::Dual)?;
        assert!(rt; opens(alloc, &image, &ZeroSigner)?);
        assert!(rt; at < image.len());
        image[at] ^= 2;
        assert_eq!(rt; opens(alloc, &image, &ZeroSigner)?, is_open, "at {at}");
    }
    Ok(())
}

// The tag is the front of the header's digest.
#[test]
fn tag_decides_where_a_signer_demands_it(rt: HostRuntime) -> Result<(), Fail> {
    let alloc = rt.alloc();
    let mut image = sample(alloc, Sample::Single)?;
    assert!(rt; !opens(alloc, &image, &PlainSigner)?);
    let digest = Sha256::digest(&image[256..512]);
    let mut tag = [0; 16];
    tag.copy_from_slice(&digest[..16]);
    image[..16].copy_from_slice(&tag);
    assert!(rt; opens(alloc, &image, &PlainSigner)?);
    image[15] ^= 1;
    assert!(rt; !opens(alloc, &image, &PlainSigner)?);
    assert!(rt; opens(alloc, &image, &ZeroSigner)?);
    Ok(())
}
