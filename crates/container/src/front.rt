//! The first bytes of an image, before it is opened.

ghost use Rattle.std.specs.Prelude.{◌≡◌, ◌≢◌, IsTrue, IfOk, IfErr, OnOk, Some, None};
ghost use Rattle.save_disk.specs.State.{IsQuiet, IsSteady, Rose};
ghost use Rattle.save_disk.specs.Tells.{tells, image_told};
ghost use Rattle.container_header.specs.Conditions.{reading};
ghost use Rattle.container_header.specs.Sound.{IsSoundHeader};
ghost use Rattle.container.specs.Signers.{signing};
ghost use Rattle.container.specs.Openings.{IsCaused, tag_fault, fault_of};

use crate::fault::OpenFault;
use crate::reading::read_part;
use container_header::{Header, HeaderFault};
use save_disk::{Disk, Signer};

/// The bytes before the first table or partition.
const FRONT: u64 = 512;

// Compares bytes 0 to 15 with the signer's tag of the header, where the signer demands it.
fn check_tag<G: Signer>(front: &[u8; 512], signer: &G) -> Result<(), OpenFault>
    ensures none { OnOk result (tag_fault (signing G.tag_of G.is_demanding signer.now) front.now ≡ None) }
    ensures fault { IfErr result (λ fault. tag_fault (signing G.tag_of G.is_demanding signer.now) front.now ≡ Some fault) }
    ensures not_disk { IfErr result (λ fault. fault ≢ OpenFault.Disk) }
{
    if !signer.demands() {
        return Ok(());
    }
    let mut header = [0; 256];
    header.copy_from_slice(&front[256..]);
    let want = signer.tag(&header);
    let mut found = [0; 16];
    found.copy_from_slice(&front[..16]);
    if found == want {
        Ok(())
    } else {
        Err(OpenFault::Tag { want, found })
    }
}

/// The header of the image under the signer's tag, and the image's length in bytes.
pub(crate) fn read_header<D: Disk, G: Signer>(
    disk: &mut D,
    signer: &G,
) -> Result<(Header, u64), OpenFault>
    ensures header { IfOk result (λ found. IsTrue (tells (D.state disk.old)) → reading (image_told (D.state disk.old)) ≡ Ok found.0) }
    ensures tag { OnOk result (IsTrue (tells (D.state disk.old))
        → tag_fault (signing G.tag_of G.is_demanding signer.now) (image_told (D.state disk.old)) ≡ None) }
    ensures sound { IfOk result (λ found. IsSoundHeader found.0 found.1) }
    ensures len { IfOk result (λ found. found.1 ≡ (D.state disk.old).size) }
    ensures caused { IfErr result (λ fault. IsTrue (tells (D.state disk.old))
        → IsCaused (fault_of (signing G.tag_of G.is_demanding signer.now) (image_told (D.state disk.old))) fault) }
    ensures disk { IfErr result (λ fault. fault ≡ OpenFault.Disk → Rose (D.state disk.old).counts.disk (D.state disk.new).counts.disk) }
    ensures quiet { IsQuiet (D.state disk.old) (D.state disk.new) }
    ensures steady { IsSteady (D.state disk.old) (D.state disk.new) }
{
    let Ok(len) = disk.len() else {
        return Err(OpenFault::Disk);
    };
    if len < FRONT {
        return Err(OpenFault::Header(HeaderFault::NotImage));
    }
    let mut front = [0; 512];
    let Ok(()) = read_part(disk, 0, &mut front) else {
        return Err(OpenFault::Disk);
    };
    let header = match Header::read(&front, len) {
        Ok(header) => header,
        Err(fault) => return Err(OpenFault::Header(fault)),
    };
    check_tag(&front, signer)?;
    Ok((header, len))
}
