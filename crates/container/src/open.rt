//! Opening a container.

ghost use Rattle.std.specs.Prelude.{◌≡◌, ◌≢◌, ◌≤◌, IsTrue, IfOk, IfErr, OnOk, Some, None, length};
ghost use Rattle.save_disk.specs.State.{State as DiskState, IsQuiet, IsSteady, Rose};
ghost use Rattle.save_disk.specs.Tells.{tells, image_told};
ghost use Rattle.page_image.specs.Images.{IsOpened};
ghost use Rattle.container.specs.Signers.{signing};
ghost use Rattle.container.specs.Openings.{IsCaused, digest_fault, fault_of};

use crate::fault::OpenFault;
use crate::front::read_header;
use crate::parts::Parts;
use crate::table::{open_parts, read_table};
use container_header::Header;
use page_image::{ImageFault, ImageState};
use save_disk::{Disk, Signer};
use sha2::{Digest, Sha256};
use std::alloc::Global;

/// An open image: its header, what is held of its bytes, its table, and a part for each partition.
#[derive(Drop)]
pub struct Container {
    pub(crate) header: Header,
    pub(crate) image: ImageState,
    pub(crate) table: Vec<u8>,
    pub(crate) parts: Parts,
}

// Compares the table's digest with the header's.
fn check_table(table: &[u8], header: &Header) -> Result<(), OpenFault>
    ensures none { OnOk result (digest_fault table.now header.now ≡ None) }
    ensures fault { IfErr result (λ fault. digest_fault table.now header.now ≡ Some fault) }
    ensures not_disk { IfErr result (λ fault. fault ≢ OpenFault.Disk) }
{
    if Sha256::digest(table) == header.hash {
        Ok(())
    } else {
        Err(OpenFault::TableHash)
    }
}

// What is held of the image.
fn open_image<D: Disk>(alloc: Global, disk: &mut D, len: u64) -> Result<ImageState, OpenFault>
    requires size { len ≡ (D.state disk.old).size }
    requires least { 512 ≤ len }
    requires most { len ≤ 67108864 }
    ensures opened { IfOk result (IsOpened (D.state disk.new)) }
    ensures fault { IfErr result (IsCaused None) }
    ensures disk { IfErr result (λ fault. fault ≡ OpenFault.Disk → Rose (D.state disk.old).counts.disk (D.state disk.new).counts.disk) }
    ensures quiet { IsQuiet (D.state disk.old) (D.state disk.new) }
    ensures steady { IsSteady (D.state disk.old) (D.state disk.new) }
{
    match ImageState::open(alloc, disk, len) {
        Ok(image) => Ok(image),
        Err(ImageFault::Memory) => Err(OpenFault::Memory),
        Err(ImageFault::Disk) => Err(OpenFault::Disk),
    }
}

impl Container {
    ghost use Rattle.container.specs.Containers.{IsOpenOf, IsWholeContainer};
    ghost use Rattle.container.specs.Stores.{HaveNoMemory};
    ghost use Rattle.container.specs.Aborts.{AreAtOrigin};

    /// Opens the image of a disk: its header and the signer's tag, the digest of the active table, and the
    /// descriptors in that table. The inactive table is not looked at, and nothing is written.
    ///
    /// # Errors
    ///
    /// The first fault in the order of `OpenFault`'s last four: the header's, the tag's, the table's, and the
    /// descriptors', part 0's before part 1's. `Disk` where the disk fails, and `Memory` where memory runs out.
    pub fn open<D: Disk, G: Signer>(
        alloc: Global,
        disk: &mut D,
        signer: &G,
    ) -> Result<Container, OpenFault>
        ensures opened { IfOk result (λ container. IsTrue (tells (D.state disk.old))
            → IsOpenOf (signing G.tag_of G.is_demanding signer.now) (image_told (D.state disk.old)) container) }
        ensures image { IfOk result (λ container. IsOpened (D.state disk.new) container.image) }
        ensures whole { IfOk result IsWholeContainer }
        ensures told { IfOk result (λ container. HaveNoMemory container.parts) }
        // Nothing is put yet: so each part's tree came from what the disk holds.
        ensures origin { IfOk result (λ container. (disk : DiskState) → AreAtOrigin disk container) }
        ensures caused { IfErr result (λ fault. IsTrue (tells (D.state disk.old))
            → IsCaused (fault_of (signing G.tag_of G.is_demanding signer.now) (image_told (D.state disk.old))) fault) }
        ensures disk { IfErr result (λ fault. fault ≡ OpenFault.Disk → Rose (D.state disk.old).counts.disk (D.state disk.new).counts.disk) }
        ensures quiet { IsQuiet (D.state disk.old) (D.state disk.new) }
        ensures steady { IsSteady (D.state disk.old) (D.state disk.new) }
    {
        let (header, len) = read_header(disk, signer)?;
        let table = read_table(alloc, disk, &header)?;
        check_table(&table, &header)?;
        let parts = open_parts(alloc, &header, &table)?;
        let image = open_image(alloc, disk, len)?;
        Ok(Container {
            header,
            image,
            table,
            parts,
        })
    }
}
