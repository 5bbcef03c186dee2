//! The active table, and the parts that its descriptors describe.

ghost use Rattle.std.specs.Prelude.{◌≡◌, ◌≢◌, ◌+◌, ◌≤◌, length, IsTrue, IfOk, IfErr, IfSome, OnOk, None};
ghost use Rattle.save_disk.specs.State.{IsQuiet, IsSteady, Rose};
ghost use Rattle.save_disk.specs.Tells.{tells, image_told};
ghost use Rattle.container_header.specs.Sound.{active_at, IsDescriptorPlace};
ghost use Rattle.container.specs.Openings.{active_table, IsCaused, part_reading, second_fault, parts_fault, descriptor_of, partition_of, descriptor_fault};
ghost use Rattle.part_store.specs.Parts.{HasNoMemory};
ghost use Rattle.container.specs.Parts.{part_count, HasDescriptors, IsPartRead, AreRead};
ghost use Rattle.container.specs.Stores.{HaveNoMemory};

use crate::fault::OpenFault;
use crate::parts::Parts;
use crate::reading::read_part;
use container_header::{Extent, Header};
use difi::Difi;
use part_store::Part;
use save_disk::Disk;
use std::alloc::Global;

/// The active table.
pub(crate) fn read_table<D: Disk>(
    alloc: Global,
    disk: &mut D,
    header: &Header,
) -> Result<Vec<u8>, OpenFault>
    requires inside { active_at header.now + header.now.table_size ≤ (D.state disk.old).size }
    ensures len { IfOk result (λ table. length table.items ≡ header.now.table_size) }
    ensures table { IfOk result (λ table. IsTrue (tells (D.state disk.old)) → table.items ≡ active_table (image_told (D.state disk.old)) header.now) }
    ensures fault { IfErr result (IsCaused None) }
    ensures disk { IfErr result (λ fault. fault ≡ OpenFault.Disk → Rose (D.state disk.old).counts.disk (D.state disk.new).counts.disk) }
    ensures quiet { IsQuiet (D.state disk.old) (D.state disk.new) }
    ensures steady { IsSteady (D.state disk.old) (D.state disk.new) }
{
    let Ok(mut table) = vec![in alloc; 0; header.table_size as usize] else {
        return Err(OpenFault::Memory);
    };
    match read_part(disk, header.active_table(), &mut table) {
        Ok(()) => Ok(table),
        Err(_) => Err(OpenFault::Disk),
    }
}

// Where a part's descriptor stands in the table.
fn descriptor(header: &Header, number: u8) -> Extent
    ensures { result ≡ descriptor_of header.now number }
{
    if number == 0 {
        header.desc_a
    } else {
        header.desc_b
    }
}

// Where a part's partition stands in the image.
fn partition(header: &Header, number: u8) -> Extent
    ensures { result ≡ partition_of header.now number }
{
    if number == 0 {
        header.part_a
    } else {
        header.part_b
    }
}

// The part of a number, by its descriptor in the table.
fn open_part(alloc: Global, header: &Header, table: &[u8], number: u8) -> Result<Part, OpenFault>
    requires { IsDescriptorPlace (descriptor_of header.now number) (length table.now) }
    ensures part { IfOk result (IsPartRead table.now header.now number) }
    ensures told { IfOk result HasNoMemory }
    ensures none { OnOk result (descriptor_fault number (part_reading table.now header.now number) ≡ None) }
    ensures caused { IfErr result (IsCaused (descriptor_fault number (part_reading table.now header.now number))) }
    ensures not_disk { IfErr result (λ fault. fault ≢ OpenFault.Disk) }
{
    let place = descriptor(header, number);
    let partition = partition(header, number);
    let difi = match Difi::read(table, place.at, place.size, partition.size) {
        Ok(difi) => difi,
        Err(fault) => {
            return Err(OpenFault::Difi {
                part: number,
                fault,
            });
        }
    };
    match Part::open(alloc, number, partition.at, &difi) {
        Ok(part) => Ok(part),
        Err(_) => Err(OpenFault::Memory),
    }
}

// Part 1, where there are two partitions.
fn open_second(alloc: Global, header: &Header, table: &[u8]) -> Result<Option<Part>, OpenFault>
    requires { HasDescriptors header.now (length table.now) }
    ensures count { IfOk result (λ second. part_count second ≡ header.now.parts) }
    ensures part { IfOk result (λ second. IfSome second (IsPartRead table.now header.now 1)) }
    ensures told { IfOk result (λ second. IfSome second HasNoMemory) }
    ensures none { OnOk result (second_fault table.now header.now ≡ None) }
    ensures caused { IfErr result (IsCaused (second_fault table.now header.now)) }
    ensures not_disk { IfErr result (λ fault. fault ≢ OpenFault.Disk) }
{
    if header.parts != 2 {
        return Ok(None);
    }
    let part = open_part(alloc, header, table, 1)?;
    Ok(Some(part))
}

/// The parts of a table, one for each partition.
pub(crate) fn open_parts(alloc: Global, header: &Header, table: &[u8]) -> Result<Parts, OpenFault>
    requires { HasDescriptors header.now (length table.now) }
    ensures parts { IfOk result (AreRead table.now header.now) }
    ensures told { IfOk result HaveNoMemory }
    ensures none { OnOk result (parts_fault table.now header.now ≡ None) }
    ensures caused { IfErr result (IsCaused (parts_fault table.now header.now)) }
    ensures not_disk { IfErr result (λ fault. fault ≢ OpenFault.Disk) }
{
    let first = open_part(alloc, header, table, 0)?;
    let second = open_second(alloc, header, table)?;
    Ok(Parts { first, second })
}
