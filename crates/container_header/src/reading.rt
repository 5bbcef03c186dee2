//! Reading a header from the first 512 bytes of an image.

ghost use Rattle.std.specs.Prelude.{◌≡◌};
ghost use Rattle.container_header.specs.Conditions.{version_of, fields_of, layout_faults, first_failing, checked, reading_of};

use crate::fault::HeaderFault;
use crate::header::{Header, Kind};
use crate::layout::FRONT;
use crate::sector::{diff, disa, kind_at, parts_at, version_at};

/// The bytes of the longest image: 64 MiB.
const MAX_LENGTH: u64 = 67_108_864;

/// The one version of a kind that is known.
fn known_version(kind: Kind) -> u32
    ensures { result ≡ version_of kind }
{
    match kind {
        Kind::Disa => 0x40000,
        Kind::Diff => 0x30000,
    }
}

/// The header, where no condition of the layout fails for an image of `len` bytes.
fn read_fields(sector: &[u8; 512], len: u64, kind: Kind) -> Result<Header, HeaderFault>
    ensures { result ≡ checked (fields_of kind sector.now)
        (first_failing 1 (layout_faults (fields_of kind sector.now) len)) }
{
    if len > MAX_LENGTH {
        return Err(HeaderFault::Layout { condition: 1 });
    }
    let header = match kind {
        Kind::Diff => diff(sector),
        Kind::Disa => match parts_at(sector) {
            1 => disa(sector, 1),
            2 => disa(sector, 2),
            _ => return Err(HeaderFault::Layout { condition: 2 }),
        },
    };
    match header.layout_fault(len) {
        Some(condition) => Err(HeaderFault::Layout { condition }),
        None => Ok(header),
    }
}

/// The header that the sector gives an image of `len` bytes, or the first fault.
#[tactic(auto, unfolding(crate::specs::Conditions::reading_of))]
pub(crate) fn read_sector(sector: &[u8; 512], len: u64) -> Result<Header, HeaderFault>
    ensures { result ≡ reading_of sector.now len }
{
    if len < FRONT {
        return Err(HeaderFault::NotImage);
    }
    let Some(kind) = kind_at(sector) else {
        return Err(HeaderFault::NotImage);
    };
    if version_at(sector) != known_version(kind) {
        return Err(HeaderFault::Version);
    }
    read_fields(sector, len, kind)
}
