//! The header's fields, read from the image's first 512 bytes.

ghost use Rattle.std.specs.Prelude.{◌≡◌, ℕ, ◌≤◌, List, length, IfOk, Ok, None};
ghost use Rattle.container_header.specs.Raw.{other_table};

use crate::fault::HeaderFault;
use crate::reading::read_sector;
use save_bytes::Extent;

/// The two kinds of image.
#[derive(Clone, Copy, Debug, PartialEq, Eq)]
pub enum Kind {
    Disa,
    Diff,
}

impl Kind {
    ghost use Rattle.container_header.specs.Raw.{active_place, hash_place};

    /// Where the active byte stands in the header.
    fn active_place(self) -> usize
        ensures { result ≡ active_place self }
    {
        match self {
            Kind::Disa => 0x68,
            Kind::Diff => 0x30,
        }
    }

    /// Where the hash of the active table begins in the header.
    fn hash_place(self) -> usize
        ensures { result ≡ hash_place self }
    {
        match self {
            Kind::Disa => 0x6C,
            Kind::Diff => 0x34,
        }
    }
}

/// The active byte that names the other table.
fn other_table(active: u8) -> u8
    ensures { result ≡ other_table active }
{
    if active == 0 { 1 } else { 0 }
}

/// The fields of a header. One that the kind or the number of partitions does not have is 0.
#[derive(Clone, Copy, Debug, PartialEq, Eq)]
pub struct Header {
    pub kind: Kind,
    /// How many partitions there are: 1 or 2.
    pub parts: u8,
    /// Where the secondary table stands in the image.
    pub secondary: u64,
    /// Where the primary table stands in the image.
    pub primary: u64,
    /// The bytes of one table.
    pub table_size: u64,
    /// Descriptor A in the table. In a DIFF it is the whole table.
    pub desc_a: Extent,
    pub desc_b: Extent,
    /// Partition A in the image.
    pub part_a: Extent,
    pub part_b: Extent,
    /// Which table is active: 0 the primary one, 1 the secondary one.
    pub active: u8,
    /// The SHA-256 of the active table.
    pub hash: [u8; 32],
    /// A DIFF's identifier.
    pub unique: u64,
    /// The header's 256 bytes as they were read: unused ones are kept here.
    pub raw: [u8; 256],
}

impl Header {
    ghost use Rattle.container_header.specs.Fields.{header_bytes};
    ghost use Rattle.container_header.specs.Conditions.{first_bytes, reading, reading_of, layout_faults, first_failing};
    ghost use Rattle.container_header.specs.Sound.{active_at, inactive_at, IsSoundHeader};
    ghost use Rattle.container_header.specs.Raw.{IsOfRaw, flipped};

    /// The header of an image of `len` bytes, from the image's first 512 bytes (zeros after its
    /// end). Offsets and sizes in it are in bytes.
    ///
    /// The fault is the first in the order of `HeaderFault`: no image of a known kind, an unknown
    /// version, and then the conditions of the layout by their numbers.
    pub fn read(sector: &[u8; 512], len: u64) -> Result<Header, HeaderFault>
        // By these bytes and the length, whether or not an image of that length begins with them.
        ensures of_sector { result ≡ reading_of sector.now len }
        ensures exact { (image : List ℕ) → length image ≡ len → sector.now ≡ first_bytes image → result ≡ reading image }
        ensures of_raw { IfOk result IsOfRaw }
        ensures sound { IfOk result (λ header. IsSoundHeader header len) }
    {
        read_sector(sector, len)
    }

    /// Where the active table stands, in bytes from the image's front.
    pub fn active_table(&self) -> u64
        ensures { result ≡ active_at self.now }
    {
        if self.active == 0 {
            self.primary
        } else {
            self.secondary
        }
    }

    /// Where the other table stands, in bytes from the image's front.
    pub fn inactive_table(&self) -> u64
        ensures { result ≡ inactive_at self.now }
    {
        if self.active != 0 {
            self.primary
        } else {
            self.secondary
        }
    }

    /// The header's 256 bytes, as they stand in an image from 0x100 on.
    pub fn write(&self) -> [u8; 256]
        requires { IsOfRaw self.now }
        ensures bytes { result ≡ self.now.raw }
        // An image that holds these bytes, and whose length fits them, has this header.
        ensures read_again { (image : List ℕ) → 512 ≤ length image → header_bytes image 0 256 ≡ result
            → first_failing 1 (layout_faults self.now (length image)) ≡ None → reading image ≡ Ok self.now }
    {
        self.raw
    }

    /// The header with the other table active, whose SHA-256 is `hash`. The active byte becomes 1
    /// where it is 0, and else 0. No other field changes, and no byte but those of these two.
    pub fn flip(&self, hash: &[u8; 32]) -> Header
        ensures flipped { result ≡ flipped self.now hash.now }
        ensures of_raw { IsOfRaw self.now → IsOfRaw result }
        ensures sound { (len : ℕ) → IsSoundHeader self.now len → IsSoundHeader result len }
        ensures active { active_at result ≡ inactive_at self.now }
        ensures inactive { inactive_at result ≡ active_at self.now }
    {
        let active = other_table(self.active);
        let hash_place = self.kind.hash_place();
        let mut raw = self.raw;
        raw[self.kind.active_place()] = active;
        raw[hash_place..hash_place + 32].copy_from_slice(hash);
        Header {
            active,
            hash: *hash,
            raw,
            ..*self
        }
    }
}
