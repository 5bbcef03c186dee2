//! The conditions that a header's fields have to meet.

ghost use Rattle.std.specs.Prelude.{◌≡◌, ◌||◌, ◌++◌};
ghost use Rattle.save_bytes.specs.Extents.{overlap, some_overlap};
ghost use Rattle.container_header.specs.Conditions.{table_at, regions, is_bad_descriptor, is_bad_partition};
ghost use Rattle.container_header.specs.Conditions.{header_table_faults, descriptor_faults, partition_faults, first_failing};

use crate::header::Header;
use save_bytes::Extent;

/// The bytes at an image's front in which no table and no partition may lie.
pub(crate) const FRONT: u64 = 512;

/// The bytes of the shortest descriptor.
const DESCRIPTOR: u64 = 0x44;

/// The bytes of the longest table.
const MAX_TABLE: u64 = 65536;

impl Header {
    /// The table that stands at a place of the image.
    fn table(&self, at: u64) -> Extent
        ensures { result ≡ table_at self.now at }
    {
        Extent {
            at,
            size: self.table_size,
        }
    }

    fn is_bad_descriptor(&self, descriptor: &Extent) -> bool
        ensures { result ≡ is_bad_descriptor self.now descriptor.now }
    {
        !descriptor.lies_inside(0, self.table_size) || descriptor.size < DESCRIPTOR
    }

    /// The range overlaps one of the tables.
    fn meets_table(&self, extent: &Extent) -> bool
        ensures { result ≡ (overlap (table_at self.now self.now.primary) extent.now
            || overlap (table_at self.now self.now.secondary) extent.now) }
    {
        self.table(self.primary).overlaps(extent) || self.table(self.secondary).overlaps(extent)
    }

    /// Two of the tables and partitions overlap.
    fn has_overlap(&self) -> bool
        ensures { result ≡ some_overlap (regions self.now) }
    {
        self.table(self.primary)
            .overlaps(&self.table(self.secondary))
            || self.meets_table(&self.part_a)
            || self.parts == 2
                && (self.meets_table(&self.part_b) || self.part_a.overlaps(&self.part_b))
    }

    /// The first of the conditions 3 to 12 that fails, for an image of `len` bytes.
    pub(crate) fn layout_fault(&self, len: u64) -> Option<u8>
        ensures { result ≡ first_failing 3 (header_table_faults self.now len ++ descriptor_faults self.now ++ partition_faults self.now len) }
    {
        self.table_fault(len)
            .or(self.descriptor_fault())
            .or(self.partition_fault(len))
    }

    /// The first of the conditions 3 to 6 that fails, for an image of `len` bytes.
    fn table_fault(&self, len: u64) -> Option<u8>
        ensures { result ≡ first_failing 3 (header_table_faults self.now len) }
    {
        if self.active > 1 {
            return Some(3);
        }
        if self.table_size < DESCRIPTOR || self.table_size > MAX_TABLE {
            return Some(4);
        }
        if !self.table(self.primary).lies_inside(FRONT, len) {
            return Some(5);
        }
        if !self.table(self.secondary).lies_inside(FRONT, len) {
            return Some(6);
        }
        None
    }

    /// The first of the conditions 7 to 9 that fails.
    fn descriptor_fault(&self) -> Option<u8>
        ensures { result ≡ first_failing 7 (descriptor_faults self.now) }
    {
        if self.is_bad_descriptor(&self.desc_a) {
            return Some(7);
        }
        if self.parts == 2 && self.is_bad_descriptor(&self.desc_b) {
            return Some(8);
        }
        if self.parts == 2 && self.desc_a.overlaps(&self.desc_b) {
            return Some(9);
        }
        None
    }

    /// The first of the conditions 10 to 12 that fails, for an image of `len` bytes.
    fn partition_fault(&self, len: u64) -> Option<u8>
        ensures { result ≡ first_failing 10 (partition_faults self.now len) }
    {
        if is_bad_partition(&self.part_a, len) {
            return Some(10);
        }
        if self.parts == 2 && is_bad_partition(&self.part_b, len) {
            return Some(11);
        }
        if self.has_overlap() {
            return Some(12);
        }
        None
    }
}

fn is_bad_partition(partition: &Extent, len: u64) -> bool
    ensures { result ≡ is_bad_partition partition.now len }
{
    partition.size == 0 || !partition.lies_inside(FRONT, len)
}
