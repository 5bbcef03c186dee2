//! A descriptor's fields, read from a table.

ghost use Rattle.std.specs.Prelude.{◌≡◌, ℕ, ◌+◌, ◌<◌, ◌≤◌, length, slice_set, IfOk, IsOk, ◌↔◌};
ghost use Rattle.difi.specs.Fields.{fields};
ghost use Rattle.difi.specs.Conditions.{reading};
ghost use Rattle.difi.specs.Sound.{IsSoundDifi, IsDescriptor};

use crate::conditions::{check_difi, check_names};
use crate::fault::DifiFault;
use crate::fields::fields_of;
use crate::places::LevelPlace;
use save_bytes::Extent;

/// The fields of a descriptor.
#[derive(Clone, Copy, Debug, PartialEq, Eq)]
pub struct Difi {
    /// Where the descriptor stands in its table.
    pub place: u64,
    /// Where the IVFC part stands, relative to the descriptor.
    pub ivfc_at: u64,
    /// Where the DPFS part stands, relative to the descriptor.
    pub dpfs_at: u64,
    /// The master hash, relative to the descriptor.
    pub master: Extent,
    /// Whether level four lies plainly in the partition, and not in DPFS level 3.
    pub external: bool,
    /// Where level four lies in the partition where it is external.
    pub external_at: u64,
    /// Which copy of DPFS level 1 is chosen: 0 the first, 1 the second.
    pub selector: u8,
    /// The levels of the hash tree, in the chosen contents of DPFS level 3.
    pub ivfc1: LevelPlace,
    pub ivfc2: LevelPlace,
    pub ivfc3: LevelPlace,
    /// Of an external level four only the size and the logarithm count.
    pub ivfc4: LevelPlace,
    /// The levels of the double-copy tree in the partition. Level 1's logarithm is not looked at.
    pub dpfs1: LevelPlace,
    pub dpfs2: LevelPlace,
    pub dpfs3: LevelPlace,
}

#[tactic(auto, using(crate::proofs::Verdicts::reading_by_groups))]
fn checked(table: &[u8], place: usize, size: u64, part_len: u64) -> Result<Difi, DifiFault>
    requires inside { place + size ≤ length table.now }
    requires whole { 0x44 ≤ size }
    ensures { result ≡ reading table.now place size part_len }
{
    check_difi(table, place, size)?;
    let difi = fields_of(table, place);
    check_names(
        table,
        place + difi.ivfc_at as usize,
        place + difi.dpfs_at as usize,
    )?;
    difi.check_levels(part_len)?;
    Ok(difi)
}

impl Difi {
    /// Reads the descriptor of `size` bytes from `place` on in a table, for a partition of
    /// `part_len` bytes.
    ///
    /// # Errors
    ///
    /// The first condition that fails. In their order they are: DIFI's name and version; conditions
    /// 1 to 5 of the layout, on the parts of the descriptor and the selector; the names and versions
    /// of IVFC and DPFS; conditions 6 to 13, on the levels.
    pub fn read(table: &[u8], place: u64, size: u64, part_len: u64) -> Result<Difi, DifiFault>
        requires inside { place + size ≤ length table.now }
        requires whole { 0x44 ≤ size }
        ensures exact { result ≡ reading table.now place size part_len }
        ensures fields { IfOk result (λ difi. difi ≡ fields table.now place) }
        ensures sound { IfOk result (λ difi. IsSoundDifi difi size part_len) }
        // No condition fails: stated as facts, and not as the tests in their order.
        ensures ok { IsOk result
            ↔ (IsDescriptor table.now place size × IsSoundDifi (fields table.now place) size part_len) }
    {
        checked(table, place as usize, size, part_len)
    }

    /// Sets the descriptor's selector in its table, and changes no other byte.
    pub fn patch(&self, table: &mut [u8], selector: u8)
        requires inside { self.now.place + 0x44 ≤ length table.old }
        requires selector { selector < 2 }
        ensures byte { table.new ≡ slice_set table.old (self.now.place + 0x39) selector }
        // What was read there is read again, with that selector.
        ensures read { (size part_len : ℕ)
            → reading table.old self.now.place size part_len ≡ Ok self.now
            → reading table.new self.now.place size part_len
            ≡ Ok (record self.now { selector = selector }) }
    {
        table[self.place as usize + 0x39] = selector;
    }
}
