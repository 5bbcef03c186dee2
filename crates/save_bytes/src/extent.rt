//! Ranges of bytes. Offsets and sizes come from outside and may be any numbers of 64 bits, so an end has 128 bits, in
//! which no sum wraps.

ghost use Rattle.std.specs.Prelude.{◌≡◌, ℕ, ◌+◌, IsTrue, IsFalse, ◌↔◌};
ghost use Rattle.std.specs.List.{list_any};
ghost use Rattle.save_bytes.specs.Writes.{IsWithin};
ghost use Rattle.save_bytes.specs.Extents.{lies_inside, overlap, some_overlap, LiesInside, AreApart};

/// A range of bytes: where it begins, and how many there are.
#[derive(Clone, Copy, Debug, PartialEq, Eq)]
pub struct Extent {
    pub at: u64,
    pub size: u64,
}

impl Extent {
    /// The place behind the last byte.
    fn end(&self) -> u128
        ensures { result ≡ self.now.at + self.now.size }
    {
        u128::from(self.at) + u128::from(self.size)
    }

    /// Whether its beginning and its end lie in the range from `low` to `high`, both of these counted.
    pub fn lies_inside(&self, low: u64, high: u64) -> bool
        ensures exact { result ≡ lies_inside self.now low high }
        ensures ends { IsTrue result ↔ LiesInside self.now low high }
    {
        low <= self.at && self.end() <= u128::from(high)
    }

    /// Whether some place lies in both.
    pub fn overlaps(&self, other: &Extent) -> bool
        ensures exact { result ≡ overlap self.now other.now }
        ensures shared { IsTrue result
            ↔ ((place : ℕ) × IsWithin self.now.at self.now.size place × IsWithin other.now.at other.now.size place) }
        ensures apart { IsFalse result ↔ AreApart self.now other.now }
    {
        u128::from(self.at.max(other.at)) < self.end().min(other.end())
    }

    /// Whether it overlaps one of a list.
    pub fn overlaps_any(&self, others: &[Extent]) -> bool
        ensures { result ≡ list_any (overlap self.now) others.now }
    {
        others.iter().any(|other| self.overlaps(other))
    }
}

/// Whether two of the ranges overlap.
pub fn some_overlap(extents: &[Extent]) -> bool
    ensures { result ≡ some_overlap extents.now }
{
    for i in 0..extents.len() {
        if extents[i].overlaps_any(&extents[i + 1..]) {
            return true;
        }
    }
    false
}
