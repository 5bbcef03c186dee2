//! What an open container says of its image.

ghost use Rattle.std.specs.Prelude.{◌≡◌, ◌<◌, ◌≤◌};
ghost use Rattle.container.specs.Levels.{hash_level};

use crate::open::Container;
use container_header::Header;
use difi::{Difi, LevelPlace};

// A level by its number.
fn hash_level(difi: &Difi, level: u8) -> LevelPlace
    ensures { result ≡ hash_level difi.now level }
{
    match level {
        1 => difi.ivfc1,
        2 => difi.ivfc2,
        3 => difi.ivfc3,
        _ => difi.ivfc4,
    }
}

impl Container {
    ghost use Rattle.container.specs.Containers.{OfPart};
    ghost use Rattle.container.specs.Parts.{part_count, split_of};

    /// The image's header.
    pub fn header(&self) -> &Header
        ensures { result.now ≡ self.now.header }
    {
        &self.header
    }

    /// How many parts there are: 1 or 2.
    pub fn parts(&self) -> u8
        ensures { result ≡ part_count self.now.parts.second }
    {
        self.parts.count()
    }

    // The descriptor of a part.
    fn difi(&self, part: u8) -> &Difi
        requires { part < part_count self.now.parts.second }
        ensures { OfPart self.now part (λ difi. result.now ≡ difi) }
    {
        if part == 0 {
            return self.parts.first.difi();
        }
        match &self.parts.second {
            Some(second) => second.difi(),
            None => unreachable!(),
        }
    }

    /// Whether part 0's level four is external: it has no second copy, so that a write changes bytes in their place.
    pub fn loose(&self) -> bool
        ensures { result ≡ self.now.parts.first.difi.external }
    {
        self.parts.first.difi().external
    }

    /// Where a part's hash level lies, in bytes, as its descriptor says: level 1 to 4. Of an external level four only
    /// the size and the logarithm count.
    pub fn level(&self, part: u8, level: u8) -> LevelPlace
        requires part { part < part_count self.now.parts.second }
        requires some { 1 ≤ level }
        requires most { level ≤ 4 }
        ensures { OfPart self.now part (λ difi. result ≡ hash_level difi level) }
    {
        hash_level(self.difi(part), level)
    }

    /// The length of part 0's level four, in bytes, where there is a part 1.
    pub fn split(&self) -> Option<u64>
        ensures { result ≡ split_of self.now.parts }
    {
        match &self.parts.second {
            Some(_) => Some(self.parts.first.difi().ivfc4.size),
            None => None,
        }
    }
}
