//! The parts of an image, one for each partition.

ghost use Rattle.std.specs.Prelude.{◌≡◌};

use part_store::Part;

/// Part 0, and part 1 where there is one.
#[derive(Drop)]
pub(crate) struct Parts {
    pub(crate) first: Part,
    pub(crate) second: Option<Part>,
}

impl Parts {
    ghost use Rattle.container.specs.Parts.{part_count};

    /// How many parts there are: 1 or 2.
    pub(crate) fn count(&self) -> u8
        ensures { result ≡ part_count self.now.second }
    {
        if self.second.is_some() { 2 } else { 1 }
    }
}
