//! Why a call on a chain fails.

ghost use Rattle.std.specs.Prelude.{◌≡◌, ◌↔◌, IsTrue};
ghost use Rattle.save_bytes.specs.declared.space.Bad.TheVariants.{Disk};

use save_bytes::Bad;
use thiserror::Error;

/// Why a call on a chain fails.
#[derive(Clone, Copy, Debug, PartialEq, Eq, Error)]
pub enum ChainFault {
    /// The space below refused a call.
    #[error("the allocation table cannot be read or written: {0:?}")]
    Bad(Bad),
    /// The words of this entry are not as they should be, or it has two places in a list.
    #[error("the allocation table is broken at entry {entry}")]
    Broken { entry: u32 },
    /// There are fewer blocks than are needed.
    #[error("{need} blocks are needed, and there are {have}")]
    Short { need: u64, have: u32 },
}

impl ChainFault {
    /// Whether the disk below failed.
    pub fn is_disk(&self) -> bool
        ensures { IsTrue result ↔ (self.now ≡ ChainFault.Bad Disk) }
    {
        matches!(self, ChainFault::Bad(Bad::Disk))
    }
}
