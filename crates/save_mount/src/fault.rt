//! Why a filesystem is not mounted.

ghost use Rattle.std.specs.Prelude.{◌≡◌, Some};
ghost use Rattle.save_mount.specs.Causes.{bad_of, list_fault};

use chain_nodes::ChainFault;
use save_bytes::Bad;

/// Why a filesystem is not mounted.
#[derive(Clone, Copy, Debug, PartialEq, Eq)]
pub enum MountFault {
    /// There is no memory for it.
    Memory,
    Disk,
    /// A byte that is needed can't be read.
    Damaged { part: u8, level: u8, block: u64 },
    /// A rule fails at this entry: 1 allocation, 2 directories, 3 files, 4 and 5 their buckets.
    Broken { table: u8, entry: u32 },
    /// The store is no filesystem of this kind.
    NotSave,
    /// This condition on where all lies fails, the first of them.
    Layout { condition: u8 },
}

/// The refusal of a store.
pub(crate) fn refused(bad: Bad) -> MountFault
    ensures { bad_of result ≡ Some bad }
{
    match bad {
        Bad::Disk => MountFault::Disk,
        Bad::Damaged { part, level, block } => MountFault::Damaged { part, level, block },
    }
}

/// What the fault of a list comes to. It is never that there are too few blocks.
pub(crate) fn refused_list(fault: ChainFault) -> MountFault
    ensures { result ≡ list_fault fault }
{
    match fault {
        ChainFault::Bad(Bad::Disk) => MountFault::Disk,
        ChainFault::Bad(Bad::Damaged { part, level, block }) => {
            MountFault::Damaged { part, level, block }
        }
        ChainFault::Broken { entry } => MountFault::Broken { table: 1, entry },
        ChainFault::Short { .. } => MountFault::Memory,
    }
}
