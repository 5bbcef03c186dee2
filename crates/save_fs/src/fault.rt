//! Why a call on a mounted filesystem fails.

ghost use Rattle.std.specs.Prelude.{◌≡◌};
ghost use Rattle.save_fs.specs.Faults.{bad_fault, rows_fault, entry_fault, chain_fault};

use chain_nodes::ChainFault;
use entry_tables::EntryFault;
use save_bytes::Bad;
use save_mount::MountFault;
use tree_model::{FsFault, Refusal};

/// What the refusal of a store comes to.
pub(crate) fn refused(bad: Bad) -> FsFault
    ensures { result ≡ bad_fault bad }
{
    match bad {
        Bad::Disk => FsFault::Disk,
        Bad::Damaged { part, level, block } => {
            FsFault::Refused(Refusal::Damaged { part, level, block })
        }
    }
}

/// What the fault of tables comes to that were good when they were mounted.
pub(crate) fn refused_rows(fault: MountFault) -> FsFault
    ensures { result ≡ rows_fault fault }
{
    match fault {
        MountFault::Memory => FsFault::Refused(Refusal::NoMemory),
        MountFault::Disk => FsFault::Disk,
        MountFault::Damaged { part, level, block } => {
            FsFault::Refused(Refusal::Damaged { part, level, block })
        }
        MountFault::Broken { .. } | MountFault::NotSave | MountFault::Layout { .. } => {
            FsFault::Refused(Refusal::Changed)
        }
    }
}

/// What the fault of entries comes to that were good when they were mounted.
pub(crate) fn refused_entry(fault: EntryFault) -> FsFault
    ensures { result ≡ entry_fault fault }
{
    match fault {
        EntryFault::Bad(bad) => refused(bad),
        EntryFault::Broken { .. } | EntryFault::NoEntry { .. } => {
            FsFault::Refused(Refusal::Changed)
        }
    }
}

/// What the fault of a chain comes to that was good when it was mounted.
pub(crate) fn refused_chain(fault: ChainFault) -> FsFault
    ensures { result ≡ chain_fault fault }
{
    match fault {
        ChainFault::Bad(bad) => refused(bad),
        ChainFault::Broken { .. } | ChainFault::Short { .. } => {
            FsFault::Refused(Refusal::Changed)
        }
    }
}
