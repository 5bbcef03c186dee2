//! Why a command is not done.

ghost use Rattle.std.specs.Prelude.{◌≡◌};
ghost use Rattle.save_top.specs.Output.{Reply};
ghost use Rattle.save_top.specs.Failures.{IsFailureBy, IsFaultBy};
ghost use Rattle.save_top.specs.Peeks.{IsMissBy};

use crate::peek::Miss;
use crate::text::{ROOM, put_damaged, put_no_block, put_no_part, put_open_fault};
use arrayvec::ArrayVec;
use container::OpenFault;

/// Why a command is not done.
#[derive(Drop)]
pub enum Failure {
    /// Memory was wanting.
    Memory,
    /// The disk failed.
    Disk,
    /// The line that says why it is refused.
    Refused(ArrayVec<u8, ROOM>),
}

// What a fault of opening comes to.
pub(crate) fn of_fault(fault: &OpenFault) -> Failure
    ensures said { (reply : Reply) → IsFaultBy reply fault.now → IsFailureBy reply result }
    ensures disk { result ≡ Failure.Disk → fault.now ≡ OpenFault.Disk }
{
    match fault {
        OpenFault::Memory => Failure::Memory,
        OpenFault::Disk => Failure::Disk,
        fault => {
            let mut line = ArrayVec::new();
            put_open_fault(&mut line, fault);
            Failure::Refused(line)
        }
    }
}

// What a block that is not shown comes to.
pub(crate) fn of_miss(miss: Miss) -> Failure
    ensures said { (reply : Reply) → IsMissBy reply miss → IsFailureBy reply result }
    ensures disk { result ≡ Failure.Disk → miss ≡ Miss.Disk }
{
    let mut line = ArrayVec::new();
    match miss {
        Miss::Memory => return Failure::Memory,
        Miss::Disk => return Failure::Disk,
        Miss::NoPart { have } => put_no_part(&mut line, have),
        Miss::NoBlock { have } => put_no_block(&mut line, have),
        Miss::Damaged { part, level, block } => {
            put_damaged(&mut line, u64::from(part), u64::from(level), block);
        }
    }
    Failure::Refused(line)
}
