//! Beginning to read.

ghost use Rattle.std.specs.Prelude.{◌≡◌, ℕ, List, IsTrue, IfOk};
ghost use Rattle.std.specs.Result.{result_err};
ghost use Rattle.save_bytes.specs.Answers.{IsFirstFault};
ghost use Rattle.save_bytes.specs.Refusals.{NeverDamaged};
ghost use Rattle.save_bytes.specs.Reads.{Reads};
ghost use Rattle.chain_nodes.specs.Table.{table_in, HasAllocationTable};
ghost use Rattle.chain_nodes.specs.Faults.{refusal_of};
ghost use Rattle.file_reader.specs.Contents.{IsContentsList, contents_in, DoneOrDamaged};
ghost use Rattle.file_reader.specs.Reading.{IsBegun};

use crate::piece::read_piece;
use crate::reading::Reading;
use chain_nodes::{ChainFault, ChainInfo};
use save_bytes::Space;

/// Begins to read contents of so many bytes, whose first data block is `start`, and reads all of them once to verify
/// them. `Damaged` comes exactly where one of the bytes is none, and names the first. Where there are no bytes nothing
/// is read.
pub fn begin_reading<S: Space>(
    store: &mut S,
    info: ChainInfo,
    start: u32,
    size: u64,
) -> Result<Reading, ChainFault>
    requires { HasAllocationTable (S.state store.old).shape info }
    ensures info { IfOk result (λ reading. reading.info ≡ info) }
    ensures left { IfOk result (λ reading. reading.left ≡ size) }
    ensures begun { let cells = (S.state store.old).cells in IsTrue (S.state store.old).told → (list : List ℕ)
        → IsContentsList (table_in cells info) info start size list
        → DoneOrDamaged result (IsBegun (table_in cells info) cells start size list)
        (IsFirstFault (contents_in info list cells) 0 size) }
    ensures plain { IsTrue (S.state store.old).shape.plain → NeverDamaged (refusal_of (result_err result)) }
    ensures reads { Reads S.state S.keeps S.lands store.old store.new (refusal_of (result_err result)) }
{
    let begun = Reading::start(info, start, size);
    let mut ahead = begun;
    let mut piece = [0; 4096];
    while ahead.left() != 0 {
        match read_piece(store, &mut ahead, &mut piece) {
            Ok(_) => {}
            Err(fault) => return Err(fault),
        }
    }
    Ok(begun)
}
