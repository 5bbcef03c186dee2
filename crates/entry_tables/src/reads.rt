//! Reading bytes of entries.

ghost use Rattle.std.specs.Prelude.{◌≡◌, ◌+◌, ◌*◌, ◌<◌, ◌≤◌, length, IsTrue, IfOk, OnOk, IfSome, IfNone};
ghost use Rattle.std.specs.Result.{result_err};
ghost use Rattle.save_bytes.specs.Cells.{AreBytesAt};
ghost use Rattle.save_bytes.specs.CellNumbers.{number_in};
ghost use Rattle.save_bytes.specs.Refusals.{IfDamaged, NeverDamaged};
ghost use Rattle.save_bytes.specs.Answers.{IsRead};
ghost use Rattle.save_bytes.specs.Reads.{Reads};
ghost use Rattle.entry_tables.specs.Kinds.{entry_size};
ghost use Rattle.entry_tables.specs.Tables.{table_in, most_in, entry_place};
ghost use Rattle.entry_tables.specs.Layout.{HasCounts, HasEntryTable, TellsEntryTable, BlamesRead};

use crate::table::{EntryKind, TableInfo};
use save_bytes::{Bad, Space, space_copy, u32_at};

/// How many entries of a table were ever used, and how many there can be, entry 0 included.
#[derive(Clone, Copy, Debug, PartialEq, Eq)]
pub struct Counts {
    pub count: u32,
    pub most: u32,
}

/// The counts of a table.
pub fn read_counts<S: Space>(space: &mut S, kind: EntryKind, info: TableInfo) -> Result<Counts, Bad>
    requires { HasEntryTable (S.state space.old).shape kind info }
    ensures count { IsTrue (S.state space.old).told
        → IfOk result (λ counts. counts.count ≡ (table_in (S.state space.old).cells kind info).count) }
    ensures most { IsTrue (S.state space.old).told
        → IfOk result (λ counts. counts.most ≡ (table_in (S.state space.old).cells kind info).most) }
    ensures known { IsTrue (S.state space.old).told → OnOk result (HasCounts (S.state space.old).cells info) }
    ensures read { IsRead (S.state space.old) info.table_at 8 (result_err result) }
    ensures reads { Reads S.state S.keeps S.lands space.old space.new (result_err result) }
{
    let mut words = [0; 8];
    space_copy(space, info.table_at, &mut words)?;
    Ok(Counts {
        count: u32_at(&words, 0),
        most: u32_at(&words, 4),
    })
}

/// Where an entry stands in a space of `len` bytes; none where it does not lie in it.
pub fn entry_at(len: u64, kind: EntryKind, info: TableInfo, entry: u32) -> Option<u64>
    requires { info.table_at ≤ len }
    ensures place { IfSome result (λ at. at ≡ entry_place kind info entry) }
    ensures inside { IfSome result (λ at. at + entry_size kind ≤ len) }
    ensures outside { IfNone result (len < entry_place kind info entry + entry_size kind) }
{
    let size = kind.entry_size();
    let offset = u64::from(entry) * size;
    if len - info.table_at < offset + size {
        None
    } else {
        Some(info.table_at + offset)
    }
}

/// Copies bytes of an entry, from `offset` in it on, into `out`. Where the entry does not lie in the space, as each
/// entry below the most does, `out` stays as it is.
pub fn entry_bytes<S: Space>(
    space: &mut S,
    kind: EntryKind,
    info: TableInfo,
    entry: u32,
    offset: u64,
    out: &mut [u8],
) -> Result<(), Bad>
    requires table { HasEntryTable (S.state space.old).shape kind info }
    requires inside { offset + length out.old ≤ entry_size kind }
    ensures bytes { TellsEntryTable (S.state space.old) kind info → entry < most_in (S.state space.old).cells info
        → OnOk result (AreBytesAt (S.state space.old).cells (entry_place kind info entry + offset) out.new) }
    ensures read { entry_place kind info entry + entry_size kind ≤ (S.state space.old).shape.size
        → IsRead (S.state space.old) (entry_place kind info entry + offset) (length out.old) (result_err result) }
    ensures damaged { IsTrue (S.state space.old).told → IfDamaged (result_err result)
        (BlamesRead kind info (entry_place kind info entry + offset) (length out.old) (S.state space.old).cells) }
    ensures plain { IsTrue (S.state space.old).shape.plain → NeverDamaged (result_err result) }
    ensures reads { Reads S.state S.keeps S.lands space.old space.new (result_err result) }
{
    match entry_at(space.len(), kind, info, entry) {
        Some(at) => space_copy(space, at + offset, out),
        None => {
            read_counts(space, kind, info)?;
            Ok(())
        }
    }
}

/// A word of an entry, and 0 where the entry does not lie in the space.
pub fn entry_word<S: Space>(
    space: &mut S,
    kind: EntryKind,
    info: TableInfo,
    entry: u32,
    offset: u64,
) -> Result<u32, Bad>
    requires table { HasEntryTable (S.state space.old).shape kind info }
    requires inside { offset + 4 ≤ entry_size kind }
    ensures word { TellsEntryTable (S.state space.old) kind info → entry < most_in (S.state space.old).cells info
        → IfOk result (λ word. word ≡ number_in 4 (S.state space.old).cells (entry_place kind info entry + offset)) }
    ensures damaged { IsTrue (S.state space.old).told → IfDamaged (result_err result)
        (BlamesRead kind info (entry_place kind info entry + offset) 4 (S.state space.old).cells) }
    ensures plain { IsTrue (S.state space.old).shape.plain → NeverDamaged (result_err result) }
    ensures reads { Reads S.state S.keeps S.lands space.old space.new (result_err result) }
{
    let mut word = [0; 4];
    entry_bytes(space, kind, info, entry, offset, &mut word)?;
    Ok(u32_at(&word, 0))
}
