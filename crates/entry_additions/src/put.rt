//! Putting an entry anew.

ghost use Rattle.std.specs.Prelude.{◌≡◌, ◌≤◌, ◌+◌, IsTrue};
ghost use Rattle.std.specs.Result.{result_err};
ghost use Rattle.save_bytes.specs.Cells.{AreBytesAt};
ghost use Rattle.save_bytes.specs.State.{IsWritable, CanPut};
ghost use Rattle.save_bytes.specs.Refusals.{IfDone, NeverDamaged};
ghost use Rattle.save_bytes.specs.Answers.{IsReady};
ghost use Rattle.save_bytes.specs.Reads.{Reads};
ghost use Rattle.save_bytes.specs.Writes.{IsWithin};
ghost use Rattle.entry_tables.specs.Kinds.{entry_size};
ghost use Rattle.entry_tables.specs.Tables.{HasEntry, tables_in, info_of, entry_place};
ghost use Rattle.entry_tables.specs.Layout.{HasEntryTables};
ghost use Rattle.entry_tables.specs.Changes.{CanChangeTables, ChangesAt};
ghost use Rattle.entry_additions.specs.Images.{written_entry};
ghost use Rattle.entry_additions.specs.Puts.{IsEntryPut};

use crate::entry::{NewEntry, NewPlace};
use crate::image::{dir_bytes, file_bytes};
use entry_tables::{EntryKind, TableInfo, entry_at, info_for};
use save_bytes::{Bad, Space};

/// Whether an entry may be written anew: `Damaged` comes exactly where a cell of it is spoilt.
pub(crate) fn ready_entry<S: Space>(
    space: &mut S,
    dirs: TableInfo,
    files: TableInfo,
    kind: EntryKind,
    entry: u32,
) -> Result<(), Bad>
    requires { HasEntryTables (S.state space.old).shape dirs files }
    ensures ready { entry_place kind (info_of dirs files kind) entry + entry_size kind ≤ (S.state space.old).shape.size
        → IsReady (S.state space.old) (entry_place kind (info_of dirs files kind) entry) (entry_size kind)
        (result_err result) }
    ensures plain { IsTrue (S.state space.old).shape.plain → NeverDamaged (result_err result) }
    ensures reads { Reads S.state S.keeps S.lands space.old space.new (result_err result) }
{
    match entry_at(space.len(), kind, info_for(dirs, files, kind), entry) {
        Some(at) => space.ready(at, kind.entry_size()),
        None => Ok(()),
    }
}

/// Writes an entry anew. It is refused as `ready_entry` is, and then changes nothing.
pub(crate) fn put_entry<S: Space>(
    space: &mut S,
    dirs: TableInfo,
    files: TableInfo,
    kind: EntryKind,
    place: NewPlace,
    new: NewEntry,
) -> Result<(), Bad>
    requires { HasEntryTables (S.state space.old).shape dirs files }
    ensures put { CanChangeTables (S.state space.old) dirs files
        → HasEntry ((tables_in (S.state space.old).cells dirs files).table kind) place.entry
        → IfDone (result_err result) (IsEntryPut (S.state space.old) (S.state space.new) dirs files kind place new) }
    ensures ready { CanChangeTables (S.state space.old) dirs files
        → HasEntry ((tables_in (S.state space.old).cells dirs files).table kind) place.entry
        → IsReady (S.state space.old) (entry_place kind (info_of dirs files kind) place.entry) (entry_size kind)
        (result_err result) }
    ensures changes { ChangesAt S.state S.keeps S.lands
        (CanChangeTables (S.state space.old) dirs files
        × HasEntry ((tables_in (S.state space.old).cells dirs files).table kind) place.entry)
        (IsWithin (entry_place kind (info_of dirs files kind) place.entry) (entry_size kind))
        space.old space.new (result_err result) }
{
    match entry_at(space.len(), kind, info_for(dirs, files, kind), place.entry) {
        Some(at) => put_bytes(space, at, kind, place, new),
        None => Ok(()),
    }
}

// Puts the bytes of a new entry.
fn put_bytes<S: Space>(
    space: &mut S,
    at: u64,
    kind: EntryKind,
    place: NewPlace,
    new: NewEntry,
) -> Result<(), Bad>
    requires { IsWritable (S.state space.old).shape at (entry_size kind) }
    ensures ready { CanPut (S.state space.old) at (entry_size kind)
        → IsReady (S.state space.old) at (entry_size kind) (result_err result) }
    ensures bytes { CanPut (S.state space.old) at (entry_size kind) → IfDone (result_err result)
        (AreBytesAt (S.state space.new).cells at (written_entry kind new place.sibling place.link)) }
    ensures changes { ChangesAt S.state S.keeps S.lands (CanPut (S.state space.old) at (entry_size kind))
        (IsWithin at (entry_size kind)) space.old space.new (result_err result) }
{
    match kind {
        EntryKind::Dir => space.put(at, &dir_bytes(new, place.sibling, place.link)),
        EntryKind::File => space.put(at, &file_bytes(new, place.sibling, place.link)),
    }
}
