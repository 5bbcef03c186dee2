//! Adding an entry.

ghost use Rattle.std.specs.Prelude.{◌≡◌, IsTrue, IfOk, OnOk};
ghost use Rattle.save_bytes.specs.State.{State};
ghost use Rattle.save_bytes.specs.Reads.{Reads};
ghost use Rattle.save_bytes.specs.Stays.{SameCells};
ghost use Rattle.entry_tables.specs.Tables.{tables_in};
ghost use Rattle.entry_tables.specs.Layout.{HasEntryTables};
ghost use Rattle.entry_tables.specs.Causes.{bad_of, IfRuleBroken};
ghost use Rattle.entry_tables.specs.Changes.{CanChangeTables, ChangesAt};
ghost use Rattle.entry_changes.specs.Bytes.{OkOrDisk, HaveSoftened};
ghost use Rattle.entry_additions.specs.Additions.{IfNoEntry, MayAdd, HasAdditionCause, HasAdditionBytes};
ghost use Rattle.entry_additions.specs.Results.{IsAddedTo, IsAdditionSite};

use crate::entry::NewEntry;
use crate::plan::plan_addition;
use crate::put::{put_entry, ready_entry};
use entry_tables::{EntryFault, EntryKind, TableInfo, set_words};
use save_bytes::{Name, Space};

/// Adds an entry to a table, its bucket's list and its directory's: the first freed entry, or where there is none the
/// next number. `NoEntry` comes exactly where there is none of either. What is needed is read first; the entry itself
/// is written first, and from then on only `Disk` can come.
pub fn add_in<S: Space>(
    space: &mut S,
    dirs: TableInfo,
    files: TableInfo,
    kind: EntryKind,
    new: NewEntry,
) -> Result<u32, EntryFault>
    requires { HasEntryTables (S.state space.old).shape dirs files }
    ensures added { CanChangeTables (S.state space.old) dirs files
        → MayAdd (tables_in (S.state space.old).cells dirs files) kind new.parent new.name.0
        → IfOk result (IsAddedTo (S.state space.old) (S.state space.new) dirs files kind new) }
    ensures exact { (was : State) → CanChangeTables was dirs files
        → HasAdditionBytes was dirs files kind new.parent new.name.0
        → HaveSoftened was (S.state space.old) dirs files → CanChangeTables (S.state space.old) dirs files
        → MayAdd (tables_in (S.state space.old).cells dirs files) kind new.parent new.name.0 → OkOrDisk result }
    ensures cause { HasAdditionCause (S.state space.old) dirs files kind new.parent new.name.0 result }
    ensures broken { IsTrue (S.state space.old).told
        → IfRuleBroken result (λ _ _. SameCells (S.state space.old) (S.state space.new)) }
    ensures full { IsTrue (S.state space.old).told
        → IfNoEntry result (λ _. SameCells (S.state space.old) (S.state space.new)) }
    ensures changes { let t = tables_in (S.state space.old).cells dirs files in
        ChangesAt S.state S.keeps S.lands
        (CanChangeTables (S.state space.old) dirs files × MayAdd t kind new.parent new.name.0)
        (IsAdditionSite t dirs files kind new.parent new.name.0) space.old space.new (bad_of result) }
{
    let plan = plan_addition(space, dirs, files, kind, new.parent, &new.name)?;
    put_entry(space, dirs, files, kind, plan.place, new)?;
    set_words(space, dirs, files, &plan.edits)?;
    Ok(plan.place.entry)
}

/// Whether an entry of this parent and name may be added: the refusal of that call, but for what comes from the disk as
/// it writes.
pub fn ready_add_in<S: Space>(
    space: &mut S,
    dirs: TableInfo,
    files: TableInfo,
    kind: EntryKind,
    parent: u32,
    name: &Name,
) -> Result<(), EntryFault>
    requires { HasEntryTables (S.state space.old).shape dirs files }
    ensures bytes { CanChangeTables (S.state space.old) dirs files
        → MayAdd (tables_in (S.state space.old).cells dirs files) kind parent name.now.0
        → OnOk result (HasAdditionBytes (S.state space.old) dirs files kind parent name.now.0) }
    ensures cause { HasAdditionCause (S.state space.old) dirs files kind parent name.now.0 result }
    ensures reads { Reads S.state S.keeps S.lands space.old space.new (bad_of result) }
{
    let plan = plan_addition(space, dirs, files, kind, parent, name)?;
    ready_entry(space, dirs, files, kind, plan.place.entry)?;
    Ok(())
}
