//! Whether a directory is empty.

ghost use Rattle.std.specs.Prelude.{◌↔◌, IsTrue, IfOk};
ghost use Rattle.save_bytes.specs.Reads.{Reads};
ghost use Rattle.entry_tables.specs.declared.table.EntryKind.TheVariants.{Dir};
ghost use Rattle.entry_tables.specs.declared.table.TableInfo.{TableInfo};
ghost use Rattle.entry_tables.specs.Tables.{table_in, tables_in};
ghost use Rattle.entry_tables.specs.Used.{used_entries};
ghost use Rattle.entry_tables.specs.Rules.{IsOrderly};
ghost use Rattle.entry_tables.specs.Layout.{HasEntryTable};
ghost use Rattle.entry_tables.specs.Causes.{bad_of, HasEntryCause};
ghost use Rattle.entry_audit.specs.Reading.{HasNeededBytes};
ghost use Rattle.entry_changes.specs.Bytes.{OkOrDisk};
ghost use Rattle.tree_paths.specs.Standings.{HasChild};
ghost use Rattle.tree_paths.specs.Causes.{TellsTables};

use entry_tables::{EntryFault, EntryKind, TableInfo, entry_bytes};
use save_bytes::{Space, u32_at};

/// Whether a directory or a file has this directory as its parent. Of all entries only the directory's own is read.
pub fn has_children<S: Space>(
    space: &mut S,
    dirs: TableInfo,
    entry: u32,
) -> Result<bool, EntryFault>
    requires { HasEntryTable (S.state space.old).shape Dir dirs }
    ensures children { (files : TableInfo) → TellsTables (S.state space.old) dirs files
        → IsOrderly (tables_in (S.state space.old).cells dirs files)
        → used_entries (table_in (S.state space.old).cells Dir dirs) entry
        → IfOk result (λ some. IsTrue some ↔ HasChild (tables_in (S.state space.old).cells dirs files) entry) }
    ensures exact { (files : TableInfo) → TellsTables (S.state space.old) dirs files
        → used_entries (table_in (S.state space.old).cells Dir dirs) entry
        → HasNeededBytes dirs files (S.state space.old).cells → OkOrDisk result }
    ensures cause { HasEntryCause (S.state space.old) Dir dirs
        (used_entries (table_in (S.state space.old).cells Dir dirs) entry) (λ _ _. ⊥) result }
    ensures reads { Reads S.state S.keeps S.lands space.old space.new (bad_of result) }
{
    let mut words = [0; 8];
    let offset = EntryKind::Dir.child_offset();
    entry_bytes(space, EntryKind::Dir, dirs, entry, offset, &mut words)?;
    let dir = u32_at(&words, 0);
    let file = u32_at(&words, 4);
    Ok(dir != 0 || file != 0)
}
