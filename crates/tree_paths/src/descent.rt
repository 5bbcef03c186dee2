//! The descent from the root to a path, by one name after another.

ghost use Rattle.std.specs.Prelude.{IfOk};
ghost use Rattle.save_bytes.specs.Reads.{Reads};
ghost use Rattle.entry_tables.specs.Tables.{tables_in};
ghost use Rattle.entry_tables.specs.Rules.{IsOrderly};
ghost use Rattle.entry_tables.specs.Layout.{HasEntryTables};
ghost use Rattle.entry_tables.specs.Causes.{bad_of};
ghost use Rattle.entry_audit.specs.Reading.{HasNeededBytes};
ghost use Rattle.entry_changes.specs.Bytes.{OkOrDisk};
ghost use Rattle.tree_paths.specs.Standings.{IsChildFound, IsStanding};
ghost use Rattle.tree_paths.specs.Causes.{TellsTables, HaveLists, HasPathCause};

use entry_tables::{EntryFault, EntryKind, TableInfo};
use name_buckets::Entries;
use save_bytes::{Name, Path, Space};

/// The root's entry.
const ROOT: u32 = 1;

/// What stands at a path: the entries of its parent directory, of a directory and of a file, as far as there are such.
/// The root has no parent.
#[derive(Clone, Copy, Debug, PartialEq, Eq)]
pub struct Standing {
    pub parent: Option<u32>,
    pub dir: Option<u32>,
    pub file: Option<u32>,
}

// The entry of this kind and name in a directory. Where there is no directory, nothing is read.
fn find_child<S: Space>(
    space: &mut S,
    dirs: TableInfo,
    files: TableInfo,
    kind: EntryKind,
    dir: Option<u32>,
    name: &Name,
) -> Result<Option<u32>, EntryFault>
    requires { HasEntryTables (S.state space.old).shape dirs files }
    ensures found { let t = tables_in (S.state space.old).cells dirs files in
        TellsTables (S.state space.old) dirs files → HaveLists t
        → IfOk result (IsChildFound kind (t.table kind) dir name.now.0) }
    ensures cause { HasPathCause (S.state space.old) dirs files result }
    ensures reads { Reads S.state S.keeps S.lands space.old space.new (bad_of result) }
{
    match dir {
        Some(dir) => Entries::new(space, dirs, files).find(kind, dir, name),
        None => Ok(None),
    }
}

/// What stands at a path: each name is sought in its directory by its bucket alone, and the last one also among the
/// files. Nothing behind a name that is no directory's is read.
pub fn find_path<S: Space>(
    space: &mut S,
    dirs: TableInfo,
    files: TableInfo,
    path: &Path,
) -> Result<Standing, EntryFault>
    requires { HasEntryTables (S.state space.old).shape dirs files }
    ensures standing { let t = tables_in (S.state space.old).cells dirs files in
        TellsTables (S.state space.old) dirs files → IsOrderly t → IfOk result (IsStanding t path.now) }
    ensures exact { TellsTables (S.state space.old) dirs files
        → IsOrderly (tables_in (S.state space.old).cells dirs files)
        → HasNeededBytes dirs files (S.state space.old).cells → OkOrDisk result }
    ensures cause { HasPathCause (S.state space.old) dirs files result }
    ensures reads { Reads S.state S.keeps S.lands space.old space.new (bad_of result) }
{
    let count = path.len();
    let mut parent = None;
    let mut dir = Some(ROOT);
    for i in 0..count {
        let name = path.name(i);
        parent = dir;
        dir = match find_child(space, dirs, files, EntryKind::Dir, parent, &name) {
            Ok(found) => found,
            Err(fault) => return Err(fault),
        };
    }
    if count == 0 {
        return Ok(Standing {
            parent,
            dir,
            file: None,
        });
    }
    let last = path.name(count - 1);
    let file = match find_child(space, dirs, files, EntryKind::File, parent, &last) {
        Ok(found) => found,
        Err(fault) => return Err(fault),
    };
    Ok(Standing { parent, dir, file })
}
