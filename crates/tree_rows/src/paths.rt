//! The paths of entries.

ghost use Rattle.std.specs.Prelude.{◌≡◌, ◌≢◌, ◌≤◌, IfOk, length, replicate, reverse};
ghost use Rattle.std.specs.List.{All};
ghost use Rattle.entry_tables.specs.declared.table.EntryKind.TheVariants.{Dir};
ghost use Rattle.entry_tables.specs.Tables.{Tables};
ghost use Rattle.entry_tables.specs.Rules.{IsOrderly};
ghost use Rattle.entry_audit.specs.Read.{IsReadTable};
ghost use Rattle.tree_model.specs.Trees.{Names};
ghost use Rattle.tree_rules.specs.Reading.{IsDirAt};

use entry_audit::{EntryKind, ReadTable, named_of};
use save_bytes::{Name, Path};
use std::alloc::{AllocError, Global};

/// The most names that a path has.
const MOST: usize = 64;

// The names from a directory up to the root, by parents.
fn names_up(alloc: Global, dirs: &ReadTable, dir: u32) -> Result<Vec<[u8; 16]>, AllocError>
    ensures { (t : Tables) (path : Names) → IsReadTable Dir t dirs.now → IsOrderly t → IsDirAt t path dir
        → IfOk result (λ names. reverse names.items ≡ path) }
{
    let mut names = Vec::new(alloc);
    let mut at = dir;
    for _risen in 0..MOST {
        let Some(read) = named_of(EntryKind::Dir, dirs, at) else {
            return Ok(names);
        };
        names.push(read.name.0)?;
        at = read.parent;
    }
    Ok(names)
}

/// The names of a directory's path.
pub(crate) fn dir_names(
    alloc: Global,
    dirs: &ReadTable,
    dir: u32,
) -> Result<Vec<[u8; 16]>, AllocError>
    ensures { (t : Tables) (path : Names) → IsReadTable Dir t dirs.now → IsOrderly t → IsDirAt t path dir
        → IfOk result (λ names. names.items ≡ path) }
{
    let mut names = names_up(alloc, dirs, dir)?;
    names.reverse();
    Ok(names)
}

/// The path of these names, of which there are at most 64, none of them empty.
pub(crate) fn path_of(names: &[[u8; 16]]) -> Path
    ensures { length names.now ≤ 64 → All (λ name. name ≢ replicate 16 0) names.now → result ≡ names.now }
{
    let mut path = Path::root();
    for bytes in names {
        let name = Name(*bytes);
        if path.len() < MOST && !name.is_empty() {
            path.push(name);
        }
    }
    path
}
