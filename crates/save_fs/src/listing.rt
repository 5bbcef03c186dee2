//! The rows of a mounted filesystem.

ghost use Rattle.std.specs.Prelude.{◌≡◌, IsTrue, IfErr};
ghost use Rattle.save_bytes.specs.Reads.{Reads};
ghost use Rattle.tree_model.specs.Trees.{Tree};
ghost use Rattle.save_fs.specs.Faults.{disk_in, IsRowsReply, IsRowsFault};
ghost use Rattle.save_fs.specs.Mounted.{StandsOn, IsMountedOn};

use crate::fault::refused_rows;
use crate::mounted::SaveFs;
use save_bytes::Space;
use save_mount::read_stored;
use std::alloc::{AllocError, Global};
use tree_model::{FsFault, Listing, Refusal, TreeKind};
use tree_rows::rows_of;

impl SaveFs {
    /// The rows of the tree, in order: its directories, the root first, and its files.
    ///
    /// # Errors
    ///
    /// `NoMemory` where memory runs out, `Disk` where the disk below failed. Where the store does not tell its cells,
    /// or they are no more those that were mounted, also `Damaged` and `Changed`.
    pub fn list<S: Space>(&self, alloc: Global, store: &mut S) -> Result<Listing, FsFault>
        requires { StandsOn (S.state store.old).shape self.now }
        ensures rows { let s = S.state store.old in IsTrue s.told → (tree : Tree)
            → IsMountedOn s.shape.size self.now s.cells tree → IsRowsReply tree result }
        ensures named { IfErr result IsRowsFault }
        ensures reads { Reads S.state S.keeps S.lands store.old store.new (disk_in result) }
    {
        let mounted = &self.mounted;
        let found = match read_stored(
            alloc,
            store,
            TreeKind::Save,
            self.split,
            &mounted.info,
            &mounted.places,
            &mounted.blocks,
        ) {
            Ok(found) => found,
            Err(fault) => return Err(refused_rows(fault)),
        };
        match rows_of(alloc, TreeKind::Save, &found.0) {
            Ok(rows) => Ok(Listing::new(rows)),
            Err(AllocError) => Err(FsFault::Refused(Refusal::NoMemory)),
        }
    }
}
