//! What stands at a path of a mounted filesystem, and what a file's entry says.

ghost use Rattle.std.specs.Prelude.{◌≡◌, ℕ, List, IsTrue, IfErr};
ghost use Rattle.save_bytes.specs.Reads.{Reads};
ghost use Rattle.entry_tables.specs.declared.table.EntryKind.TheVariants.{File};
ghost use Rattle.entry_tables.specs.Used.{used_entries};
ghost use Rattle.tree_model.specs.declared.kind.TreeKind.TheVariants.{Save};
ghost use Rattle.tree_rules.specs.Lists.{Holder};
ghost use Rattle.save_mount.specs.Mounted.{IsMountOf};
ghost use Rattle.tree_paths.specs.Standings.{IsStanding};
ghost use Rattle.save_fs.specs.Faults.{disk_in, DoneOrDisk, IsStoreFault};
ghost use Rattle.save_fs.specs.Mounted.{StandsOn, tables_on};

use crate::fault::refused_entry;
use crate::mounted::SaveFs;
use chain_space::BlocksSpace;
use entry_tables::{FileFields, fields_in};
use save_bytes::{Path, Space};
use tree_model::FsFault;
use tree_paths::{Standing, find_path};

impl SaveFs {
    // What stands at a path.
    pub(crate) fn standing<S: Space>(&self, store: &mut S, path: &Path) -> Result<Standing, FsFault>
        requires { StandsOn (S.state store.old).shape self.now }
        ensures standing { let s = S.state store.old in IsTrue s.told → (lists : Holder → List ℕ)
            → IsMountOf Save s.shape.size self.now.split s.cells self.now.mounted lists
            → DoneOrDisk result (IsStanding (tables_on s.shape.size self.now s.cells lists) path.now) }
        ensures named { IfErr result IsStoreFault }
        ensures reads { Reads S.state S.keeps S.lands store.old store.new (disk_in result) }
    {
        let mounted = &self.mounted;
        let chain = mounted.places.chain;
        let mut space = BlocksSpace::new(store, chain.region_at, chain.block, &mounted.blocks);
        match find_path(&mut space, mounted.dirs, mounted.files, path) {
            Ok(standing) => Ok(standing),
            Err(fault) => Err(refused_entry(fault)),
        }
    }

    // A file's first data block and its size.
    pub(crate) fn fields<S: Space>(&self, store: &mut S, entry: u32) -> Result<FileFields, FsFault>
        requires { StandsOn (S.state store.old).shape self.now }
        ensures fields { let s = S.state store.old in IsTrue s.told → (lists : Holder → List ℕ)
            → IsMountOf Save s.shape.size self.now.split s.cells self.now.mounted lists
            → let t = tables_on s.shape.size self.now s.cells lists in used_entries (t.table File) entry
            → DoneOrDisk result (λ fields. (fields.start ≡ t.start entry) × (fields.wide ≡ t.wide entry)) }
        ensures named { IfErr result IsStoreFault }
        ensures reads { Reads S.state S.keeps S.lands store.old store.new (disk_in result) }
    {
        let mounted = &self.mounted;
        let chain = mounted.places.chain;
        let mut space = BlocksSpace::new(store, chain.region_at, chain.block, &mounted.blocks);
        match fields_in(&mut space, mounted.files, entry) {
            Ok(fields) => Ok(fields),
            Err(fault) => Err(refused_entry(fault)),
        }
    }
}
