//! The bytes of a file.

ghost use Rattle.std.specs.Prelude.{◌≡◌, ℕ, List, IsTrue, IfOk, IfErr, drop};
ghost use Rattle.save_bytes.specs.Reads.{Reads};
ghost use Rattle.tree_model.specs.Trees.{Tree};
ghost use Rattle.save_fs.specs.Faults.{disk_in, IsStoreFault, IsGetFault};
ghost use Rattle.save_fs.specs.Mounted.{StandsOn, IsMountedOn, tables_on};
ghost use Rattle.save_fs.specs.Gets.{IsFileFound, AreFieldsFound, IsGetBegun, IsGettingAt, IsPieceGot};

use crate::fault::refused_chain;
use crate::mounted::SaveFs;
use entry_tables::FileFields;
use file_reader::{Reading, begin_reading, read_piece};
use save_bytes::{Path, Space};
use tree_model::{FsFault, Refusal};

/// A file that is read, and how far.
#[derive(Clone, Copy, Debug)]
pub struct Getting {
    pub(crate) reading: Reading,
    pub(crate) size: u64,
}

impl Getting {
    /// How many bytes the file has.
    pub fn size(&self) -> u64
        ensures { result ≡ self.now.size }
    {
        self.size
    }
}

impl SaveFs {
    // The entry of the file at a path.
    fn file_at<S: Space>(&self, store: &mut S, path: &Path) -> Result<u32, FsFault>
        requires { StandsOn (S.state store.old).shape self.now }
        ensures found { let s = S.state store.old in IsTrue s.told → (tree : Tree)
            → (h : IsMountedOn s.shape.size self.now s.cells tree)
            → IsFileFound (tables_on s.shape.size self.now s.cells h.reads.lists) tree path.now result }
        ensures named { IfErr result IsGetFault }
        ensures reads { Reads S.state S.keeps S.lands store.old store.new (disk_in result) }
    {
        let standing = match self.standing(store, path) {
            Ok(standing) => standing,
            Err(fault) => return Err(fault),
        };
        if path.len() == 0 {
            return Err(FsFault::Refused(Refusal::IsRoot));
        }
        match (standing.file, standing.dir) {
            (Some(file), _) => Ok(file),
            (None, Some(_)) => Err(FsFault::Refused(Refusal::WrongKind)),
            (None, None) => Err(FsFault::Refused(Refusal::NotFound)),
        }
    }

    // The first data block and the size of the file at a path.
    fn file_fields<S: Space>(&self, store: &mut S, path: &Path) -> Result<FileFields, FsFault>
        requires { StandsOn (S.state store.old).shape self.now }
        ensures found { let s = S.state store.old in IsTrue s.told → (tree : Tree)
            → IsMountedOn s.shape.size self.now s.cells tree
            → AreFieldsFound s.cells self.now.mounted.places.chain tree path.now result }
        ensures named { IfErr result IsGetFault }
        ensures reads { Reads S.state S.keeps S.lands store.old store.new (disk_in result) }
    {
        let file = match self.file_at(store, path) {
            Ok(file) => file,
            Err(fault) => return Err(fault),
        };
        match self.fields(store, file) {
            Ok(fields) => Ok(fields),
            Err(fault) => Err(fault),
        }
    }

    /// Begins to read the file at a path. Every byte of it is read once, so that what follows can fail for the disk's
    /// sake alone.
    ///
    /// # Errors
    ///
    /// As the tree answers: `IsRoot`, `WrongKind` for a directory, `NotFound`, or `Damaged` with the block of the first
    /// byte that is none. `Disk` where the disk below failed. Where the store does not tell its cells, or they are no
    /// more those that were mounted, also `Changed`.
    pub fn begin_get<S: Space>(&self, store: &mut S, path: &Path) -> Result<Getting, FsFault>
        requires { StandsOn (S.state store.old).shape self.now }
        ensures begun { let s = S.state store.old in IsTrue s.told → (tree : Tree)
            → IsMountedOn s.shape.size self.now s.cells tree → IsGetBegun s.cells tree path.now result }
        ensures chain { IfOk result (λ getting. getting.reading.info ≡ self.now.mounted.places.chain) }
        ensures named { IfErr result IsGetFault }
        ensures reads { Reads S.state S.keeps S.lands store.old store.new (disk_in result) }
    {
        let fields = match self.file_fields(store, path) {
            Ok(fields) => fields,
            Err(fault) => return Err(fault),
        };
        let chain = self.mounted.places.chain;
        match begin_reading(store, chain, fields.start, fields.wide) {
            Ok(reading) => Ok(Getting {
                reading,
                size: fields.wide,
            }),
            Err(fault) => Err(refused_chain(fault)),
        }
    }

    /// Copies the next bytes to the front of `out`, as many as it has or as are left, and says how many: 0 only at the
    /// end, or where `out` is empty. The cells of the store must be those of the beginning.
    ///
    /// # Errors
    ///
    /// `Disk` where the disk below failed. Where the store does not tell its cells, or they are no more those of the
    /// beginning, also `Damaged` and `Changed`.
    pub fn get_piece<S: Space>(
        &self,
        store: &mut S,
        getting: &mut Getting,
        out: &mut [u8],
    ) -> Result<usize, FsFault>
        requires stands { StandsOn (S.state store.old).shape self.now }
        requires chain { getting.old.reading.info ≡ self.now.mounted.places.chain }
        ensures piece { let s = S.state store.old in IsTrue s.told → (bytes : List ℕ) (x : ℕ)
            → IsGettingAt s.cells bytes x getting.old → IsPieceGot s.cells bytes x getting.new out.new result }
        ensures chain { getting.new.reading.info ≡ self.now.mounted.places.chain }
        ensures rest { IfOk result (λ n. drop n out.new ≡ drop n out.old) }
        ensures named { IfErr result IsStoreFault }
        ensures reads { Reads S.state S.keeps S.lands store.old store.new (disk_in result) }
    {
        match read_piece(store, &mut getting.reading, out) {
            Ok(n) => Ok(n),
            Err(fault) => Err(refused_chain(fault)),
        }
    }
}
