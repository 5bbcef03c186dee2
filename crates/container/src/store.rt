//! The cells of an open image's parts.

ghost use Rattle.std.specs.Prelude.{◌≡◌, ℕ, ◌/◌, ◌*◌, ◌-◌, ◌<◌, ◌≤◌, min, Bool, true, List, length, replicate, IsTrue, IfOk, IfSome};
ghost use Rattle.std.specs.Result.{result_err};
ghost use Rattle.save_bytes.specs.State.{IsInside, IsWritable, CanPut};
ghost use Rattle.save_bytes.specs.Answers.{IsReady, IsClearReady};
ghost use Rattle.save_bytes.specs.Puts.{Puts};
ghost use Rattle.save_bytes.specs.Spots.{MovesOnly};
ghost use Rattle.save_bytes.specs.Refusals.{NeverDamaged};
ghost use Rattle.save_bytes.specs.Stays.{Stays};
ghost use Rattle.save_bytes.specs.Reads.{Reads};
ghost use Rattle.ivfc_tree.specs.Levels.{HasBlock};
ghost use Rattle.part_store.specs.Parts.{IsFound, status_in};
ghost use Rattle.page_image.specs.Images.{is_held, image_state, IsDiskOf};
ghost use Rattle.container.specs.Signers.{Signing};
ghost use Rattle.container.specs.Parts.{part_count, part_at};
ghost use Rattle.container.specs.StoreHeld.{shown, store_of, IsStoreOf, IsKept, ReadsImage, StoreKeeps, store_lands};
ghost use Rattle.container.specs.ImageCells.{IsHeld, AreImageCells, AreImageStatuses};
ghost use Rattle.container.specs.Containers.{IsOpenOf, IsWholeContainer};
ghost use Rattle.container.specs.Origins.{KeepsStoreOrigins};
ghost use Rattle.difi.specs.Places.{block_size};
ghost use Rattle.container.specs.StoreLaws.{shown_fits, shown_plain, shown_alone, shown_ground, shown_blocks, shown_alike};
ghost use Rattle.container.specs.StoreLaws.{StoreKeeps-same, StoreKeeps-join, StoreKeeps-shape, StoreKeeps-cells, StoreKeeps-lands};

use crate::open::Container;
use crate::within::{find, tell};
use crate::writing::{clear_in, clear_ready_in, put_all, ready_all};
use difi::LevelPlace;
use ivfc_tree::Status;
use save_bytes::{Bad, Floor, Space};
use save_disk::Disk;

/// The level fours of an image's parts, one after the other, each byte lent only where it has a hash path.
#[derive(Drop)]
pub struct Store<'a, D: Disk> {
    pub(crate) container: &'a mut Container,
    pub(crate) disk: &'a mut D,
}

impl Container {
    /// The store of the container's parts over its disk.
    pub fn store<'a, D: Disk>(&'a mut self, disk: &'a mut D) -> Store<'a, D>
        requires { IsDiskOf (D.state disk.old) self.old.image }
        ensures holds { IsStoreOf result self.entry disk.entry }
        ensures sound { IsWholeContainer self.old → IsTrue (shown D.state result).shape.sound }
        // As the container was opened, the cells are those of the image.
        ensures cells { (sign : Signing) (image : List ℕ) → IsWholeContainer self.old
            → IsOpenOf sign image self.old → IsHeld image (D.state disk.old) self.old.image
            → AreImageCells image self.old.header self.old.parts (store_of (D.state disk.old) self.old).cells }
        ensures statuses { (sign : Signing) (image : List ℕ) → IsWholeContainer self.old
            → IsOpenOf sign image self.old → IsHeld image (D.state disk.old) self.old.image
            → AreImageStatuses image self.old.header self.old.parts (λ part level block.
            status_in (image_state (D.state disk.old) self.old.image) part self.old.table.items level block) }
    {
        Store {
            container: self,
            disk,
        }
    }
}

// Where bytes lie in the image, where they have a hash path.
fn find_in<D: Disk>(
    container: &mut Container,
    disk: &mut D,
    at: u64,
    most: usize,
) -> Result<(u64, usize), Bad>
    requires inside { IsInside (store_of (D.state disk.old) container.old).shape at 1 }
    requires some { 1 ≤ most }
    ensures found { IsFound (store_of (D.state disk.old) container.old) (image_state (D.state disk.new) container.new.image) at most result }
    ensures stays { Stays (store_of (D.state disk.old) container.old) (store_of (D.state disk.new) container.new) (result_err result) }
    ensures reads { ReadsImage (D.state disk.old) container.old.image (D.state disk.new) container.new.image (result_err result) }
    ensures kept { IsKept container.old container.new }
{
    let image = &mut container.image;
    let parts = &mut container.parts;
    let table = &mut container.table[..];
    let mut view = image.view(disk);
    find(&mut view, parts, table, at, most)
}

// The same, and the page of the first of them is held then.
fn locate_in<D: Disk>(
    container: &mut Container,
    disk: &mut D,
    at: u64,
    most: usize,
) -> Result<(u64, usize), Bad>
    requires inside { IsInside (store_of (D.state disk.old) container.old).shape at 1 }
    requires some { 1 ≤ most }
    ensures found { IsFound (store_of (D.state disk.old) container.old) (image_state (D.state disk.new) container.new.image) at most result }
    ensures stays { Stays (store_of (D.state disk.old) container.old) (store_of (D.state disk.new) container.new) (result_err result) }
    ensures reads { ReadsImage (D.state disk.old) container.old.image (D.state disk.new) container.new.image (result_err result) }
    ensures kept { IsKept container.old container.new }
    ensures held { IfOk result (λ run. is_held container.new.image (run.0 / 4096) ≡ true) }
{
    let (place, most) = match find_in(container, disk, at, most) {
        Ok(run) => run,
        Err(bad) => return Err(bad),
    };
    match container.image.bring(disk, place) {
        Ok(()) => Ok((place, most)),
        Err(_) => Err(Bad::Disk),
    }
}

// Whether the path of a block of a part holds.
fn tell_status<D: Disk>(
    container: &mut Container,
    disk: &mut D,
    part: u8,
    level: u8,
    block: u64,
) -> Result<Status, Bad>
    requires sound { IsTrue (store_of (D.state disk.old) container.old).shape.sound }
    requires part { part < part_count container.old.parts.second }
    requires there { IfSome (part_at container.old.parts part) (λ found. HasBlock found.difi level block) }
    ensures status { IsTrue (store_of (D.state disk.old) container.old).told → IfOk result (λ status. IfSome (part_at container.old.parts part)
        (λ found. status ≡ status_in (image_state (D.state disk.old) container.old.image) found container.old.table.items level block)) }
    ensures plain { NeverDamaged (result_err result) }
    ensures stays { Stays (store_of (D.state disk.old) container.old) (store_of (D.state disk.new) container.new) (result_err result) }
    ensures reads { ReadsImage (D.state disk.old) container.old.image (D.state disk.new) container.new.image (result_err result) }
    ensures kept { IsKept container.old container.new }
{
    let image = &mut container.image;
    let parts = &mut container.parts;
    let table = &mut container.table[..];
    let mut view = image.view(disk);
    tell(&mut view, parts, table, part, level, block)
}

impl<'a, D: Disk> Store<'a, D> {
    // Where bytes lie in the image, where they have a hash path. The page of the first of them is held then.
    fn locate(&mut self, at: u64, most: usize) -> Result<(u64, usize), Bad>
        requires inside { IsInside (shown D.state self.old).shape at 1 }
        requires some { 1 ≤ most }
        ensures found { IsFound (shown D.state self.old) (image_state (D.state self.new.disk.now) self.new.container.now.image) at most result }
        ensures held { IfOk result (λ run. is_held self.new.container.now.image (run.0 / 4096) ≡ true) }
        ensures reads { Reads (shown D.state) (StoreKeeps D.state) (store_lands D.state) self.old self.new (result_err result) }
    {
        let container = &mut *self.container;
        let disk = &mut *self.disk;
        locate_in(container, disk, at, most)
    }

    /// Whether the path of a block of one of the four hash levels of a part holds. It is refused only where the disk
    /// below failed.
    pub fn status(&mut self, part: u8, level: u8, block: u64) -> Result<Status, Bad>
        requires sound { IsTrue (shown D.state self.old).shape.sound }
        requires part { part < part_count self.old.container.now.parts.second }
        requires there { IfSome (part_at self.old.container.now.parts part) (λ found. HasBlock found.difi level block) }
        ensures status { IsTrue (shown D.state self.old).told → IfOk result (λ status. IfSome (part_at self.old.container.now.parts part)
            (λ found. status ≡ status_in (image_state (D.state self.old.disk.now) self.old.container.now.image) found
            self.old.container.now.table.items level block)) }
        ensures plain { NeverDamaged (result_err result) }
        ensures reads { Reads (shown D.state) (StoreKeeps D.state) (store_lands D.state) self.old self.new (result_err result) }
    {
        let container = &mut *self.container;
        let disk = &mut *self.disk;
        tell_status(container, disk, part, level, block)
    }
}

// A store lends from its image what has a hash path, and writes to it below the marks of its parts.
impl<D: Disk> Space for Store<'_, D> {
    ghost state = { shown D.state };

    ghost keeps = { StoreKeeps D.state };

    ghost lands = { store_lands D.state };

    ghost size_fits = { λ s sound. shown_fits D.state s sound };

    ghost plain_bytes = { λ s plain told x. absurd (shown_plain D.state s plain) };

    ghost no_twins = { λ s single. shown_alone D.state s };

    ghost keeps_same = { StoreKeeps-same D.state };

    ghost keeps_join = { StoreKeeps-join D.state };

    ghost keeps_hold = { λ s t h. (h.0, tt, (h.2.0, tt)) };

    ghost keeps_shape = { StoreKeeps-shape D.state };

    ghost keeps_cells = { λ s t sound single told still kept. StoreKeeps-cells D.state s t sound kept };

    ghost keeps_lands = { λ s t sound single told still kept. StoreKeeps-lands D.state s t sound kept };

    fn len(&self) -> u64 {
        let parts = &self.container.parts;
        let first = parts.first.difi().ivfc4.size;
        match &parts.second {
            Some(second) => first.saturating_add(second.difi().ivfc4.size),
            None => first,
        }
    }

    fn piece(&mut self, at: u64, most: usize) -> Result<&[u8], Bad> {
        let (place, most) = match self.locate(at, most) {
            Ok(run) => run,
            Err(bad) => return Err(bad),
        };
        let container = &*self.container;
        Ok(container.image.held(place, most))
    }

    fn ready(&mut self, at: u64, n: u64) -> Result<(), Bad> {
        let container = &mut *self.container;
        let disk = &mut *self.disk;
        ready_all(container, disk, at, n)
    }

    /// Beside what each space promises: contents and a table from which the parts' trees came as the transaction began
    /// are those from which they come.
    fn put(&mut self, at: u64, bytes: &[u8]) -> Result<(), Bad>
        requires { IsWritable (shown D.state self.old).shape at (length bytes.now) }
        ensures ready { CanPut (shown D.state self.old) at (length bytes.now)
            → IsReady (shown D.state self.old) at (length bytes.now) (result_err result) }
        ensures plain { IsTrue (shown D.state self.old).shape.plain → NeverDamaged (result_err result) }
        ensures puts { Puts (shown D.state self.old) at bytes.now (shown D.state self.new) (result_err result) }
        ensures moves { MovesOnly (StoreKeeps D.state) (store_lands D.state) (shown D.state self.old) self.old at
            (length bytes.now) self.new (result_err result) }
        ensures came { KeepsStoreOrigins (D.state self.old.disk.now) self.old.container.now (D.state self.new.disk.now)
            self.new.container.now (result_err result) }
    {
        let container = &mut *self.container;
        let disk = &mut *self.disk;
        put_all(container, disk, at, bytes)
    }
}

// Damage spreads in the blocks of the parts' level fours.
impl<D: Disk> Floor for Store<'_, D> {
    ghost ground = { shown_ground D.state };

    ghost blocks = { λ s sound. shown_blocks D.state s };

    ghost alike = { λ s told. shown_alike D.state s };

    fn block_of(&self, at: u64) -> (u64, u64) {
        let parts = &self.container.parts;
        let split = parts.first.difi().ivfc4.size;
        match &parts.second {
            Some(second) if at >= split => {
                let (start, len) = block_in(&second.difi().ivfc4, at - split);
                (split + start, len)
            }
            _ => block_in(&parts.first.difi().ivfc4, at),
        }
    }

    fn clear_ready(&mut self, at: u64) -> Result<(), Bad> {
        let container = &mut *self.container;
        let disk = &mut *self.disk;
        clear_ready_in(container, disk, at)
    }

    /// Beside what each floor promises: contents and a table from which the parts' trees came as the transaction began
    /// are those from which they come.
    fn clear(&mut self, at: u64) -> Result<(), Bad>
        requires { IsInside (shown D.state self.old).shape at 1 }
        ensures ready { IsClearReady (shown D.state self.old) at (result_err result) }
        ensures puts { let block = (shown D.state self.old).shape in
            Puts (shown D.state self.old) (block.block_start at) (replicate (block.block_len at) 0) (shown D.state self.new)
            (result_err result) }
        ensures moves { let block = (shown D.state self.old).shape in
            MovesOnly (StoreKeeps D.state) (store_lands D.state) (shown D.state self.old) self.old
            (block.block_start at) (block.block_len at) self.new (result_err result) }
        ensures came { KeepsStoreOrigins (D.state self.old.disk.now) self.old.container.now (D.state self.new.disk.now)
            self.new.container.now (result_err result) }
    {
        let container = &mut *self.container;
        let disk = &mut *self.disk;
        clear_in(container, disk, at)
    }
}

// Where the block of a byte of a level begins, and how long it is; the last may be shorter.
fn block_in(level: &LevelPlace, at: u64) -> (u64, u64)
    requires log { level.now.log ≤ 16 }
    requires inside { at < level.now.size }
    ensures start { result.0 ≡ at / block_size level.now * block_size level.now }
    ensures len { result.1 ≡ min (block_size level.now) (level.now.size - at / block_size level.now * block_size level.now) }
{
    let size = 1 << level.log;
    let start = at / size * size;
    (start, size.min(level.size - start))
}
