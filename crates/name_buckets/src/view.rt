//! The entries of the tables in a space.

ghost use Rattle.std.specs.Prelude.{◌≡◌, ◌<◌, IsTrue, IfOk, OnOk, ⊤};
ghost use Rattle.save_bytes.specs.State.{State};
ghost use Rattle.save_bytes.specs.Stays.{SameCells};
ghost use Rattle.entry_tables.specs.declared.table.EntryKind.TheVariants.{Dir, File};
ghost use Rattle.save_bytes.specs.Answers.{IsReady};
ghost use Rattle.save_bytes.specs.Refusals.{IfDamaged};
ghost use Rattle.save_bytes.specs.Writes.{IsWithin};
ghost use Rattle.entry_tables.specs.Kinds.{table_number, bucket_table};
ghost use Rattle.entry_tables.specs.Hash.{bucket_number};
ghost use Rattle.entry_tables.specs.Tables.{HasEntry, info_of};
ghost use Rattle.entry_tables.specs.Used.{used_entries};
ghost use Rattle.entry_tables.specs.Rules.{HasFreedList, HasBucketLists, IsOrderly};
ghost use Rattle.entry_tables.specs.Words.{with_fields};
ghost use Rattle.entry_tables.specs.Fails.{NamesWrongly, IsBrokenBucket, RuleFailsAt};
ghost use Rattle.entry_tables.specs.Layout.{HasCounts, HasEntryTables, HasLink, BlamesTable};
ghost use Rattle.entry_tables.specs.Causes.{bad_of, IfRuleBroken, HasEntryCause};
ghost use Rattle.entry_tables.specs.Changes.{CanChangeTables};
ghost use Rattle.entry_additions.specs.Additions.{IfNoEntry, MayAdd, HasAdditionCause, HasAdditionBytes};
ghost use Rattle.entry_additions.specs.Results.{IsAddedTo, IsAdditionSite};
ghost use Rattle.entry_changes.specs.Bytes.{OkOrDisk, HaveSoftened, HasRemovalBytes};
ghost use Rattle.entry_changes.specs.Lacks.{IsTakenOut, IsRemovalSite};
ghost use Rattle.entry_changes.specs.Plans.{HasChangeCause, MayRemove, IsRemovalReady};
ghost use Rattle.name_buckets.specs.Replies.{IsFoundEntry, IsRoom, IsFirstChild, IsNextChild};
ghost use Rattle.name_buckets.specs.Held.{space_of, tables_of, place_of, HoldsTables, TellsTableOf, IsEntriesIn, ReadsEntries};
ghost use Rattle.name_buckets.specs.Held.{CanChange, fields_place, ChangesEntries};

use crate::find::find_in;
use crate::free::free_in;
use entry_additions::{NewEntry, add_in, ready_add_in};
use entry_changes::{ready_remove_in, remove_in};
use entry_tables::{
    Counts, EntryFault, EntryKind, FileFields, TableInfo, counts_in, fields_in, head_in, link_in,
    name_in, set_fields_in, word_in,
};
use save_bytes::{Name, Space};

/// The entries of the two tables in a space, with their buckets.
///
/// A call is refused with `Bad` as the space refuses it: for a damaged cell only where that cell is needed, which are
/// entry 0 of a table, its buckets, its used entries and the last words of the freed ones. Where the rule does not hold
/// by which a list is followed, the cell is one of the table or its buckets. A call is refused with `Broken` only where
/// a rule fails at the entry, or the bucket, that it names. Over a space that tells nothing each call is
/// safe, and returns.
///
/// What is said of an entry's fields is said of entries from 1 below the most of their table. Another number is read as
/// if it were an entry where it lies in the space, and as zeros where it does not.
#[derive(Drop)]
pub struct Entries<'a, S: Space> {
    space: &'a mut S,
    dirs: TableInfo,
    files: TableInfo,
}

impl<'a, S: Space> Entries<'a, S> {
    /// The entries of the tables that stand at these places.
    pub fn new(space: &'a mut S, dirs: TableInfo, files: TableInfo) -> Entries<'a, S>
        requires { HasEntryTables (S.state space.old).shape dirs files }
        ensures holds { IsEntriesIn result space.entry dirs files }
        ensures laid_out { HoldsTables S.state result }
    {
        Entries { space, dirs, files }
    }

    /// The used entry of this kind, parent and name, the root left out. It is found through its bucket alone, and is
    /// exact where the buckets of this kind have the lists that they should.
    pub fn find(
        &mut self,
        kind: EntryKind,
        parent: u32,
        name: &Name,
    ) -> Result<Option<u32>, EntryFault>
        requires { HoldsTables S.state self.old }
        ensures found { TellsTableOf S.state self.old kind → HasBucketLists kind ((tables_of S.state self.old).table kind)
            → IfOk result (IsFoundEntry kind ((tables_of S.state self.old).table kind) parent name.now.0) }
        ensures cause { let t = (tables_of S.state self.old).table kind in
            HasEntryCause (space_of S.state self.old) kind (place_of self.old kind) (HasBucketLists kind t)
            (λ table entry. (table ≡ bucket_table kind) × (entry ≡ bucket_number parent name.now.0 t.buckets)
            × IsBrokenBucket kind t entry) result }
        ensures blamed { TellsTableOf S.state self.old kind
            → IfDamaged (bad_of result) (BlamesTable kind (place_of self.old kind) (space_of S.state self.old).cells) }
        ensures reads { ReadsEntries S.state S.keeps S.lands self.old self.new (bad_of result) }
    {
        let info = self.info(kind);
        let space = &mut *self.space;
        find_in(space, kind, info, parent, name)
    }

    /// How many entries of a kind were ever used, and how many there can be, entry 0 included. From an Ok on it is
    /// known that both are bytes, and so where the entries lie.
    pub fn counts(&mut self, kind: EntryKind) -> Result<Counts, EntryFault>
        requires { HoldsTables S.state self.old }
        ensures count { IsTrue (space_of S.state self.old).told
            → IfOk result (λ counts. counts.count ≡ ((tables_of S.state self.old).table kind).count) }
        ensures most { IsTrue (space_of S.state self.old).told
            → IfOk result (λ counts. counts.most ≡ ((tables_of S.state self.old).table kind).most) }
        ensures known { IsTrue (space_of S.state self.old).told
            → OnOk result (HasCounts (space_of S.state self.old).cells (place_of self.old kind)) }
        ensures cause { HasEntryCause (space_of S.state self.old) kind (place_of self.old kind) ⊤ (λ _ _. ⊥) result }
        ensures reads { ReadsEntries S.state S.keeps S.lands self.old self.new (bad_of result) }
    {
        let info = self.info(kind);
        let space = &mut *self.space;
        counts_in(space, kind, info)
    }

    /// The first entry of a bucket's list, and 0 where it has none.
    pub fn head(&mut self, kind: EntryKind, bucket: u32) -> Result<u32, EntryFault>
        requires tables { HoldsTables S.state self.old }
        requires below { bucket < ((tables_of S.state self.old).table kind).buckets }
        ensures word { IsTrue (space_of S.state self.old).told
            → IfOk result (λ head. head ≡ ((tables_of S.state self.old).table kind).head bucket) }
        ensures cause { HasEntryCause (space_of S.state self.old) kind (place_of self.old kind) ⊤ (λ _ _. ⊥) result }
        ensures reads { ReadsEntries S.state S.keeps S.lands self.old self.new (bad_of result) }
    {
        let info = self.info(kind);
        let space = &mut *self.space;
        head_in(space, kind, info, bucket)
    }

    /// The parent of an entry.
    pub fn parent(&mut self, kind: EntryKind, entry: u32) -> Result<u32, EntryFault>
        requires { HoldsTables S.state self.old }
        ensures word { TellsTableOf S.state self.old kind → HasEntry ((tables_of S.state self.old).table kind) entry
            → IfOk result (λ parent. parent ≡ ((tables_of S.state self.old).table kind).parent entry) }
        ensures cause { HasEntryCause (space_of S.state self.old) kind (place_of self.old kind)
            (used_entries ((tables_of S.state self.old).table kind) entry) (λ _ _. ⊥) result }
        ensures reads { ReadsEntries S.state S.keeps S.lands self.old self.new (bad_of result) }
    {
        let info = self.info(kind);
        let space = &mut *self.space;
        word_in(space, kind, info, entry, 0)
    }

    /// The last word of an entry: of a used one the next in its bucket's list, of entry 0 the first freed one, of that
    /// the next, and 0 for none. Where the freed entries have a list it is needed of each of them.
    pub fn link(&mut self, kind: EntryKind, entry: u32) -> Result<u32, EntryFault>
        requires { HoldsTables S.state self.old }
        ensures word { TellsTableOf S.state self.old kind → entry < ((tables_of S.state self.old).table kind).most
            → IfOk result (λ link. link ≡ ((tables_of S.state self.old).table kind).link entry) }
        ensures cause { HasEntryCause (space_of S.state self.old) kind (place_of self.old kind)
            (HasLink ((tables_of S.state self.old).table kind) entry) (λ _ _. ⊥) result }
        ensures reads { ReadsEntries S.state S.keeps S.lands self.old self.new (bad_of result) }
    {
        let info = self.info(kind);
        let space = &mut *self.space;
        link_in(space, kind, info, entry)
    }

    /// A directory's first entry of a kind, and 0 where it has none. The list of its entries begins there.
    pub fn first(&mut self, kind: EntryKind, dir: u32) -> Result<u32, EntryFault>
        requires { HoldsTables S.state self.old }
        ensures word { TellsTableOf S.state self.old Dir → HasEntry ((tables_of S.state self.old).table Dir) dir
            → IfOk result (λ first. first ≡ (tables_of S.state self.old).first kind dir) }
        ensures child { TellsTableOf S.state self.old Dir → HasEntry ((tables_of S.state self.old).table Dir) dir
            → IfOk result (IsFirstChild (tables_of S.state self.old) kind dir) }
        ensures cause { HasEntryCause (space_of S.state self.old) Dir (place_of self.old Dir)
            (used_entries ((tables_of S.state self.old).table Dir) dir) (λ _ _. ⊥) result }
        ensures reads { ReadsEntries S.state S.keeps S.lands self.old self.new (bad_of result) }
    {
        let dirs = self.dirs;
        let space = &mut *self.space;
        word_in(space, EntryKind::Dir, dirs, dir, kind.child_offset())
    }

    /// The entry behind this one in the list of its directory, and 0 behind the last.
    pub fn next(&mut self, kind: EntryKind, entry: u32) -> Result<u32, EntryFault>
        requires { HoldsTables S.state self.old }
        ensures word { TellsTableOf S.state self.old kind → HasEntry ((tables_of S.state self.old).table kind) entry
            → IfOk result (λ next. next ≡ ((tables_of S.state self.old).table kind).sibling entry) }
        ensures child { TellsTableOf S.state self.old kind → HasEntry ((tables_of S.state self.old).table kind) entry
            → IfOk result (IsNextChild (tables_of S.state self.old) kind entry) }
        ensures cause { HasEntryCause (space_of S.state self.old) kind (place_of self.old kind)
            (used_entries ((tables_of S.state self.old).table kind) entry) (λ _ _. ⊥) result }
        ensures reads { ReadsEntries S.state S.keeps S.lands self.old self.new (bad_of result) }
    {
        let info = self.info(kind);
        let space = &mut *self.space;
        word_in(space, kind, info, entry, 0x14)
    }

    /// The name of an entry.
    pub fn name(&mut self, kind: EntryKind, entry: u32) -> Result<Name, EntryFault>
        requires { HoldsTables S.state self.old }
        ensures name { TellsTableOf S.state self.old kind → HasEntry ((tables_of S.state self.old).table kind) entry
            → IfOk result (λ name. name.0 ≡ ((tables_of S.state self.old).table kind).name entry) }
        ensures cause { HasEntryCause (space_of S.state self.old) kind (place_of self.old kind)
            (used_entries ((tables_of S.state self.old).table kind) entry) (λ _ _. ⊥) result }
        ensures reads { ReadsEntries S.state S.keeps S.lands self.old self.new (bad_of result) }
    {
        let info = self.info(kind);
        let space = &mut *self.space;
        name_in(space, kind, info, entry)
    }

    /// What a file's entry says of its contents.
    pub fn fields(&mut self, entry: u32) -> Result<FileFields, EntryFault>
        requires { HoldsTables S.state self.old }
        ensures start { TellsTableOf S.state self.old File → HasEntry ((tables_of S.state self.old).table File) entry
            → IfOk result (λ fields. fields.start ≡ (tables_of S.state self.old).start entry) }
        ensures wide { TellsTableOf S.state self.old File → HasEntry ((tables_of S.state self.old).table File) entry
            → IfOk result (λ fields. fields.wide ≡ (tables_of S.state self.old).wide entry) }
        ensures cause { HasEntryCause (space_of S.state self.old) File (place_of self.old File)
            (used_entries ((tables_of S.state self.old).table File) entry) (λ _ _. ⊥) result }
        ensures reads { ReadsEntries S.state S.keeps S.lands self.old self.new (bad_of result) }
    {
        let files = self.files;
        let space = &mut *self.space;
        fields_in(space, files, entry)
    }

    /// Changes what a file's entry says of its contents, and nothing else of either table. `Damaged` comes exactly where
    /// one of these twelve bytes is spoilt, and then nothing changes; after the first byte only `Disk` can come.
    pub fn set_fields(&mut self, entry: u32, fields: FileFields) -> Result<(), EntryFault>
        requires { HoldsTables S.state self.old }
        ensures set { CanChange S.state self.old → HasEntry ((tables_of S.state self.old).table File) entry
            → OnOk result (tables_of S.state self.new
            ≡ with_fields (tables_of S.state self.old) entry fields.start fields.wide) }
        ensures orderly { CanChange S.state self.old → HasEntry ((tables_of S.state self.old).table File) entry
            → IsOrderly (tables_of S.state self.old) → OnOk result (IsOrderly (tables_of S.state self.new)) }
        ensures still { CanChange S.state self.old → HasEntry ((tables_of S.state self.old).table File) entry
            → OnOk result (CanChange S.state self.new) }
        ensures exact { CanChange S.state self.old → HasEntry ((tables_of S.state self.old).table File) entry
            → IsReady (space_of S.state self.old) (fields_place self.old entry) 12 (bad_of result) }
        ensures cause { HasEntryCause (space_of S.state self.old) File (place_of self.old File)
            (CanChange S.state self.old × used_entries ((tables_of S.state self.old).table File) entry) (λ _ _. ⊥) result }
        ensures changes { ChangesEntries S.state S.keeps S.lands
            (CanChange S.state self.old × HasEntry ((tables_of S.state self.old).table File) entry)
            (IsWithin (fields_place self.old entry) 12) self.old self.new (bad_of result) }
    {
        let dirs = self.dirs;
        let files = self.files;
        let space = &mut *self.space;
        set_fields_in(space, dirs, files, entry, fields)?;
        Ok(())
    }

    /// Adds an entry with this parent and name to its directory and its bucket, and gives its number: the first freed
    /// one, or where there is none the next that was never used. `fields` is not looked at for a directory, and its
    /// entries are none; what the entry says no more is zero. The rules hold as before, and all other entries have their
    /// parents, names and fields. The parent is a used directory that reaches the root by fewer than 64 parents, and the
    /// name is not empty and not there. `NoEntry` comes exactly where no entry is freed and the count is at its most.
    /// What is needed is read first; `Damaged` comes beside that for a spoilt cell of the entry that is taken; from the
    /// first byte on only `Disk` can come, and any other refusal changes nothing.
    pub fn add(
        &mut self,
        kind: EntryKind,
        parent: u32,
        name: &Name,
        fields: FileFields,
    ) -> Result<u32, EntryFault>
        requires { HoldsTables S.state self.old }
        ensures added { CanChange S.state self.old → MayAdd (tables_of S.state self.old) kind parent name.now.0
            → IfOk result (IsAddedTo (space_of S.state self.old) (space_of S.state self.new) self.old.dirs self.old.files
            kind (record { parent = parent; name = name.now; fields = fields })) }
        ensures still { CanChange S.state self.old → MayAdd (tables_of S.state self.old) kind parent name.now.0
            → OnOk result (CanChange S.state self.new) }
        ensures exact { (was : State) → CanChangeTables was self.old.dirs self.old.files
            → HasAdditionBytes was self.old.dirs self.old.files kind parent name.now.0
            → HaveSoftened was (space_of S.state self.old) self.old.dirs self.old.files → CanChange S.state self.old
            → MayAdd (tables_of S.state self.old) kind parent name.now.0 → OkOrDisk result }
        ensures cause { HasAdditionCause (space_of S.state self.old) self.old.dirs self.old.files kind parent name.now.0
            result }
        ensures never_broken { CanChange S.state self.old → MayAdd (tables_of S.state self.old) kind parent name.now.0
            → IfRuleBroken result (λ _ _. ⊥) }
        ensures broken { IsTrue (space_of S.state self.old).told
            → IfRuleBroken result (λ _ _. SameCells (space_of S.state self.old) (space_of S.state self.new)) }
        ensures full { IsTrue (space_of S.state self.old).told
            → IfNoEntry result (λ _. SameCells (space_of S.state self.old) (space_of S.state self.new)) }
        ensures changes { let t = tables_of S.state self.old in
            ChangesEntries S.state S.keeps S.lands (CanChange S.state self.old × MayAdd t kind parent name.now.0)
            (IsAdditionSite t self.old.dirs self.old.files kind parent name.now.0) self.old self.new (bad_of result) }
    {
        let dirs = self.dirs;
        let files = self.files;
        let space = &mut *self.space;
        let name = *name;
        let new = NewEntry {
            parent,
            name,
            fields,
        };
        add_in(space, dirs, files, kind, new)
    }

    /// Whether an entry of this parent and name may be added: the refusal of `add`, but for what comes from the disk as
    /// it writes. It changes nothing. After its Ok `add` answers Ok or `Disk`, as long as the tables stay and their
    /// cells soften at most.
    pub fn ready_add(&mut self, kind: EntryKind, parent: u32, name: &Name) -> Result<(), EntryFault>
        requires { HoldsTables S.state self.old }
        ensures bytes { CanChange S.state self.old → MayAdd (tables_of S.state self.old) kind parent name.now.0
            → OnOk result
            (HasAdditionBytes (space_of S.state self.old) self.old.dirs self.old.files kind parent name.now.0) }
        ensures cause { HasAdditionCause (space_of S.state self.old) self.old.dirs self.old.files kind parent name.now.0
            result }
        ensures never_broken { CanChange S.state self.old → MayAdd (tables_of S.state self.old) kind parent name.now.0
            → IfRuleBroken result (λ _ _. ⊥) }
        ensures reads { ReadsEntries S.state S.keeps S.lands self.old self.new (bad_of result) }
    {
        let dirs = self.dirs;
        let files = self.files;
        let space = &mut *self.space;
        ready_add_in(space, dirs, files, kind, parent, name)
    }

    /// Takes an entry out of its table, one other than the root, and of a directory none that has entries: out of its
    /// bucket's list and its directory's, and into that of the freed ones. The rules hold as before, and all other
    /// entries have their parents, names and fields. What is needed is read first; from the first word on only `Disk`
    /// can come, and any other refusal changes nothing. Where one of the two lists lacks the entry, nothing changes.
    pub fn remove(&mut self, kind: EntryKind, entry: u32) -> Result<(), EntryFault>
        requires { HoldsTables S.state self.old }
        ensures removed { CanChange S.state self.old → MayRemove (tables_of S.state self.old) kind entry
            → OnOk result (IsTakenOut (space_of S.state self.old) (space_of S.state self.new) self.old.dirs self.old.files
            kind entry) }
        ensures still { CanChange S.state self.old → MayRemove (tables_of S.state self.old) kind entry
            → OnOk result (CanChange S.state self.new) }
        ensures cause { let t = tables_of S.state self.old in
            HasChangeCause (space_of S.state self.old) self.old.dirs self.old.files (MayRemove t kind entry)
            (λ table number. used_entries (t.table kind) entry → used_entries (t.table Dir) ((t.table kind).parent entry)
            → RuleFailsAt t table number) result }
        ensures never_broken { CanChange S.state self.old → MayRemove (tables_of S.state self.old) kind entry
            → IfRuleBroken result (λ _ _. ⊥) }
        ensures exact { (was : State) → CanChangeTables was self.old.dirs self.old.files
            → HasRemovalBytes was self.old.dirs self.old.files kind entry
            → HaveSoftened was (space_of S.state self.old) self.old.dirs self.old.files → CanChange S.state self.old
            → MayRemove (tables_of S.state self.old) kind entry → OkOrDisk result }
        ensures broken { IsTrue (space_of S.state self.old).told
            → IfRuleBroken result (λ _ _. SameCells (space_of S.state self.old) (space_of S.state self.new)) }
        ensures changes { let t = tables_of S.state self.old in
            ChangesEntries S.state S.keeps S.lands (CanChange S.state self.old × MayRemove t kind entry)
            (IsRemovalSite t self.old.dirs self.old.files kind entry) self.old self.new (bad_of result) }
    {
        let dirs = self.dirs;
        let files = self.files;
        let space = &mut *self.space;
        remove_in(space, dirs, files, kind, entry)
    }

    /// Whether an entry may be taken out of its table: the refusal of `remove`, but for what comes from the disk as it
    /// writes. It changes nothing. After its Ok `remove` answers Ok or `Disk`, as long as the tables stay and their
    /// cells soften at most.
    pub fn ready_remove(&mut self, kind: EntryKind, entry: u32) -> Result<(), EntryFault>
        requires { HoldsTables S.state self.old }
        ensures ready { CanChange S.state self.old → MayRemove (tables_of S.state self.old) kind entry
            → OnOk result (IsRemovalReady (space_of S.state self.old) self.old.dirs self.old.files kind entry) }
        ensures bytes { CanChange S.state self.old → MayRemove (tables_of S.state self.old) kind entry
            → OnOk result (HasRemovalBytes (space_of S.state self.old) self.old.dirs self.old.files kind entry) }
        ensures cause { let t = tables_of S.state self.old in
            HasChangeCause (space_of S.state self.old) self.old.dirs self.old.files (MayRemove t kind entry)
            (λ table number. used_entries (t.table kind) entry → used_entries (t.table Dir) ((t.table kind).parent entry)
            → RuleFailsAt t table number) result }
        ensures never_broken { CanChange S.state self.old → MayRemove (tables_of S.state self.old) kind entry
            → IfRuleBroken result (λ _ _. ⊥) }
        ensures reads { ReadsEntries S.state S.keeps S.lands self.old self.new (bad_of result) }
    {
        let dirs = self.dirs;
        let files = self.files;
        let space = &mut *self.space;
        ready_remove_in(space, dirs, files, kind, entry)
    }

    /// How many entries of a kind can still be added. It is answered only where the freed entries of this kind have the
    /// list that they should. Else the one entry is named at which the rule fails; where the list comes back to itself,
    /// it is found in about half as many steps as the square of how many are freed.
    pub fn free(&mut self, kind: EntryKind) -> Result<u32, EntryFault>
        requires { HoldsTables S.state self.old }
        ensures room { TellsTableOf S.state self.old kind → IfOk result (IsRoom kind ((tables_of S.state self.old).table kind)) }
        ensures cause { let t = (tables_of S.state self.old).table kind in
            HasEntryCause (space_of S.state self.old) kind (place_of self.old kind) (HasFreedList kind t)
            (λ table entry. (table ≡ table_number kind) × NamesWrongly kind t entry) result }
        ensures blamed { TellsTableOf S.state self.old kind
            → IfDamaged (bad_of result) (BlamesTable kind (place_of self.old kind) (space_of S.state self.old).cells) }
        ensures reads { ReadsEntries S.state S.keeps S.lands self.old self.new (bad_of result) }
    {
        let info = self.info(kind);
        let space = &mut *self.space;
        free_in(space, kind, info)
    }

    fn info(&self, kind: EntryKind) -> TableInfo
        ensures { result ≡ place_of self.now kind }
    {
        match kind {
            EntryKind::Dir => self.dirs,
            EntryKind::File => self.files,
        }
    }
}
