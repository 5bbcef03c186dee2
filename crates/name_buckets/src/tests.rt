ghost use Rattle.std.specs.Prelude.{refl, ◌≡◌, ◌<◌, ◌≤◌, length, IfOk, IfSome};
ghost use Rattle.std.proofs.Common.{lit<};
ghost use Rattle.std.proofs.lemmas.Bool.{false≢true};
ghost use Rattle.name_buckets.specs.Untold.{untold_state};
ghost use Rattle.entry_tables.specs.Rules.{IsOrderly};
ghost use Rattle.entry_tables.specs.Layout.{HasCounts};
ghost use Rattle.entry_tables.specs.Causes.{IfRuleBroken};
ghost use Rattle.entry_tables.specs.declared.table.EntryKind.{EntryKind};
ghost use Rattle.name_buckets.specs.Held.{space_of, tables_of, place_of, HoldsTables, TellsTableOf};

use super::*;
use save_bytes::{Bad, MemSpace, Name, Space, set_u32, set_u64};

/// Names of one byte.
const A: Name = Name(*b"a\0\0\0\0\0\0\0\0\0\0\0\0\0\0\0");

const X: Name = Name(*b"x\0\0\0\0\0\0\0\0\0\0\0\0\0\0\0");

/// Where the tables stand: room for 10 directories and 9 files.
const DIRS: TableInfo = TableInfo {
    buckets_at: 136,
    buckets: 9,
    table_at: 1024,
};

const FILES: TableInfo = TableInfo {
    buckets_at: 172,
    buckets: 9,
    table_at: 1536,
};

/// A reading call, and its answer.
#[derive(Clone, Copy)]
enum Call {
    Find(EntryKind, u32, Name),
    First(EntryKind, u32),
    Next(EntryKind, u32),
    Name(EntryKind, u32),
    Fields(u32),
    Free(EntryKind),
    FindName(EntryKind, u32, Name),
    Counts(EntryKind),
    Head(EntryKind, u32),
    Parent(EntryKind, u32),
    Link(EntryKind, u32),
}

#[derive(Clone, Copy, Debug, PartialEq)]
enum Reply {
    Found(Result<Option<u32>, EntryFault>),
    Number(Result<u32, EntryFault>),
    Named(Result<Name, EntryFault>),
    Fields(Result<FileFields, EntryFault>),
    Counts(Result<Counts, EntryFault>),
}

/// What a call on the tables in these bytes answers.
fn reply_to(bytes: &mut [u8], call: Call) -> Reply
    requires { 1584 ≤ length bytes.old }
{
    let mut space = MemSpace::new(bytes, 512);
    let mut entries = Entries::new(&mut space, DIRS, FILES);
    answer(&mut entries, call)
}

// The name of the entry that was found, which is the one that was sought.
fn found_name<S: Space>(
    entries: &mut Entries<S>,
    kind: EntryKind,
    parent: u32,
    name: &Name,
) -> Result<Option<Name>, EntryFault>
    requires { HoldsTables S.state entries.old }
    ensures { TellsTableOf S.state entries.old kind → HasCounts (space_of S.state entries.old).cells (place_of entries.old kind)
        → IsOrderly (tables_of S.state entries.old)
        → IfOk result (λ found. IfSome found (λ its. its.0 ≡ name.now.0)) }
{
    match entries.find(kind, parent, name) {
        Ok(Some(entry)) => match entries.name(kind, entry) {
            Ok(its) => Ok(Some(its)),
            Err(fault) => Err(fault),
        },
        Ok(None) => Ok(None),
        Err(fault) => Err(fault),
    }
}

// How many entries can be added; of orderly tables no rule is said to fail.
fn free_of_orderly<S: Space>(entries: &mut Entries<S>, kind: EntryKind) -> Result<u32, EntryFault>
    requires { HoldsTables S.state entries.old }
    ensures { TellsTableOf S.state entries.old kind → IsOrderly (tables_of S.state entries.old)
        → IfRuleBroken result (λ _ _. ⊥) }
{
    entries.free(kind)
}

/// Changes the fields of a file's entry in the tables in these bytes.
fn set_fields_of(bytes: &mut [u8], entry: u32, fields: FileFields) -> Result<(), EntryFault>
    requires { 1584 ≤ length bytes.old }
{
    let mut space = MemSpace::new(bytes, 512);
    let mut entries = Entries::new(&mut space, DIRS, FILES);
    entries.set_fields(entry, fields)
}

/// Removes an entry from the tables in these bytes.
fn remove_from(bytes: &mut [u8], kind: EntryKind, entry: u32) -> Result<(), EntryFault>
    requires { 1584 ≤ length bytes.old }
{
    let mut space = MemSpace::new(bytes, 512);
    let mut entries = Entries::new(&mut space, DIRS, FILES);
    entries.remove(kind, entry)
}

/// Asks whether it may be removed.
fn ready_in(bytes: &mut [u8], kind: EntryKind, entry: u32) -> Result<(), EntryFault>
    requires { 1584 ≤ length bytes.old }
{
    let mut space = MemSpace::new(bytes, 512);
    let mut entries = Entries::new(&mut space, DIRS, FILES);
    entries.ready_remove(kind, entry)
}

fn answer<S: Space>(entries: &mut Entries<S>, call: Call) -> Reply
    requires tables { HoldsTables S.state entries.old }
    requires buckets { (kind : EntryKind) → (place_of entries.old kind).buckets ≡ 9 }
{
    match call {
        Call::Find(kind, parent, name) => Reply::Found(entries.find(kind, parent, &name)),
        Call::First(kind, dir) => Reply::Number(entries.first(kind, dir)),
        Call::Next(kind, entry) => Reply::Number(entries.next(kind, entry)),
        Call::Name(kind, entry) => Reply::Named(entries.name(kind, entry)),
        Call::Fields(entry) => Reply::Fields(entries.fields(entry)),
        Call::Free(kind) => Reply::Number(free_of_orderly(entries, kind)),
        Call::FindName(kind, parent, name) => match found_name(entries, kind, parent, &name) {
            Ok(Some(its)) => Reply::Named(Ok(its)),
            Ok(None) => Reply::Found(Ok(None)),
            Err(fault) => Reply::Named(Err(fault)),
        },
        Call::Counts(kind) => Reply::Counts(entries.counts(kind)),
        Call::Head(kind, bucket) => Reply::Number(entries.head(kind, bucket % 9)),
        Call::Parent(kind, entry) => Reply::Number(entries.parent(kind, entry)),
        Call::Link(kind, entry) => Reply::Number(entries.link(kind, entry)),
    }
}

/// The tables of a tree with a directory `/a`, entry 2, and a file `/a/x` of 3 bytes, entry 1.
fn tree() -> [u8; 1968] {
    let mut bytes = [0; 1968];
    // The root is in the bucket of parent 0 and no name, `/a` in that of its parent and name, and so is `/a/x`.
    set_u32(&mut bytes, 136, 1);
    set_u32(&mut bytes, 160, 2);
    set_u32(&mut bytes, 192, 1);
    // 3 of 10 directories, the root's first subdirectory, and `/a` with its first file.
    set_u32(&mut bytes, 1024, 3);
    set_u32(&mut bytes, 1028, 10);
    set_u32(&mut bytes, 1088, 2);
    set_u32(&mut bytes, 1104, 1);
    bytes[1108] = b'a';
    set_u32(&mut bytes, 1132, 1);
    // 2 of 9 files, and `/a/x`.
    set_u32(&mut bytes, 1536, 2);
    set_u32(&mut bytes, 1540, 9);
    set_u32(&mut bytes, 1584, 2);
    bytes[1588] = b'x';
    set_u32(&mut bytes, 1612, 2);
    set_u64(&mut bytes, 1616, 3);
    bytes
}

/// Makes a file's entry, with the next one in its bucket's list.
fn set_file(bytes: &mut [u8; 1968], entry: usize, parent: u32, name: &Name, link: u32)
    requires { entry < 9 }
{
    let at = 1536 + entry * 0x30;
    set_u32(bytes, at, parent);
    bytes[at + 4..at + 20].copy_from_slice(&name.0);
    set_u32(bytes, at + 0x2C, link);
}

#[test]
fn the_entries_of_a_tree_are_read(rt: HostRuntime) {
    let mut bytes = tree();
    let fields = FileFields { start: 2, wide: 3 };
    for (call, want) in [
        (Call::Find(EntryKind::Dir, 1, A), Reply::Found(Ok(Some(2)))),
        (Call::Find(EntryKind::File, 2, X), Reply::Found(Ok(Some(1)))),
        (Call::First(EntryKind::Dir, 1), Reply::Number(Ok(2))),
        (Call::Next(EntryKind::Dir, 2), Reply::Number(Ok(0))),
        (Call::First(EntryKind::Dir, 2), Reply::Number(Ok(0))),
        (Call::First(EntryKind::File, 2), Reply::Number(Ok(1))),
        (Call::Next(EntryKind::File, 1), Reply::Number(Ok(0))),
        (Call::Name(EntryKind::Dir, 2), Reply::Named(Ok(A))),
        (Call::Name(EntryKind::File, 1), Reply::Named(Ok(X))),
        (Call::Fields(1), Reply::Fields(Ok(fields))),
        (Call::Free(EntryKind::Dir), Reply::Number(Ok(7))),
        (Call::Free(EntryKind::File), Reply::Number(Ok(7))),
        (Call::FindName(EntryKind::File, 2, X), Reply::Named(Ok(X))),
        (
            Call::FindName(EntryKind::File, 1, X),
            Reply::Found(Ok(None)),
        ),
    ] {
        assert_eq!(rt; reply_to(&mut bytes, call), want);
    }
}

// Entry 1 of the files begins at 1,584: its words 0x1C and 0x20 at 1,612 and 1,616.
#[test]
fn a_files_fields_change_and_no_other_byte(rt: HostRuntime) {
    let fields = FileFields {
        start: 0x8000_0000,
        wide: 0x0102_0304_0506_0708,
    };
    let mut want = tree();
    set_u32(&mut want, 1612, 0x8000_0000);
    set_u64(&mut want, 1616, 0x0102_0304_0506_0708);
    let mut bytes = tree();
    assert_eq!(rt; set_fields_of(&mut bytes, 1, fields), Ok(()));
    assert_eq!(rt; bytes.as_slice(), want.as_slice());
    let read = reply_to(&mut bytes, Call::Fields(1));
    assert_eq!(rt; read, Reply::Fields(Ok(fields)));
}

// The file is in bucket 5, whose head stands at 192. Of directory 2 the first file stands at 1,132; the last words of
// entries 0 and 1 of the files stand at 1,580 and 1,628.
#[test]
fn a_lone_file_is_removed_and_no_other_byte_changes(rt: HostRuntime) {
    let mut want = tree();
    set_u32(&mut want, 192, 0);
    set_u32(&mut want, 1132, 0);
    set_u32(&mut want, 1580, 1);
    let mut bytes = tree();
    assert_eq!(rt; ready_in(&mut bytes, EntryKind::File, 1), Ok(()));
    assert_eq!(rt; bytes.as_slice(), tree().as_slice());
    assert_eq!(rt; remove_from(&mut bytes, EntryKind::File, 1), Ok(()));
    assert_eq!(rt; bytes.as_slice(), want.as_slice());
    let found = reply_to(&mut bytes, Call::Find(EntryKind::File, 2, X));
    assert_eq!(rt; found, Reply::Found(Ok(None)));
    let room = reply_to(&mut bytes, Call::Free(EntryKind::File));
    assert_eq!(rt; room, Reply::Number(Ok(8)));
}

// Its bucket is 6, at 160. Of the root the first directory stands at 1,088; the last words of entries 0 and 2 of the
// directories stand at 1,060 and 1,140.
#[test]
fn an_empty_directory_is_removed(rt: HostRuntime) {
    let mut bytes = tree();
    assert_eq!(rt; remove_from(&mut bytes, EntryKind::File, 1), Ok(()));
    let mut want = bytes;
    set_u32(&mut want, 160, 0);
    set_u32(&mut want, 1088, 0);
    set_u32(&mut want, 1060, 2);
    assert_eq!(rt; remove_from(&mut bytes, EntryKind::Dir, 2), Ok(()));
    assert_eq!(rt; bytes.as_slice(), want.as_slice());
}

/// The root's files 1 and 2 are in bucket 3 in this order, and in the root's list in the other. Entry 3 is freed.
fn two_files() -> [u8; 1968] {
    let mut bytes = tree();
    set_u32(&mut bytes, 192, 0);
    set_u32(&mut bytes, 1132, 0);
    set_u32(&mut bytes, 1536, 4);
    set_u32(&mut bytes, 1580, 3);
    set_u32(&mut bytes, 184, 1);
    set_u32(&mut bytes, 1092, 2);
    set_file(&mut bytes, 1, 1, &Name(*b"abcdefghijklmno0"), 2);
    set_file(&mut bytes, 2, 1, &Name(*b"abcdefghijklmno9"), 0);
    set_u32(&mut bytes, 1652, 1);
    bytes
}

#[test]
fn the_first_file_of_a_bucket_that_is_its_directorys_last_is_removed(rt: HostRuntime) {
    let mut want = two_files();
    set_u32(&mut want, 184, 2);
    set_u32(&mut want, 1652, 0);
    set_u32(&mut want, 1628, 3);
    set_u32(&mut want, 1580, 1);
    let mut bytes = two_files();
    assert_eq!(rt; remove_from(&mut bytes, EntryKind::File, 1), Ok(()));
    assert_eq!(rt; bytes.as_slice(), want.as_slice());
}

#[test]
fn the_last_file_of_a_bucket_that_is_its_directorys_first_is_removed(rt: HostRuntime) {
    let mut want = two_files();
    set_u32(&mut want, 1628, 0);
    set_u32(&mut want, 1092, 1);
    set_u32(&mut want, 1676, 3);
    set_u32(&mut want, 1580, 2);
    let mut bytes = two_files();
    assert_eq!(rt; remove_from(&mut bytes, EntryKind::File, 2), Ok(()));
    assert_eq!(rt; bytes.as_slice(), want.as_slice());
}

#[test]
fn a_list_without_an_end_keeps_its_files(rt: HostRuntime) {
    for (at, number, table, entry) in [(1628, 1, 5, 3), (1628, 4, 5, 3), (1092, 9, 2, 1)] {
        let mut bytes = two_files();
        set_u32(&mut bytes, at, number);
        let was = bytes;
        let broken = Err(EntryFault::Broken { table, entry });
        assert_eq!(rt; ready_in(&mut bytes, EntryKind::File, 2), broken);
        assert_eq!(rt; remove_from(&mut bytes, EntryKind::File, 2), broken);
        assert_eq!(rt; bytes.as_slice(), was.as_slice());
    }
}

#[test]
fn the_words_of_tables_and_buckets_are_read(rt: HostRuntime) {
    let mut bytes = freed_tree();
    for (call, want) in [
        (Call::Counts(EntryKind::Dir), Counts { count: 3, most: 10 }),
        (Call::Counts(EntryKind::File), Counts { count: 5, most: 9 }),
    ] {
        assert_eq!(rt; reply_to(&mut bytes, call), Reply::Counts(Ok(want)));
    }
    for (call, word) in [
        (Call::Head(EntryKind::Dir, 0), 1),
        (Call::Head(EntryKind::Dir, 6), 2),
        (Call::Head(EntryKind::Dir, 5), 0),
        (Call::Head(EntryKind::File, 5), 1),
        (Call::Head(EntryKind::File, 8), 0),
        (Call::Parent(EntryKind::Dir, 2), 1),
        (Call::Parent(EntryKind::File, 1), 2),
        (Call::Link(EntryKind::Dir, 0), 0),
        (Call::Link(EntryKind::File, 0), 4),
        (Call::Link(EntryKind::File, 4), 2),
        (Call::Link(EntryKind::File, 2), 3),
        (Call::Link(EntryKind::File, 3), 0),
    ] {
        assert_eq!(rt; reply_to(&mut bytes, call), Reply::Number(Ok(word)));
    }
}

#[test]
fn a_file_is_found_by_its_bucket_where_its_directory_lists_none(rt: HostRuntime) {
    let mut bytes = tree();
    set_u32(&mut bytes, 1132, 0);
    let listed = reply_to(&mut bytes, Call::First(EntryKind::File, 2));
    assert_eq!(rt; listed, Reply::Number(Ok(0)));
    let found = reply_to(&mut bytes, Call::Find(EntryKind::File, 2, X));
    assert_eq!(rt; found, Reply::Found(Ok(Some(1))));
}

#[test]
fn the_root_is_never_found(rt: HostRuntime) {
    let mut bytes = tree();
    let none = Name([0; 16]);
    let found = reply_to(&mut bytes, Call::Find(EntryKind::Dir, 0, none));
    assert_eq!(rt; found, Reply::Found(Ok(None)));
}

// In directories 2 and 9 a file `x` is in bucket 5.
#[test]
fn files_of_one_name_and_bucket_are_told_apart_by_their_parents(rt: HostRuntime) {
    let mut bytes = tree();
    set_u32(&mut bytes, 1536, 3);
    set_file(&mut bytes, 1, 2, &X, 2);
    set_file(&mut bytes, 2, 9, &X, 0);
    for (parent, entry) in [(2, Some(1)), (9, Some(2)), (1, None)] {
        let found = reply_to(&mut bytes, Call::Find(EntryKind::File, parent, X));
        assert_eq!(rt; found, Reply::Found(Ok(entry)));
    }
}

// Names that end in 0, 9 and a are in bucket 3 of directory 1.
#[test]
fn names_of_one_bucket_are_told_apart_by_their_last_byte(rt: HostRuntime) {
    let mut bytes = tree();
    set_u32(&mut bytes, 184, 1);
    set_u32(&mut bytes, 1536, 3);
    set_file(&mut bytes, 1, 1, &Name(*b"abcdefghijklmno0"), 2);
    set_file(&mut bytes, 2, 1, &Name(*b"abcdefghijklmno9"), 0);
    for (name, entry) in [
        (b"abcdefghijklmno0", Some(1)),
        (b"abcdefghijklmno9", Some(2)),
        (b"abcdefghijklmnoa", None),
    ] {
        let found = reply_to(&mut bytes, Call::Find(EntryKind::File, 1, Name(*name)));
        assert_eq!(rt; found, Reply::Found(Ok(entry)));
    }
}

#[test]
fn a_list_that_comes_back_ends_with_its_bucket_named(rt: HostRuntime) {
    let mut bytes = tree();
    set_u32(&mut bytes, 1628, 1);
    let found = reply_to(&mut bytes, Call::Find(EntryKind::File, 2, X));
    assert_eq!(rt; found, Reply::Found(Ok(Some(1))));
    let broken = EntryFault::Broken { table: 5, entry: 5 };
    let missing = reply_to(&mut bytes, Call::Find(EntryKind::File, 9, X));
    assert_eq!(rt; missing, Reply::Found(Err(broken)));
}

#[test]
fn a_number_past_the_table_ends_a_list_with_its_bucket_named(rt: HostRuntime) {
    for past in [2, 9, u32::MAX] {
        let mut bytes = tree();
        set_u32(&mut bytes, 192, past);
        let broken = EntryFault::Broken { table: 5, entry: 5 };
        let found = reply_to(&mut bytes, Call::Find(EntryKind::File, 2, X));
        assert_eq!(rt; found, Reply::Found(Err(broken)));
    }
    let mut bytes = tree();
    set_u32(&mut bytes, 160, 3);
    let broken = EntryFault::Broken { table: 4, entry: 6 };
    let found = reply_to(&mut bytes, Call::Find(EntryKind::Dir, 1, A));
    assert_eq!(rt; found, Reply::Found(Err(broken)));
}

/// Of 5 files, entries 4, 2 and 3 are freed, in this order.
fn freed_tree() -> [u8; 1968] {
    let mut bytes = tree();
    set_u32(&mut bytes, 1536, 5);
    set_u32(&mut bytes, 1580, 4);
    set_u32(&mut bytes, 1772, 2);
    set_u32(&mut bytes, 1676, 3);
    bytes
}

#[test]
fn freed_entries_can_be_added_again(rt: HostRuntime) {
    let mut bytes = freed_tree();
    let room = reply_to(&mut bytes, Call::Free(EntryKind::File));
    assert_eq!(rt; room, Reply::Number(Ok(7)));
}

#[test]
fn a_freed_entry_that_names_a_wrong_number_is_named(rt: HostRuntime) {
    for (at, number, entry) in [(1724, 5, 3), (1724, 3, 3), (1580, 5, 0), (1772, 9, 4)] {
        let mut bytes = freed_tree();
        set_u32(&mut bytes, at, number);
        let room = reply_to(&mut bytes, Call::Free(EntryKind::File));
        assert_eq!(rt;
            room,
            Reply::Number(Err(EntryFault::Broken { table: 3, entry }))
        );
    }
}

// Of freed entries 4, 2 and 3 one names itself or one before it.
#[test]
fn a_freed_entry_that_names_an_earlier_one_is_named(rt: HostRuntime) {
    for (at, number, entry) in [(1724, 4, 3), (1724, 2, 3), (1676, 4, 2), (1772, 4, 4)] {
        let mut bytes = freed_tree();
        set_u32(&mut bytes, at, number);
        let room = reply_to(&mut bytes, Call::Free(EntryKind::File));
        assert_eq!(rt;
            room,
            Reply::Number(Err(EntryFault::Broken { table: 3, entry }))
        );
    }
}

#[test]
fn the_root_is_never_freed(rt: HostRuntime) {
    let mut bytes = tree();
    set_u32(&mut bytes, 1060, 1);
    let broken = EntryFault::Broken { table: 2, entry: 0 };
    let room = reply_to(&mut bytes, Call::Free(EntryKind::Dir));
    assert_eq!(rt; room, Reply::Number(Err(broken)));
}

/// A space of 4,096 places that tells nothing of its cells, and lends one byte at each place.
#[derive(Drop)]
struct Untold {
    byte: [u8; 1],
}

impl Space for Untold {
    ghost state = { λ _. untold_state };

    ghost keeps = { λ _ _ _. Unit {0} };

    ghost lands = { λ _ _ _. Unit {0} };

    ghost size_fits = { λ _ _. lit< tt };

    ghost plain_bytes = { λ _ plain _ _. absurd (false≢true plain) };

    ghost no_twins = { λ _ _. record { apart = λ x y same. same; free = λ x. refl } };

    ghost keeps_same = { λ _ _. tt };

    ghost keeps_join = { λ _ _ _ _ _ _. tt };

    ghost keeps_hold = { λ _ _ _. tt };

    ghost keeps_shape = { λ _ _ _. refl };

    ghost keeps_cells = { λ _ _ _ _ told. absurd (false≢true told) };

    ghost keeps_lands = { λ _ _ _ _ told. absurd (false≢true told) };

    fn len(&self) -> u64 {
        4096
    }

    fn piece(&mut self, _at: u64, _most: usize) -> Result<&[u8], Bad> {
        Ok(&self.byte)
    }

    fn ready(&mut self, _at: u64, _n: u64) -> Result<(), Bad> {
        Err(Bad::Disk)
    }

    fn put(&mut self, _at: u64, _bytes: &[u8]) -> Result<(), Bad> {
        Err(Bad::Disk)
    }
}

fn answer_untold(byte: u8, call: Call) -> Reply {
    let mut space = Untold { byte: [byte] };
    let mut entries = Entries::new(&mut space, DIRS, FILES);
    answer(&mut entries, call)
}

// Where each byte is 0 a table has no entry, not even entry 0; where each is 1 each number is 16,843,009.
#[test]
fn each_call_returns_over_a_space_that_tells_nothing(rt: HostRuntime) {
    let broken = EntryFault::Broken { table: 5, entry: 5 };
    let no_freed = EntryFault::Broken { table: 2, entry: 0 };
    for (byte, call, want) in [
        (
            0,
            Call::Find(EntryKind::File, 2, X),
            Reply::Found(Err(broken)),
        ),
        (
            1,
            Call::Find(EntryKind::File, 2, X),
            Reply::Found(Err(broken)),
        ),
        (0, Call::Free(EntryKind::Dir), Reply::Number(Err(no_freed))),
        (1, Call::Free(EntryKind::Dir), Reply::Number(Err(no_freed))),
        (
            1,
            Call::First(EntryKind::Dir, 1),
            Reply::Number(Ok(0x0101_0101)),
        ),
        (
            1,
            Call::Next(EntryKind::Dir, u32::MAX),
            Reply::Number(Ok(0)),
        ),
        (
            1,
            Call::Name(EntryKind::File, 1),
            Reply::Named(Ok(Name([1; 16]))),
        ),
        (
            1,
            Call::Name(EntryKind::File, 1000),
            Reply::Named(Ok(Name([0; 16]))),
        ),
    ] {
        assert_eq!(rt; answer_untold(byte, call), want);
    }
}
