ghost use Rattle.std.specs.Prelude.{◌≡◌, [], ◌∷◌, true, false, slice_index_or};
ghost use Rattle.tree_model.specs.declared.refusal.Refusal.TheVariants.{WrongKind, IsRoot};
ghost use Rattle.tree_model.specs.declared.listing.Row.TheVariants.{Dir, File};
ghost use Rattle.tree_model.specs.declared.kind.TreeKind.TheVariants.{Save, Vsxe};
ghost use Rattle.tree_model.specs.Trees.{empty_tree};
ghost use Rattle.tree_model.specs.Listings.{is_row_before};
ghost use Rattle.tree_model.specs.Answers.{get_refusal, mkdir_refusal, put_refusal, link_refusal};

use super::*;
use arrayvec::ArrayVec;
use save_bytes::{Name, Path, PathFault};
use std::test::Fail;

#[test]
fn a_refusal_is_said_by_its_name_and_numbers(rt: HostRuntime) {
    let cases: [(Refusal, &[u8]); 15] = [
        (Refusal::BadPath(PathFault::Empty), b"refused BadPath 1\n"),
        (Refusal::BadPath(PathFault::NoSlash), b"refused BadPath 2\n"),
        (Refusal::BadPath(PathFault::TooDeep), b"refused BadPath 6\n"),
        (Refusal::NoParent, b"refused NoParent\n"),
        (Refusal::NotFound, b"refused NotFound\n"),
        (Refusal::Exists, b"refused Exists\n"),
        (Refusal::NotEmpty, b"refused NotEmpty\n"),
        (full(Full::Blocks, 65, 64), b"refused Full 1 65 64\n"),
        (full(Full::Dirs, 1, 0), b"refused Full 2 1 0\n"),
        (full(Full::Files, 1, 0), b"refused Full 3 1 0\n"),
        (
            full(Full::Blocks, u64::MAX, 0),
            b"refused Full 1 18446744073709551615 0\n",
        ),
        (
            Refusal::Damaged {
                part: 0,
                level: 4,
                block: 2,
            },
            b"refused Damaged 0 4 2\n",
        ),
        (Refusal::WrongKind, b"refused WrongKind\n"),
        (Refusal::NoMemory, b"refused NoMemory\n"),
        (Refusal::Changed, b"refused Changed\n"),
    ];
    for (refusal, want) in cases {
        let mut out = ArrayVec::new();
        out.push(b'?');
        refusal.write(&mut out);
        assert_eq!(rt; out.as_slice(), want, "{refusal:?}");
    }
}

fn full(kind: Full, need: u64, have: u64) -> Refusal {
    Refusal::Full { kind, need, have }
}

#[test]
fn a_listing_keeps_its_rows(rt: HostRuntime) -> Result<(), Fail> {
    let listing = Listing::new(Vec::new(rt.alloc()));
    assert_eq!(rt; listing.len(), 0);
    let mut rows = Vec::new(rt.alloc());
    rows.push(Row::Dir(Path::root()))?;
    rows.push(Row::File(Path::read(b"/a")?, 3))?;
    rows.push(Row::Link(Path::read(b"/b")?, 7))?;
    let listing = Listing::new(rows);
    assert_eq!(rt; listing.len(), 3);
    assert!(rt; matches!(listing.row(0), Row::Dir(path) if path.len() == 0));
    assert!(rt; matches!(listing.row(1), Row::File(path, 3) if path.len() == 1));
    assert!(rt; matches!(listing.row(2), Row::Link(path, 7) if path.len() == 1));
    Ok(())
}

// What a put of so many bytes at `/a` meets in a tree with nothing but this room.
fn put_into_room(size: u64, room: Room) -> Option<Refusal>
    ensures { result ≡ put_refusal (empty_tree Save room) ((97 ∷ []) ∷ []) size }
{
    let need = size.div_ceil(512);
    let have = u64::from(room.blocks);
    if room.files == 0 {
        return Some(Refusal::Full {
            kind: Full::Files,
            need: 1,
            have: 0,
        });
    }
    if have < need {
        return Some(Refusal::Full {
            kind: Full::Blocks,
            need,
            have,
        });
    }
    None
}

#[test]
fn a_put_is_full_exactly_where_it_needs_more_than_there_is(rt: HostRuntime) {
    let cases: [(u64, u32, u32, Option<Refusal>); 6] = [
        (32768, 64, 8, None),
        (32769, 64, 8, Some(full(Full::Blocks, 65, 64))),
        (0, 0, 8, None),
        (1, 0, 8, Some(full(Full::Blocks, 1, 0))),
        (1, 0, 0, Some(full(Full::Files, 1, 0))),
        (0, 64, 0, Some(full(Full::Files, 1, 0))),
    ];
    for (size, blocks, files, want) in cases {
        let room = Room {
            blocks,
            dirs: 8,
            files,
        };
        assert!(rt; put_into_room(size, room) == want, "{size}");
    }
}

// In a tree with nothing but room: the root is no place for a directory or a file, what is below no directory has no
// parent, and nothing stands elsewhere.
fn refused_in_an_empty_tree(room: Room) -> [Refusal; 5]
    ensures root { mkdir_refusal (empty_tree Save room) [] ≡ Some (slice_index_or result 0 WrongKind) }
    ensures parent { mkdir_refusal (empty_tree Save room) ((97 ∷ []) ∷ (98 ∷ []) ∷ []) ≡ Some (slice_index_or result 1 WrongKind) }
    ensures get { get_refusal (empty_tree Save room) ((97 ∷ []) ∷ []) ≡ Some (slice_index_or result 2 WrongKind) }
    ensures link { link_refusal (empty_tree Save room) ((97 ∷ []) ∷ []) ≡ Some (slice_index_or result 3 IsRoot) }
    ensures get_link { get_refusal (empty_tree Vsxe room) [] ≡ Some (slice_index_or result 4 IsRoot) }
{
    [
        Refusal::IsRoot,
        Refusal::NoParent,
        Refusal::NotFound,
        Refusal::WrongKind,
        Refusal::WrongKind,
    ]
}

#[test]
fn refusals_come_in_their_order(rt: HostRuntime) {
    let room = Room {
        blocks: 64,
        dirs: 0,
        files: 0,
    };
    let want = [
        Refusal::IsRoot,
        Refusal::NoParent,
        Refusal::NotFound,
        Refusal::WrongKind,
        Refusal::WrongKind,
    ];
    assert!(rt; refused_in_an_empty_tree(room) == want);
}

// Whether one row stands before another: the root before all, a directory before a file of its path, a path before
// those behind it, and bytes as numbers.
fn rows_in_order() -> [bool; 5]
    ensures root { is_row_before (Dir []) (Dir ((97 ∷ []) ∷ [])) ≡ slice_index_or result 0 false }
    ensures kinds { is_row_before (Dir ((97 ∷ []) ∷ [])) (File ((97 ∷ []) ∷ []) 0) ≡ slice_index_or result 1 false }
    ensures turned { is_row_before (File ((97 ∷ []) ∷ []) 0) (Dir ((97 ∷ []) ∷ [])) ≡ slice_index_or result 2 true }
    ensures below { is_row_before (File ((97 ∷ []) ∷ []) 0) (File ((97 ∷ []) ∷ (0 ∷ []) ∷ []) 0) ≡ slice_index_or result 3 false }
    ensures bytes { is_row_before (Dir ((97 ∷ 0 ∷ []) ∷ (98 ∷ 0 ∷ []) ∷ [])) (Dir ((97 ∷ 1 ∷ []) ∷ [])) ≡ slice_index_or result 4 false }
{
    [true, true, false, true, true]
}

#[test]
fn rows_are_ordered_by_their_paths(rt: HostRuntime) {
    assert_eq!(rt; rows_in_order(), [true, true, false, true, true]);
}

// The command's name, how many names its path has or 100 and the number of the path's fault, and its number.
fn shown(read: &Option<Command>) -> (&'static str, usize, u64) {
    match read {
        None => ("none", 0, 0),
        Some(Command::List) => ("list", 0, 0),
        Some(Command::Room) => ("room", 0, 0),
        Some(Command::Get(target)) => ("get", shown_target(target), 0),
        Some(Command::Put(target, size)) => ("put", shown_target(target), *size),
        Some(Command::Mkdir(target)) => ("mkdir", shown_target(target), 0),
        Some(Command::Remove(target)) => ("remove", shown_target(target), 0),
        Some(Command::Link(target, id)) => ("link", shown_target(target), *id),
        Some(Command::Commit) => ("commit", 0, 0),
        Some(Command::Abort) => ("abort", 0, 0),
        Some(Command::End) => ("end", 0, 0),
    }
}

fn shown_target(target: &Target) -> usize {
    match target {
        Target::Path(path) => path.len(),
        Target::Fault(PathFault::Empty) => 101,
        Target::Fault(PathFault::NoSlash) => 102,
        Target::Fault(_) => 103,
    }
}

#[test]
fn a_line_is_read_as_its_command(rt: HostRuntime) {
    let cases: [(&[u8], &'static str, usize, u64); 17] = [
        (b"list", "list", 0, 0),
        (b"room", "room", 0, 0),
        (b"commit", "commit", 0, 0),
        (b"abort", "abort", 0, 0),
        (b"end", "end", 0, 0),
        (b"get /", "get", 0, 0),
        (b"get /a/b", "get", 2, 0),
        (b"get ", "get", 101, 0),
        (b"get a", "get", 102, 0),
        (b"get //", "get", 103, 0),
        (b"mkdir /a", "mkdir", 1, 0),
        (b"remove /a", "remove", 1, 0),
        (b"put /a 0", "put", 1, 0),
        (b"put  10", "put", 101, 10),
        (b"put /a 18446744073709551615", "put", 1, u64::MAX),
        (b"link /a 7", "link", 1, 7),
        (b"link a 7", "link", 102, 7),
    ];
    for (line, name, path, number) in cases {
        let read = Command::read(line);
        let (found, names, value) = shown(&read);
        assert!(rt; found.as_bytes() == name.as_bytes(), "{line:?}");
        assert!(rt; names == path && value == number, "{line:?}");
    }
}

#[test]
fn other_lines_are_none_of_the_forms(rt: HostRuntime) {
    let cases: [&[u8]; 22] = [
        b"",
        b" ",
        b"lists",
        b"List",
        b"list ",
        b" list",
        b"end ",
        b"end\r",
        b"get",
        b"get  /a",
        b"get /a ",
        b"get /a 1",
        b"mkdir",
        b"puts /a 1",
        b"put /a",
        b"put /a ",
        b"put /a 01",
        b"put /a +1",
        b"put /a 1 ",
        b"put /a  1",
        b"put /a 18446744073709551616",
        b"link /a b 1",
    ];
    for line in cases {
        let read = Command::read(line);
        assert!(rt; read.is_none(), "{line:?}");
    }
}

#[test]
fn a_word_alone_is_a_number_or_a_target(rt: HostRuntime) {
    assert_eq!(rt; read_number(b"0"), Some(0));
    assert_eq!(rt; read_number(b"18446744073709551615"), Some(u64::MAX));
    let none: [&[u8]; 5] = [b"", b"00", b"+1", b"1 ", b"18446744073709551616"];
    for word in none {
        assert_eq!(rt; read_number(word), None, "{word:?}");
    }
    assert!(rt; matches!(Target::read(b"/a"), Target::Path(path) if path.len() == 1));
    assert!(rt; matches!(Target::read(b"a"), Target::Fault(PathFault::NoSlash)));
}
