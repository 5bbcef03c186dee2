//! The lines that are said of an image, put together in a fixed room.

ghost use Rattle.std.specs.Prelude.{◌≡◌, ◌+◌, ◌≤◌, [], ◌∷◌, ◌++◌, length, codes, if◌then◌else◌, ◌==◌};
ghost use Rattle.std.specs.Fmt.{decimal};
ghost use Rattle.hex.specs.Hex.{encode_lower};
ghost use Rattle.arrayvec.specs.ArrayVec.{array_vec_len};
ghost use Rattle.save_top.specs.Texts.{number_line, pair_line, triple_line, extent_line, kind_line};
ghost use Rattle.save_top.specs.Texts.{active_line, table_lines, part_lines, unique_line, info_text};
ghost use Rattle.save_top.specs.Texts.{fault_line, difi_line, open_fault_line, no_part_line, no_block_line};
ghost use Rattle.save_top.specs.Texts.{damaged_line};

use arrayvec::ArrayVec;
use container::OpenFault;
use container_header::{Extent, Header, HeaderFault, Kind};
use difi::DifiFault;
use itoa::Buffer;

/// More bytes than the longest text of `info` has.
pub const ROOM: usize = 512;

pub fn put(out: &mut ArrayVec<u8, ROOM>, bytes: &[u8])
    requires { array_vec_len out.old + length bytes.now ≤ ROOM }
    ensures { out.new.items ≡ out.old.items ++ bytes.now }
{
    let _ = out.try_extend_from_slice(bytes);
}

fn put_number(out: &mut ArrayVec<u8, ROOM>, n: u64)
    requires { array_vec_len out.old + 20 ≤ ROOM }
    ensures text { out.new.items ≡ out.old.items ++ decimal n }
    ensures room { array_vec_len out.new ≤ array_vec_len out.old + 20 }
{
    let mut digits = Buffer::new();
    put(out, digits.format(n).as_bytes());
}

// A name, a number and a line feed.
fn put_number_line(out: &mut ArrayVec<u8, ROOM>, name: &[u8], number: u64)
    requires { array_vec_len out.old + length name.now + 21 ≤ ROOM }
    ensures text { out.new.items ≡ out.old.items ++ number_line name.now number }
    ensures room { array_vec_len out.new ≤ array_vec_len out.old + length name.now + 21 }
{
    put(out, name);
    put_number(out, number);
    put(out, b"\n");
}

// A name, two numbers and a line feed.
fn put_pair(out: &mut ArrayVec<u8, ROOM>, name: &[u8], first: u64, second: u64)
    requires { array_vec_len out.old + length name.now + 42 ≤ ROOM }
    ensures text { out.new.items ≡ out.old.items ++ pair_line name.now first second }
    ensures room { array_vec_len out.new ≤ array_vec_len out.old + length name.now + 42 }
{
    put(out, name);
    put_number(out, first);
    put(out, b" ");
    put_number(out, second);
    put(out, b"\n");
}

/// Puts a name, three numbers and a line feed.
pub fn put_triple(out: &mut ArrayVec<u8, ROOM>, name: &[u8], first: u64, second: u64, third: u64)
    requires { array_vec_len out.old + length name.now + 63 ≤ ROOM }
    ensures text { out.new.items ≡ out.old.items ++ triple_line name.now first second third }
    ensures room { array_vec_len out.new ≤ array_vec_len out.old + length name.now + 63 }
{
    put(out, name);
    put_number(out, first);
    put(out, b" ");
    put_pair(out, b"", second, third);
}

fn put_extent(out: &mut ArrayVec<u8, ROOM>, name: &[u8], extent: Extent)
    requires { array_vec_len out.old + length name.now + 42 ≤ ROOM }
    ensures text { out.new.items ≡ out.old.items ++ extent_line name.now extent.at extent.size }
    ensures room { array_vec_len out.new ≤ array_vec_len out.old + length name.now + 42 }
{
    put_pair(out, name, extent.at, extent.size);
}

fn put_kind(out: &mut ArrayVec<u8, ROOM>, kind: Kind)
    requires { array_vec_len out.old + 10 ≤ ROOM }
    ensures text { out.new.items ≡ out.old.items ++ kind_line kind }
    ensures room { array_vec_len out.new ≤ array_vec_len out.old + 10 }
{
    match kind {
        Kind::Disa => put(out, b"kind DISA\n"),
        Kind::Diff => put(out, b"kind DIFF\n"),
    }
}

fn put_active(out: &mut ArrayVec<u8, ROOM>, active: u8)
    requires { array_vec_len out.old + 17 ≤ ROOM }
    ensures text { out.new.items ≡ out.old.items ++ active_line active }
    ensures room { array_vec_len out.new ≤ array_vec_len out.old + 17 }
{
    if active == 0 {
        put(out, b"active primary\n");
    } else {
        put(out, b"active secondary\n");
    }
}

fn put_table(out: &mut ArrayVec<u8, ROOM>, header: &Header)
    requires { array_vec_len out.old + 65 ≤ ROOM }
    ensures text { out.new.items ≡ out.old.items ++ table_lines header.now }
    ensures room { array_vec_len out.new ≤ array_vec_len out.old + 65 }
{
    put_active(out, header.active);
    let at = header.active_table();
    let size = header.table_size;
    put_extent(out, b"table ", Extent { at, size });
}

fn put_parts(out: &mut ArrayVec<u8, ROOM>, header: &Header)
    requires { array_vec_len out.old + 98 ≤ ROOM }
    ensures text { out.new.items ≡ out.old.items ++ part_lines header.now }
    ensures room { array_vec_len out.new ≤ array_vec_len out.old + 98 }
{
    put_extent(out, b"part A ", header.part_a);
    if header.parts == 2 {
        put_extent(out, b"part B ", header.part_b);
    }
}

fn put_unique(out: &mut ArrayVec<u8, ROOM>, kind: Kind, unique: u64)
    requires { array_vec_len out.old + 28 ≤ ROOM }
    ensures text { out.new.items ≡ out.old.items ++ unique_line kind unique }
    ensures room { array_vec_len out.new ≤ array_vec_len out.old + 28 }
{
    if kind == Kind::Diff {
        put(out, b"unique ");
        put_number(out, unique);
        put(out, b"\n");
    }
}

fn put_hash(out: &mut ArrayVec<u8, ROOM>, hash: &[u8; 32])
    requires { array_vec_len out.old + 70 ≤ ROOM }
    ensures { out.new.items ≡ out.old.items ++ codes "hash " ++ encode_lower hash.now ++ codes "\n" }
{
    let mut digits = [0; 64];
    let _ = hex::encode_to_slice(hash, &mut digits);
    put(out, b"hash ");
    put(out, &digits);
    put(out, b"\n");
}

/// Puts the lines of `info` on a sound image into an empty room.
#[tactic(auto, unfolding(crate::specs::Texts::info_text))]
pub fn put_info(out: &mut ArrayVec<u8, ROOM>, header: &Header)
    requires { out.old.items ≡ [] }
    ensures { out.new.items ≡ info_text header.now }
{
    put_kind(out, header.kind);
    put_table(out, header);
    put_parts(out, header);
    put_unique(out, header.kind, header.unique);
    put_hash(out, &header.hash);
}

/// Puts the line on a header's fault into an empty room.
pub fn put_fault(out: &mut ArrayVec<u8, ROOM>, fault: HeaderFault)
    requires { out.old.items ≡ [] }
    ensures { out.new.items ≡ fault_line fault }
{
    match fault {
        HeaderFault::NotImage => put(out, b"refused NotImage\n"),
        HeaderFault::Version => put(out, b"refused Version\n"),
        HeaderFault::Layout { condition } => {
            put_number_line(out, b"refused Layout ", u64::from(condition));
        }
    }
}

// The bytes in two digits each.
fn put_digits(out: &mut ArrayVec<u8, ROOM>, bytes: &[u8; 16])
    requires { array_vec_len out.old + 32 ≤ ROOM }
    ensures text { out.new.items ≡ out.old.items ++ encode_lower bytes.now }
    ensures room { array_vec_len out.new ≤ array_vec_len out.old + 32 }
{
    let mut digits = [0; 32];
    let _ = hex::encode_to_slice(bytes, &mut digits);
    put(out, &digits);
}

fn put_tags(out: &mut ArrayVec<u8, ROOM>, want: &[u8; 16], found: &[u8; 16])
    requires { out.old.items ≡ [] }
    ensures { out.new.items ≡ codes "refused Tag " ++ encode_lower want.now ++ codes " " ++ encode_lower found.now ++ codes "\n" }
{
    put(out, b"refused Tag ");
    put_digits(out, want);
    put(out, b" ");
    put_digits(out, found);
    put(out, b"\n");
}

fn put_difi_fault(out: &mut ArrayVec<u8, ROOM>, part: u8, fault: DifiFault)
    requires { out.old.items ≡ [] }
    ensures { out.new.items ≡ difi_line part fault }
{
    let part = u64::from(part);
    match fault {
        DifiFault::Magic { which } => {
            put_pair(out, b"refused DifiMagic ", part, u64::from(which));
        }
        DifiFault::Version { which } => {
            put_pair(out, b"refused DifiVersion ", part, u64::from(which));
        }
        DifiFault::Layout { condition } => {
            put_pair(out, b"refused DifiLayout ", part, u64::from(condition));
        }
    }
}

/// Puts the line on what kept an image from being opened into an empty room. Of want of memory and a
/// failed disk nothing is said.
pub fn put_open_fault(out: &mut ArrayVec<u8, ROOM>, fault: &OpenFault)
    requires { out.old.items ≡ [] }
    ensures { out.new.items ≡ open_fault_line fault.now }
{
    match fault {
        OpenFault::Memory | OpenFault::Disk => {}
        OpenFault::Header(fault) => put_fault(out, *fault),
        OpenFault::Tag { want, found } => put_tags(out, want, found),
        OpenFault::TableHash => put(out, b"refused TableHash\n"),
        OpenFault::Difi { part, fault } => put_difi_fault(out, *part, *fault),
    }
}

/// Puts the line on a part that is not there into an empty room: the image has `have` of them.
pub fn put_no_part(out: &mut ArrayVec<u8, ROOM>, have: u64)
    requires { out.old.items ≡ [] }
    ensures { out.new.items ≡ no_part_line have }
{
    put_number_line(out, b"refused NoPart ", have);
}

/// Puts the line on a block that is not there into an empty room: the part has `have` of them.
pub fn put_no_block(out: &mut ArrayVec<u8, ROOM>, have: u64)
    requires { out.old.items ≡ [] }
    ensures { out.new.items ≡ no_block_line have }
{
    put_number_line(out, b"refused NoBlock ", have);
}

/// Puts the line on a damaged block into an empty room: the part, the level of its hash tree from 1 to
/// 4, and the block on that level, of which the part and the block are counted from 0.
pub fn put_damaged(out: &mut ArrayVec<u8, ROOM>, part: u64, level: u64, block: u64)
    requires { out.old.items ≡ [] }
    ensures { out.new.items ≡ damaged_line part level block }
{
    put_triple(out, b"refused Damaged ", part, level, block);
}
