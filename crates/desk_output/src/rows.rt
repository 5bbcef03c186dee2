//! Saying the rows of a tree.

ghost use Rattle.std.specs.Prelude.{◌≡◌, ◌+◌, ◌≤◌, ◌++◌, length, OnOk, OnErr};
ghost use Rattle.std.specs.List.{flat_map};
ghost use Rattle.arrayvec.specs.ArrayVec.{array_vec_len};
ghost use Rattle.save_bytes.specs.Paths.{path_text};
ghost use Rattle.save_disk.specs.State.{IsSteady, HasCause};
ghost use Rattle.save_disk.specs.Tells.{Tells};
ghost use Rattle.tree_model.specs.Lines.{number_text};
ghost use Rattle.tree_model.specs.Transcripts.{row_line};
ghost use Rattle.desk_output.specs.Output.{SaysAll, SaysFront, SaysBefore, HasOnlySaid};

use crate::voice::say_all;
use arrayvec::ArrayVec;
use itoa::Buffer;
use save_bytes::Path;
use save_disk::{Desk, Failed};
use tree_model::Row;

/// The most bytes that the sink is given at once.
const PIECE: usize = 16384;

/// The most bytes of a path's text.
const PATH: usize = 4160;

/// The most bytes of a row's line: its name, a path, and a number of up to twenty digits behind a space.
const LINE: usize = PATH + 27;

/// Says the line of each row, in pieces of up to 16 KiB.
pub fn say_rows<D: Desk>(desk: &mut D, rows: &[Row]) -> Result<(), Failed>
    ensures whole { OnOk result (Tells (SaysAll (flat_map row_line rows.now)) (D.state desk.old) (D.state desk.new)) }
    ensures cut { OnErr result (Tells (SaysFront (flat_map row_line rows.now)) (D.state desk.old) (D.state desk.new)) }
    ensures only { HasOnlySaid (D.state desk.old).told (D.state desk.new).told }
    ensures steady { IsSteady (D.state desk.old) (D.state desk.new) }
    ensures cause { HasCause (D.state desk.old).counts.sink (D.state desk.new).counts.sink result }
{
    let mut pending = ArrayVec::new();
    for row in rows {
        make_room(desk, &mut pending)?;
        put_row(&mut pending, row);
    }
    say_all(desk, pending.as_slice())
}

// Says what is pending, unless a line fits behind it.
fn make_room<D: Desk>(desk: &mut D, pending: &mut ArrayVec<u8, PIECE>) -> Result<(), Failed>
    ensures room { OnOk result (array_vec_len pending.new + LINE ≤ PIECE) }
    ensures said { OnOk result (Tells (SaysBefore pending.new.items pending.old.items) (D.state desk.old)
        (D.state desk.new)) }
    ensures cut { OnErr result (Tells (SaysFront pending.old.items) (D.state desk.old) (D.state desk.new)) }
    ensures only { HasOnlySaid (D.state desk.old).told (D.state desk.new).told }
    ensures steady { IsSteady (D.state desk.old) (D.state desk.new) }
    ensures cause { HasCause (D.state desk.old).counts.sink (D.state desk.new).counts.sink result }
{
    if pending.remaining_capacity() < LINE {
        say_all(desk, pending.as_slice())?;
        pending.clear();
    }
    Ok(())
}

// Adds the line of a row.
fn put_row(out: &mut ArrayVec<u8, PIECE>, row: &Row)
    requires { array_vec_len out.old + LINE ≤ PIECE }
    ensures { out.new.items ≡ out.old.items ++ row_line row.now }
{
    match row {
        Row::Dir(path) => {
            put(out, b"dir ");
            put_path(out, path);
        }
        Row::File(path, size) => {
            put(out, b"file ");
            put_path(out, path);
            put_number(out, *size);
        }
        Row::Link(path, id) => {
            put(out, b"link ");
            put_path(out, path);
            put_number(out, *id);
        }
    }
    put(out, b"\n");
}

// Adds the text of a path.
fn put_path(out: &mut ArrayVec<u8, PIECE>, path: &Path)
    requires { array_vec_len out.old + PATH ≤ PIECE }
    ensures text { out.new.items ≡ out.old.items ++ path_text path.now }
    ensures room { array_vec_len out.new ≤ array_vec_len out.old + PATH }
{
    let mut text = ArrayVec::new();
    path.write(&mut text);
    put(out, text.as_slice());
}

// Adds a space and a number.
fn put_number(out: &mut ArrayVec<u8, PIECE>, n: u64)
    requires { array_vec_len out.old + 21 ≤ PIECE }
    ensures text { out.new.items ≡ out.old.items ++ number_text n }
    ensures room { array_vec_len out.new ≤ array_vec_len out.old + 21 }
{
    let mut digits = Buffer::new();
    put(out, b" ");
    put(out, digits.format(n).as_bytes());
}

// Adds bytes.
fn put(out: &mut ArrayVec<u8, PIECE>, bytes: &[u8])
    requires { array_vec_len out.old + length bytes.now ≤ PIECE }
    ensures { out.new.items ≡ out.old.items ++ bytes.now }
{
    let _ = out.try_extend_from_slice(bytes);
}
