//! Paths in a tree, and the texts that stand for them.

ghost use Rattle.std.specs.Prelude.{◌≡◌, ◌≢◌, ℕ, ◌+◌, ◌/◌, ◌%◌, ◌<◌, ◌≤◌, ◌↔◌, List, [], ◌∷◌, ◌++◌, length, replicate};
ghost use Rattle.std.specs.Prelude.{slice_get, slice_index, drop, Some, None, Ok, Err, IsSome, IfSome, MatchResult};
ghost use Rattle.std.specs.Option.{option_map, option_to_list};
ghost use Rattle.std.specs.Char.{digit_char};
ghost use Rattle.std.specs.List.{flat_map};
ghost use Rattle.arrayvec.specs.ArrayVec.{array_vec_len};
ghost use Rattle.save_bytes.specs.Paths.{IsName, IsPath, IsPathText, is_plain, byte_text, last_used, name_text, path_text};
ghost use Rattle.save_bytes.specs.PathFaults.{is_name_end, IsFirstPathFault};
ghost use Rattle.save_bytes.specs.PathReading.{escape_from, name_from, names_from, path_from, IsByteTaken, IsNameTaken};

use crate::name::Name;
use arrayvec::ArrayVec;
use std::marker::Model;

/// The most names that a path has.
const MOST: usize = 64;

/// Why a text stands for no path: the first fault from the left.
#[derive(Clone, Copy, Debug, PartialEq, Eq)]
pub enum PathFault {
    /// There is no byte.
    Empty,
    /// The first byte is no `/`.
    NoSlash,
    /// A name ends that has no byte but zeros.
    EmptyName,
    /// A name has a 17th byte.
    LongName,
    /// A byte that does not stand for itself, or an escape without its two digits.
    BadEscape,
    /// A 65th name begins.
    TooDeep,
}

/// The names from the root to a place in a tree. Contracts see it as the list of their bytes.
#[derive(Debug, Drop)]
pub struct Path {
    names: ArrayVec<Name, MOST>,
}

impl Model for Path {
    ghost use Rattle.std.specs.Prelude.{List, ℕ, map};
    ghost use Rattle.save_bytes.specs.Paths.{IsPath};

    ghost Value = { List (List ℕ) };

    ghost view = { λ p. map (λ name. name.0) p.names.items };

    ghost invariant = { λ p. IsPath (map (λ name. name.0) p.names.items) };
}

impl Path {
    /// The path of the root, which has no name.
    pub fn root() -> Path
        ensures { result ≡ [] }
    {
        Path {
            names: ArrayVec::new(),
        }
    }

    /// How many names there are.
    pub fn len(&self) -> usize
        ensures len { result ≡ length self.now }
        ensures path { IsPath self.now }
    {
        self.names.len()
    }

    /// Name `i`, counted from 0.
    pub fn name(&self, i: usize) -> Name
        requires { i < length self.now }
        ensures name { slice_get self.now i ≡ Some result.0 }
        ensures named { IsName result.0 }
    {
        self.names[i]
    }

    /// Adds a last name.
    pub fn push(&mut self, name: Name)
        requires room { length self.old < 64 }
        requires some { name.0 ≢ replicate 16 0 }
        ensures { self.new ≡ self.old ++ name.0 ∷ [] }
    {
        let _ = bytes_of(&name);
        self.names.push(name);
    }

    /// Takes the last name away. The root's path has none.
    pub fn pop(&mut self) -> Option<Name>
        ensures names { self.old ≡ self.new ++ option_to_list (option_map (λ name. name.0) result) }
        ensures some { IsSome result ↔ (0 < length self.old) }
    {
        self.names.pop()
    }

    /// The path that a text stands for: `/` alone for the root, else `/` and a name, once or more. The bytes 0x21 to
    /// 0x7E stand for themselves, but for `/` and `\`. A `\x` and two hexadecimal digits stand for any byte. A name
    /// is filled with zeros to 16 bytes.
    pub fn read(text: &[u8]) -> Result<Path, PathFault>
        ensures ok { (names : List (List ℕ)) → (result ≡ Ok names) ↔ IsPathText names text.now }
        ensures err { (fault : PathFault) → (result ≡ Err fault) ↔ IsFirstPathFault text.now fault }
    {
        read_path(text)
    }

    /// Replaces `out` by the path's canonical text: without the zeros at a name's end, escaped only where needed,
    /// and with lower-case digits. `read` of it gives the path.
    pub fn write(&self, out: &mut ArrayVec<u8, 4160>)
        ensures text { out.new.items ≡ path_text self.now }
        ensures read { IsPathText self.now out.new.items }
    {
        out.clear();
        if self.names.is_empty() {
            out.push(b'/');
        } else {
            put_names(out, self.names.as_slice());
        }
    }
}

// A name's sixteen bytes.
fn bytes_of(name: &Name) -> &[u8]
    ensures value { result.now ≡ name.now.0 }
    ensures long { length name.now.0 ≡ 16 }
    ensures bytes { (k : ℕ) → slice_index name.now.0 k < 256 }
{
    known_bytes(&name.0)
}

// Each number of a slice of bytes is one.
fn known_bytes(bytes: &[u8]) -> &[u8]
    ensures value { result.now ≡ bytes.now }
    ensures bytes { (k : ℕ) → slice_index bytes.now k < 256 }
{
    bytes
}

// Whether a byte stands for itself.
fn stands_alone(byte: u8) -> bool
    ensures { result ≡ is_plain byte }
{
    (0x21 <= byte && byte <= 0x7E) && (byte != b'/' && byte != b'\\')
}

// Whether a name ends in front of this text.
fn name_ends(text: &[u8]) -> bool
    ensures { result ≡ is_name_end text.now }
{
    text.is_empty() || text[0] == b'/'
}

// The byte of an escape, behind its `\`.
fn read_escape(text: &[u8]) -> Option<u8>
    ensures value { escape_from text.now ≡ option_map (λ byte. (byte, drop 3 text.now)) result }
    ensures inside { IfSome result (λ byte. 3 ≤ length text.now) }
{
    if text.len() < 3 || text[0] != b'x' {
        return None;
    }
    let high = char::from(text[1]).to_digit(16)?;
    let low = char::from(text[2]).to_digit(16)?;
    Some((high * 16 + low) as u8)
}

// The byte that a text stands for at its front, and how many bytes stand for it.
fn read_byte(text: &[u8]) -> Option<(u8, usize)>
    ensures { IsByteTaken text.now result }
{
    if text.is_empty() {
        return None;
    }
    if stands_alone(text[0]) {
        return Some((text[0], 1));
    }
    if text[0] != b'\\' {
        return None;
    }
    let byte = read_escape(&text[1..])?;
    Some((byte, 4))
}

// The name that a text stands for at its front, and how many bytes stand for it.
fn read_name(text: &[u8]) -> Result<(Name, usize), PathFault>
    ensures { MatchResult result (λ read. IsNameTaken text.now read.0.0 read.1) (λ fault. name_from 16 text.now ≡ Err fault) }
{
    let mut bytes = [0; 16];
    let mut count = 0;
    let mut at = 0;
    while !name_ends(&text[at..]) {
        if count == 16 {
            return Err(PathFault::LongName);
        }
        let Some((byte, taken)) = read_byte(&text[at..]) else {
            return Err(PathFault::BadEscape);
        };
        bytes[count] = byte;
        count += 1;
        at += taken;
    }
    Ok((Name(bytes), at))
}

// The path that a text stands for.
fn read_path(text: &[u8]) -> Result<Path, PathFault>
    ensures { result ≡ path_from text.now }
{
    if text.is_empty() {
        return Err(PathFault::Empty);
    }
    if text[0] != b'/' {
        return Err(PathFault::NoSlash);
    }
    if text.len() == 1 {
        return Ok(Path::root());
    }
    read_names(text)
}

// The path of one or more names.
fn read_names(text: &[u8]) -> Result<Path, PathFault>
    ensures { result ≡ names_from 64 text.now }
{
    let mut path = Path::root();
    let mut at = 0;
    while at < text.len() {
        if path.len() == MOST {
            return Err(PathFault::TooDeep);
        }
        let (name, taken) = match read_name(&text[at + 1..]) {
            Ok(read) => read,
            Err(fault) => return Err(fault),
        };
        if name.is_empty() {
            return Err(PathFault::EmptyName);
        }
        path.push(name);
        at += 1 + taken;
    }
    Ok(path)
}

// How many bytes there are up to the last that is not zero.
fn used(bytes: &[u8]) -> usize
    ensures value { result ≡ last_used bytes.now }
    ensures inside { result ≤ length bytes.now }
{
    let mut used = 0;
    for (i, byte) in bytes.iter().enumerate() {
        if *byte != 0 {
            used = i + 1;
        }
    }
    used
}

// Adds a digit.
fn put_digit(out: &mut ArrayVec<u8, 4160>, digit: u8)
    requires room { array_vec_len out.old + 1 ≤ 4160 }
    requires digit { digit < 16 }
    ensures { out.new.items ≡ out.old.items ++ digit_char digit ∷ [] }
{
    if let Some(letter) = char::from_digit(u32::from(digit), 16) {
        out.push(letter as u8);
    }
}

// Adds the text of a byte.
fn put_byte(out: &mut ArrayVec<u8, 4160>, byte: u8)
    requires { array_vec_len out.old + 4 ≤ 4160 }
    ensures text { out.new.items ≡ out.old.items ++ byte_text byte }
    ensures room { array_vec_len out.new ≤ array_vec_len out.old + 4 }
{
    if stands_alone(byte) {
        out.push(byte);
    } else {
        out.push(b'\\');
        out.push(b'x');
        put_digit(out, byte / 16);
        put_digit(out, byte % 16);
    }
}

// Adds a `/` and the text of a name.
fn put_name(out: &mut ArrayVec<u8, 4160>, name: &Name)
    requires { array_vec_len out.old + 65 ≤ 4160 }
    ensures text { out.new.items ≡ out.old.items ++ 47 ∷ name_text name.now.0 }
    ensures room { array_vec_len out.new ≤ array_vec_len out.old + 65 }
{
    out.push(b'/');
    for byte in &name.0[..used(&name.0)] {
        put_byte(out, *byte);
    }
}

// Adds a `/` and the text of each of some names.
fn put_names(out: &mut ArrayVec<u8, 4160>, names: &[Name])
    requires empty { out.old.items ≡ [] }
    requires few { length names.now ≤ 64 }
    ensures { out.new.items ≡ flat_map (λ name. 47 ∷ name_text name.0) names.now }
{
    for name in names {
        put_name(out, name);
    }
}
