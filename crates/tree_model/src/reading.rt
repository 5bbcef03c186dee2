//! A command's text, read.

ghost use Rattle.std.specs.Prelude.{◌≡◌, ◌+◌, ◌<◌, ◌≤◌, ◌↔◌, take, length, slice_index, Some, None};
ghost use Rattle.tree_model.specs.declared.command.Command.{Command};
ghost use Rattle.tree_model.specs.Commands.{HasNoSpace, IsCommandText};
ghost use Rattle.tree_model.specs.CommandReading.{number_of, target_of, bare_of, named_of, numbered_by};

use crate::command::{Command, Target};
use itoa::Buffer;
use save_bytes::Path;
use std::str;

impl Command {
    /// The command that a line stands for, its line feed left out: `list`, `room`, `get PATH`, `put PATH LEN`,
    /// `mkdir PATH`, `remove PATH`, `link PATH ID`, `commit`, `abort` or `end`, with exactly one space between words.
    /// PATH has no space, may be empty, and need not be the text of a path: a target says so. A number is `0`, or
    /// decimal digits without a leading zero, at most 2^64 - 1.
    pub fn read(line: &[u8]) -> Option<Command>
        ensures some { (command : Command) → (result ≡ Some command) ↔ IsCommandText line.now command }
        ensures none { (result ≡ None) ↔ ((command : Command) → ¬ IsCommandText line.now command) }
    {
        let first = word_end(line);
        if first == line.len() {
            return read_bare(line);
        }
        let name = &line[..first];
        let rest = &line[first + 1..];
        let second = word_end(rest);
        if second == rest.len() {
            return read_named(name, rest);
        }
        read_numbered(name, &rest[..second], &rest[second + 1..])
    }
}

impl Target {
    /// The path that a word stands for, or why it stands for none.
    pub fn read(word: &[u8]) -> Target
        ensures { result ≡ target_of word.now }
    {
        match Path::read(word) {
            Ok(path) => Target::Path(path),
            Err(fault) => Target::Fault(fault),
        }
    }
}

// Where the first word ends: at the first space, or where the text does.
fn word_end(text: &[u8]) -> usize
    ensures inside { result ≤ length text.now }
    ensures word { HasNoSpace (take result text.now) }
    ensures space { result < length text.now → slice_index text.now result ≡ 32 }
{
    let mut at = 0;
    while at < text.len() && text[at] != b' ' {
        at += 1;
    }
    at
}

// A command that is its name alone.
fn read_bare(name: &[u8]) -> Option<Command>
    ensures { result ≡ bare_of name.now }
{
    if name == b"list".as_slice() {
        return Some(Command::List);
    }
    if name == b"room".as_slice() {
        return Some(Command::Room);
    }
    if name == b"commit".as_slice() {
        return Some(Command::Commit);
    }
    if name == b"abort".as_slice() {
        return Some(Command::Abort);
    }
    if name == b"end".as_slice() {
        return Some(Command::End);
    }
    None
}

// A command that is its name and a path.
fn read_named(name: &[u8], word: &[u8]) -> Option<Command>
    ensures { result ≡ named_of name.now (target_of word.now) }
{
    if name == b"get".as_slice() {
        return Some(Command::Get(Target::read(word)));
    }
    if name == b"mkdir".as_slice() {
        return Some(Command::Mkdir(Target::read(word)));
    }
    if name == b"remove".as_slice() {
        return Some(Command::Remove(Target::read(word)));
    }
    None
}

// A command that is its name, a path and a number.
fn read_numbered(name: &[u8], word: &[u8], number: &[u8]) -> Option<Command>
    ensures { result ≡ numbered_by name.now (target_of word.now) (number_of number.now) }
{
    let n = read_number(number)?;
    if name == b"put".as_slice() {
        return Some(Command::Put(Target::read(word), n));
    }
    if name == b"link".as_slice() {
        return Some(Command::Link(Target::read(word), n));
    }
    None
}

/// The number that the word is printed from, if it is one below 2 ^ 64.
pub fn read_number(word: &[u8]) -> Option<u64>
    ensures { result ≡ number_of word.now }
{
    let Ok(text) = str::from_utf8(word) else {
        return None;
    };
    let Ok(number) = text.parse::<u64>() else {
        return None;
    };
    let mut digits = Buffer::new();
    if digits.format(number).as_bytes() != word {
        return None;
    }
    Some(number)
}
