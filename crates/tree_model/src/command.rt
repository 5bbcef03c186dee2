//! The commands on a tree.

use save_bytes::{Path, PathFault};

/// What is free in a tree: data blocks, and the directories and files that can be added.
#[derive(Clone, Copy, Debug, PartialEq, Eq)]
pub struct Room {
    pub blocks: u32,
    pub dirs: u32,
    pub files: u32,
}

/// The path that a command names, or why its text stands for none.
#[derive(Debug, Drop)]
pub enum Target {
    Path(Path),
    Fault(PathFault),
}

/// A command on a tree.
#[derive(Debug, Drop)]
pub enum Command {
    /// The directories and files.
    List,
    /// What is free.
    Room,
    /// A file's contents.
    Get(Target),
    /// A file with so many bytes of contents.
    Put(Target, u64),
    /// A new directory.
    Mkdir(Target),
    /// A file or a directory without children goes.
    Remove(Target),
    /// A file with an identifier.
    Link(Target, u64),
    /// The changes so far are kept.
    Commit,
    /// The changes since the last commit are dropped.
    Abort,
    /// Nothing more follows.
    End,
}
