//! What a new entry says.

use entry_tables::FileFields;
use save_bytes::Name;

/// What a new entry says: its parent, its name, and a file's fields, which are not looked at for a directory.
#[derive(Clone, Copy)]
pub struct NewEntry {
    pub parent: u32,
    pub name: Name,
    pub fields: FileFields,
}

/// Where a new entry is written, and the entries that it names: the next of its directory, and of its bucket.
#[derive(Clone, Copy)]
pub(crate) struct NewPlace {
    pub(crate) entry: u32,
    pub(crate) sibling: u32,
    pub(crate) link: u32,
}
