//! The bytes of a new entry.

ghost use Rattle.std.specs.Prelude.{◌≡◌, ◌≤◌, length};
ghost use Rattle.save_bytes.specs.Fields.{with_bytes};
ghost use Rattle.entry_tables.specs.declared.table.EntryKind.TheVariants.{Dir, File};
ghost use Rattle.entry_additions.specs.Images.{written_entry};

use crate::entry::NewEntry;
use save_bytes::{Name, set_u32, set_u64};

/// The bytes of a new directory, which names these two entries.
pub(crate) fn dir_bytes(new: NewEntry, sibling: u32, link: u32) -> [u8; 0x28]
    ensures { result ≡ written_entry Dir new sibling link }
{
    let mut bytes = [0; 0x28];
    set_u32(&mut bytes, 0, new.parent);
    set_name(&mut bytes, &new.name);
    set_u32(&mut bytes, 0x14, sibling);
    set_u32(&mut bytes, 0x24, link);
    bytes
}

/// The bytes of a new file, which names these two entries.
pub(crate) fn file_bytes(new: NewEntry, sibling: u32, link: u32) -> [u8; 0x30]
    ensures { result ≡ written_entry File new sibling link }
{
    let mut bytes = [0; 0x30];
    set_u32(&mut bytes, 0, new.parent);
    set_name(&mut bytes, &new.name);
    set_u32(&mut bytes, 0x14, sibling);
    set_u32(&mut bytes, 0x1C, new.fields.start);
    set_u64(&mut bytes, 0x20, new.fields.wide);
    set_u32(&mut bytes, 0x2C, link);
    bytes
}

// Puts a name behind the parent of an entry.
fn set_name(bytes: &mut [u8], name: &Name)
    requires { 20 ≤ length bytes.old }
    ensures { bytes.new ≡ with_bytes bytes.old 4 name.now.0 }
{
    bytes[4..20].copy_from_slice(&name.0);
}
