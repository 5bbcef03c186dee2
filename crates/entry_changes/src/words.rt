//! What an entry's lists need of it.

ghost use Rattle.std.specs.Prelude.{ℕ, ◌+◌, ◌<◌, ◌≤◌, IsTrue, IfOk, OnOk};
ghost use Rattle.std.specs.Result.{result_err};
ghost use Rattle.save_bytes.specs.Cells.{IsByte};
ghost use Rattle.save_bytes.specs.Answers.{IsRead};
ghost use Rattle.save_bytes.specs.Refusals.{IfDamaged, NeverDamaged};
ghost use Rattle.save_bytes.specs.Reads.{Reads};
ghost use Rattle.entry_tables.specs.Kinds.{entry_size};
ghost use Rattle.entry_tables.specs.Tables.{HasEntry, table_in, entry_place};
ghost use Rattle.entry_tables.specs.Layout.{HasEntryTable, TellsEntryTable, BlamesRead};
ghost use Rattle.entry_changes.specs.EntryWords.{AreWordsOf};

use entry_tables::{EntryKind, TableInfo, bucket, entry_bytes};
use save_bytes::{Bad, Name, Space, u32_at};

/// What an entry's lists need of it: its parent, the bucket of its parent and name, and the entries that it names.
#[derive(Clone, Copy)]
pub struct EntryWords {
    pub parent: u32,
    pub bucket: u32,
    pub sibling: u32,
    pub link: u32,
}

/// Reads the words of an entry; where it does not lie in the space, those of zeros.
pub fn read_entry<S: Space>(
    space: &mut S,
    kind: EntryKind,
    info: TableInfo,
    entry: u32,
) -> Result<EntryWords, Bad>
    requires { HasEntryTable (S.state space.old).shape kind info }
    ensures words { TellsEntryTable (S.state space.old) kind info
        → HasEntry (table_in (S.state space.old).cells kind info) entry
        → IfOk result (AreWordsOf (table_in (S.state space.old).cells kind info) entry) }
    ensures bytes { TellsEntryTable (S.state space.old) kind info
        → HasEntry (table_in (S.state space.old).cells kind info) entry
        → OnOk result ((j : ℕ) → j < entry_size kind
        → IsByte ((S.state space.old).cells (entry_place kind info entry + j))) }
    ensures read { entry_place kind info entry + entry_size kind ≤ (S.state space.old).shape.size
        → IsRead (S.state space.old) (entry_place kind info entry) (entry_size kind) (result_err result) }
    ensures damaged { IsTrue (S.state space.old).told → IfDamaged (result_err result)
        (BlamesRead kind info (entry_place kind info entry) (entry_size kind) (S.state space.old).cells) }
    ensures plain { IsTrue (S.state space.old).shape.plain → NeverDamaged (result_err result) }
    ensures reads { Reads S.state S.keeps S.lands space.old space.new (result_err result) }
{
    let mut entry_space = [0; 0x30];
    let bytes = &mut entry_space[..kind.entry_size() as usize];
    entry_bytes(space, kind, info, entry, 0, bytes)?;
    let mut name = [0; 16];
    name.copy_from_slice(&bytes[4..20]);
    let parent = u32_at(bytes, 0);
    Ok(EntryWords {
        parent,
        bucket: bucket(parent, &Name(name), info.buckets),
        sibling: u32_at(bytes, 0x14),
        link: u32_at(bytes, kind.link_offset() as usize),
    })
}
