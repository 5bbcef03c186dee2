//! Finding an entry through its bucket.

ghost use Rattle.std.specs.Prelude.{◌≡◌, ◌↔◌, ◌+◌, ◌*◌, ◌<◌, ◌≤◌, length, IsTrue, IfOk};
ghost use Rattle.std.specs.Result.{result_err};
ghost use Rattle.save_bytes.specs.Refusals.{IfDamaged, NeverDamaged};
ghost use Rattle.save_bytes.specs.Reads.{Reads};
ghost use Rattle.entry_tables.specs.Kinds.{entry_size, bucket_table};
ghost use Rattle.entry_tables.specs.Hash.{bucket_number};
ghost use Rattle.entry_tables.specs.Tables.{HasEntry, table_in, entry_place};
ghost use Rattle.entry_tables.specs.Rules.{HasBucketLists};
ghost use Rattle.entry_tables.specs.Fails.{IsBrokenBucket};
ghost use Rattle.entry_tables.specs.Layout.{HasEntryTable, TellsEntryTable, BlamesRead, BlamesTable};
ghost use Rattle.entry_tables.specs.Causes.{bad_of, HasEntryCause};
ghost use Rattle.name_buckets.specs.Replies.{IsFoundEntry};
ghost use Rattle.name_buckets.specs.Looks.{HasKey, IsLook};

use entry_tables::{EntryFault, EntryKind, TableInfo, bucket, entry_bytes, read_counts};
use save_bytes::{Bad, Name, Space, space_u32, u32_at};

/// What stands at one place of a bucket's list.
#[derive(Clone, Copy)]
enum Look {
    /// The entry that is sought.
    Found,
    /// Another one, behind which the list goes on with this entry.
    Other(u32),
}

// Whether an entry's bytes have this parent and name.
fn has_key(entry: &[u8], parent: u32, name: &Name) -> bool
    requires { 20 ≤ length entry.now }
    ensures { IsTrue result ↔ HasKey entry.now parent name.now.0 }
{
    u32_at(entry, 0) == parent && &entry[4..20] == name.0.as_slice()
}

// Looks at one entry of a bucket's list.
fn look_at<S: Space>(
    space: &mut S,
    kind: EntryKind,
    info: TableInfo,
    entry: u32,
    parent: u32,
    name: &Name,
) -> Result<Look, Bad>
    requires { HasEntryTable (S.state space.old).shape kind info }
    ensures look { TellsEntryTable (S.state space.old) kind info
        → HasEntry (table_in (S.state space.old).cells kind info) entry
        → IfOk result (IsLook kind (table_in (S.state space.old).cells kind info) parent name.now.0 entry) }
    ensures damaged { IsTrue (S.state space.old).told → IfDamaged (result_err result)
        (BlamesRead kind info (entry_place kind info entry) (entry_size kind) (S.state space.old).cells) }
    ensures plain { IsTrue (S.state space.old).shape.plain → NeverDamaged (result_err result) }
    ensures reads { Reads S.state S.keeps S.lands space.old space.new (result_err result) }
{
    let mut entry_space = [0; 0x30];
    let bytes = &mut entry_space[..kind.entry_size() as usize];
    entry_bytes(space, kind, info, entry, 0, bytes)?;
    if !kind.is_root(entry) && has_key(bytes, parent, name) {
        return Ok(Look::Found);
    }
    Ok(Look::Other(u32_at(bytes, kind.link_offset() as usize)))
}

/// The entry of a table that has this parent and name, the root left out. Of the table only the counts and the entries
/// of one bucket's list are read.
pub(crate) fn find_in<S: Space>(
    space: &mut S,
    kind: EntryKind,
    info: TableInfo,
    parent: u32,
    name: &Name,
) -> Result<Option<u32>, EntryFault>
    requires { HasEntryTable (S.state space.old).shape kind info }
    ensures found { TellsEntryTable (S.state space.old) kind info → HasBucketLists kind (table_in (S.state space.old).cells kind info)
        → IfOk result (IsFoundEntry kind (table_in (S.state space.old).cells kind info) parent name.now.0) }
    ensures cause { HasEntryCause (S.state space.old) kind info (HasBucketLists kind (table_in (S.state space.old).cells kind info))
        (λ table entry. (table ≡ bucket_table kind) × (entry ≡ bucket_number parent name.now.0 info.buckets)
        × IsBrokenBucket kind (table_in (S.state space.old).cells kind info) entry) result }
    ensures blamed { TellsEntryTable (S.state space.old) kind info
        → IfDamaged (bad_of result) (BlamesTable kind info (S.state space.old).cells) }
    ensures reads { Reads S.state S.keeps S.lands space.old space.new (bad_of result) }
{
    let count = read_counts(space, kind, info)?.count;
    let number = bucket(parent, name, info.buckets);
    let mut entry = space_u32(space, info.buckets_at + 4 * u64::from(number))?;
    let broken = EntryFault::Broken {
        table: kind.bucket_table(),
        entry: number,
    };
    for _step in 0..count {
        if entry == 0 {
            return Ok(None);
        }
        if entry >= count {
            return Err(broken);
        }
        match look_at(space, kind, info, entry, parent, name)? {
            Look::Found => return Ok(Some(entry)),
            Look::Other(next) => entry = next,
        }
    }
    Err(broken)
}
