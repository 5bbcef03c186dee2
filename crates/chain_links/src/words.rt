//! Writing the words of an allocation table.

ghost use Rattle.std.specs.Prelude.{◌≡◌, ℕ, ◌+◌, ◌<◌, ◌≤◌, IsTrue, IsFalse, List, []};
ghost use Rattle.std.specs.Prelude.{◌∷◌};
ghost use Rattle.std.specs.Result.{result_err};
ghost use Rattle.save_bytes.specs.State.{IsWritable};
ghost use Rattle.save_bytes.specs.Refusals.{IfDone};
ghost use Rattle.save_bytes.specs.Writes.{IsWithin};
ghost use Rattle.chain_nodes.specs.Table.{table_in, word_u, word_v, HasWords, HasAllocationTable};
ghost use Rattle.chain_nodes.specs.Edits.{IsEntrySet};
ghost use Rattle.chain_links.specs.Alters.{Alters, IsWordPut, IsOfEntries};

use chain_nodes::ChainInfo;
use save_bytes::{Bad, Space, set_u32};

// Puts a word at a place.
fn put_word<S: Space>(base: &mut S, at: u64, value: u32) -> Result<(), Bad>
    requires writable { IsWritable (S.state base.old).shape at 4 }
    requires single { IsFalse (S.state base.old).shape.doubled }
    ensures put { IsTrue (S.state base.old).told → IfDone (result_err result) (IsWordPut (S.state base.old) (S.state base.new) at value) }
    ensures alters { Alters S.state S.keeps S.lands (IsWithin at 4) base.old base.new (result_err result) }
{
    let mut field = [0; 4];
    set_u32(&mut field, 0, value);
    base.put(at, &field)
}

/// Sets word U of an entry.
pub(crate) fn set_u<S: Space>(base: &mut S, info: ChainInfo, entry: u32, u: u32) -> Result<(), Bad>
    requires table { HasAllocationTable (S.state base.old).shape info }
    requires single { IsFalse (S.state base.old).shape.doubled }
    requires inside { entry ≤ info.count }
    ensures set { let table = table_in (S.state base.old).cells info in IsTrue (S.state base.old).told → HasWords table entry
        → IfDone (result_err result)
        (IsEntrySet table (table_in (S.state base.new).cells info) info.count entry u (word_v table entry)) }
    ensures alters { Alters S.state S.keeps S.lands (IsOfEntries info (entry ∷ [])) base.old base.new (result_err result) }
{
    put_word(base, info.table_at + 8 * u64::from(entry), u)
}

/// Sets word V of an entry.
pub(crate) fn set_v<S: Space>(base: &mut S, info: ChainInfo, entry: u32, v: u32) -> Result<(), Bad>
    requires table { HasAllocationTable (S.state base.old).shape info }
    requires single { IsFalse (S.state base.old).shape.doubled }
    requires inside { entry ≤ info.count }
    ensures set { let table = table_in (S.state base.old).cells info in IsTrue (S.state base.old).told → HasWords table entry
        → IfDone (result_err result)
        (IsEntrySet table (table_in (S.state base.new).cells info) info.count entry (word_u table entry) v) }
    ensures alters { Alters S.state S.keeps S.lands (IsOfEntries info (entry ∷ [])) base.old base.new (result_err result) }
{
    put_word(base, info.table_at + 8 * u64::from(entry) + 4, v)
}

/// Sets both words of an entry.
pub(crate) fn set_words<S: Space>(
    base: &mut S,
    info: ChainInfo,
    entry: u32,
    u: u32,
    v: u32,
) -> Result<(), Bad>
    requires table { HasAllocationTable (S.state base.old).shape info }
    requires single { IsFalse (S.state base.old).shape.doubled }
    requires inside { entry ≤ info.count }
    ensures set { let table = table_in (S.state base.old).cells info in IsTrue (S.state base.old).told
        → IfDone (result_err result) (IsEntrySet table (table_in (S.state base.new).cells info) info.count entry u v) }
    ensures alters { Alters S.state S.keeps S.lands (IsOfEntries info (entry ∷ [])) base.old base.new (result_err result) }
{
    let at = info.table_at + 8 * u64::from(entry);
    match put_word(base, at, u) {
        Ok(()) => put_word(base, at + 4, v),
        Err(bad) => Err(bad),
    }
}
