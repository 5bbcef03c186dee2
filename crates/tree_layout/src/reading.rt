//! Reading the header of a filesystem and its information.

ghost use Rattle.std.specs.Prelude.{◌≡◌, ℕ, ◌+◌, ◌≤◌, IsTrue, IfOk, IfSome, IfNone, ◌↔◌};
ghost use Rattle.std.specs.Result.{result_err};
ghost use Rattle.save_bytes.specs.Cells.{Cell, AreBytesAt};
ghost use Rattle.save_bytes.specs.State.{IsInside};
ghost use Rattle.save_bytes.specs.Refusals.{IfDamaged, NeverDamaged};
ghost use Rattle.save_bytes.specs.Answers.{IsRead};
ghost use Rattle.save_bytes.specs.Reads.{Reads};
ghost use Rattle.tree_rules.specs.Information.{
  letters_of,
  version_of_tree,
  IsLettered,
  buckets_field,
  table_field,
  table_fields,
  information_at,
};
ghost use Rattle.tree_layout.specs.Headers.{IsOther, HasHeader, HasBadHeader};

use entry_tables::EntryKind;
use save_bytes::{Bad, Space, space_copy, u32_at, u64_at};
use tree_rules::{Information, TableFields, TreeKind};

/// The first four bytes of a header.
fn letters_of(kind: TreeKind) -> [u8; 4]
    ensures { result ≡ letters_of kind }
{
    match kind {
        TreeKind::Save => *b"SAVE",
        TreeKind::Vsxe => *b"VSXE",
    }
}

/// The version behind them.
fn version_of_tree(kind: TreeKind) -> u32
    ensures { result ≡ version_of_tree kind }
{
    match kind {
        TreeKind::Save => 0x4_0000,
        TreeKind::Vsxe => 0x3_0000,
    }
}

fn is_lettered(kind: TreeKind, front: &[u8; 8]) -> bool
    ensures { (cells : ℕ → Cell) → AreBytesAt cells 0 front.now → (IsTrue result ↔ IsLettered kind cells) }
{
    &front[..4] == &letters_of(kind)[..] && u32_at(front, 4) == version_of_tree(kind)
}

/// Reads a store's header: where the information begins, or none where the store is no filesystem of this kind.
pub fn read_header<S: Space>(store: &mut S, kind: TreeKind) -> Result<Option<u64>, Bad>
    requires { IsTrue (S.state store.old).shape.sound }
    ensures other { IsTrue (S.state store.old).told → IfOk result (λ at. IfNone at
        (IsOther kind (S.state store.old).shape.size (S.state store.old).cells)) }
    ensures found { IsTrue (S.state store.old).told → IfOk result (λ at. IfSome at
        (HasHeader kind (S.state store.old).shape.size (S.state store.old).cells)) }
    ensures damaged { IsTrue (S.state store.old).told → IfDamaged (result_err result)
        (HasBadHeader kind (S.state store.old).shape.size (S.state store.old).cells) }
    ensures plain { IsTrue (S.state store.old).shape.plain → NeverDamaged (result_err result) }
    ensures reads { Reads S.state S.keeps S.lands store.old store.new (result_err result) }
{
    if store.len() < 0x20 {
        return Ok(None);
    }
    let mut front = [0; 8];
    space_copy(store, 0, &mut front)?;
    if !is_lettered(kind, &front) {
        return Ok(None);
    }
    let mut rest = [0; 24];
    space_copy(store, 8, &mut rest)?;
    Ok(Some(u64_at(&rest, 0)))
}

// Where the fields on the buckets and on the table of a kind begin in the information.
fn buckets_field(kind: EntryKind) -> usize
    ensures is { result ≡ buckets_field kind }
    ensures fits { result + 12 ≤ 0x68 }
{
    match kind {
        EntryKind::Dir => 0x08,
        EntryKind::File => 0x18,
    }
}

fn table_field(kind: EntryKind) -> usize
    ensures is { result ≡ table_field kind }
    ensures fits { result + 8 ≤ 0x68 }
{
    match kind {
        EntryKind::Dir => 0x48,
        EntryKind::File => 0x58,
    }
}

// The fields on a table, in the information's bytes.
fn fields_from(bytes: &[u8; 0x68], kind: EntryKind) -> TableFields
    ensures { (cells : ℕ → Cell) (at : ℕ) → AreBytesAt cells at bytes.now → result ≡ table_fields cells at kind }
{
    let buckets = buckets_field(kind);
    let table = table_field(kind);
    TableFields {
        buckets_at: u64_at(bytes, buckets),
        buckets: u32_at(bytes, buckets + 8),
        table_at: u64_at(bytes, table),
        first: u32_at(bytes, table),
        blocks: u32_at(bytes, table + 4),
    }
}

fn information_from(at: u64, bytes: &[u8; 0x68]) -> Information
    ensures { (cells : ℕ → Cell) → AreBytesAt cells at bytes.now → result ≡ information_at cells at }
{
    Information {
        at,
        block: u32_at(bytes, 4),
        dirs: fields_from(bytes, EntryKind::Dir),
        files: fields_from(bytes, EntryKind::File),
        chain_at: u64_at(bytes, 0x28),
        count: u32_at(bytes, 0x30),
        region_at: u64_at(bytes, 0x38),
    }
}

/// Reads the information from a place on. It is refused as `space_copy` of its 0x68 bytes is.
pub fn read_information<S: Space>(store: &mut S, at: u64) -> Result<Information, Bad>
    requires { IsInside (S.state store.old).shape at 0x68 }
    ensures read { IsRead (S.state store.old) at 0x68 (result_err result) }
    ensures information { IsTrue (S.state store.old).told
        → IfOk result (λ info. info ≡ information_at (S.state store.old).cells at) }
    ensures reads { Reads S.state S.keeps S.lands store.old store.new (result_err result) }
{
    let mut bytes = [0; 0x68];
    space_copy(store, at, &mut bytes)?;
    Ok(information_from(at, &bytes))
}
