//! Calls on the part that has a place of the store.

ghost use Rattle.std.specs.Prelude.{◌≡◌, ℕ, ◌<◌, ◌≤◌, length, IsTrue, IfOk, IfSome};
ghost use Rattle.std.specs.Result.{result_err};
ghost use Rattle.save_bytes.specs.State.{IsInside};
ghost use Rattle.save_bytes.specs.Refusals.{NeverDamaged};
ghost use Rattle.ivfc_tree.specs.Levels.{HasBlock};
ghost use Rattle.part_store.specs.Parts.{CanViewPart, part_state, status_in, IsFound};
ghost use Rattle.container.specs.Parts.{part_count, part_at};
ghost use Rattle.part_store.specs.Calls.{ReadsPart};
ghost use Rattle.container.specs.Stores.{store_state, ReadsParts};

use crate::parts::Parts;
use ivfc_tree::Status;
use part_store::{Part, PartView};
use save_bytes::{Bad, Space};

// Where bytes of a part lie in the image, where they have a hash path.
fn find_in<S: Space>(
    image: &mut S,
    part: &mut Part,
    table: &mut [u8],
    at: u64,
    most: usize,
) -> Result<(u64, usize), Bad>
    requires view { CanViewPart (S.state image.old).shape part.old (length table.old) }
    requires inside { at < part.old.difi.ivfc4.size }
    requires some { 1 ≤ most }
    ensures found { IsFound (part_state (S.state image.old) part.old table.old) (S.state image.new) at most result }
    ensures left { ReadsPart S.state S.keeps S.lands image.old image.new part.old part.new table.old table.new (result_err result) }
{
    let mut view = PartView::new(image, part, table);
    view.locate(at, most)
}

/// Where bytes of the store lie in the image, and how many lie there in one piece, where they have a hash path.
pub(crate) fn find<S: Space>(
    image: &mut S,
    parts: &mut Parts,
    table: &mut [u8],
    at: u64,
    most: usize,
) -> Result<(u64, usize), Bad>
    requires inside { IsInside (store_state (S.state image.old) parts.old table.old).shape at 1 }
    requires some { 1 ≤ most }
    ensures found { IsFound (store_state (S.state image.old) parts.old table.old) (S.state image.new) at most result }
    ensures left { ReadsParts S.state S.keeps S.lands image.old image.new parts.old parts.new table.old table.new (result_err result) }
{
    let split = parts.first.difi().ivfc4.size;
    if at < split {
        return find_in(image, &mut parts.first, table, at, most);
    }
    match &mut parts.second {
        Some(second) => find_in(image, second, table, at - split, most),
        None => unreachable!(),
    }
}

// Tells the state of a block of a part.
fn tell_in<S: Space>(
    image: &mut S,
    part: &mut Part,
    table: &mut [u8],
    level: u8,
    block: u64,
) -> Result<Status, Bad>
    requires view { CanViewPart (S.state image.old).shape part.old (length table.old) }
    requires there { HasBlock part.old.difi level block }
    ensures status { IsTrue (part_state (S.state image.old) part.old table.old).told
        → IfOk result (λ status. status ≡ status_in (S.state image.old) part.old table.old level block) }
    ensures plain { NeverDamaged (result_err result) }
    ensures left { ReadsPart S.state S.keeps S.lands image.old image.new part.old part.new table.old table.new (result_err result) }
{
    let mut view = PartView::new(image, part, table);
    view.status(level, block)
}

/// Tells the state of a block of one of the four hash levels of a part.
pub(crate) fn tell<S: Space>(
    image: &mut S,
    parts: &mut Parts,
    table: &mut [u8],
    number: u8,
    level: u8,
    block: u64,
) -> Result<Status, Bad>
    requires sound { IsTrue (store_state (S.state image.old) parts.old table.old).shape.sound }
    requires part { number < part_count parts.old.second }
    requires there { IfSome (part_at parts.old number) (λ part. HasBlock part.difi level block) }
    ensures status { IsTrue (store_state (S.state image.old) parts.old table.old).told → IfOk result (λ status. IfSome (part_at parts.old number)
        (λ part. status ≡ status_in (S.state image.old) part table.old level block)) }
    ensures plain { NeverDamaged (result_err result) }
    ensures left { ReadsParts S.state S.keeps S.lands image.old image.new parts.old parts.new table.old table.new (result_err result) }
{
    if number == 0 {
        return tell_in(image, &mut parts.first, table, level, block);
    }
    match &mut parts.second {
        Some(second) => tell_in(image, second, table, level, block),
        None => unreachable!(),
    }
}
