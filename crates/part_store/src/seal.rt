//! Sealing a partition: the hashes of what was put, the copies that hold it, and the selector in the table.

ghost use Rattle.std.specs.Prelude.{length};
ghost use Rattle.std.specs.Result.{result_err};
ghost use Rattle.ivfc_tree.specs.Seals.{DiffersAt};
ghost use Rattle.ivfc_tree.specs.View.{CanViewHashes};
ghost use Rattle.dpfs_tree.specs.Held.{shown_contents};
ghost use Rattle.part_store.specs.Parts.{CanViewPart};
ghost use Rattle.part_store.specs.Seals.{SealsUnder, SealsContents, SealsTrees, IsSealedEntry, IsSealedPart};

use crate::part::Part;
use difi::Difi;
use dpfs_tree::DpfsView;
use ivfc_tree::{IvfcState, IvfcView};
use save_bytes::{Bad, Space};

// Writes the hashes of what was put over the contents of the double-copy tree.
fn seal_hashes<S: Space>(
    contents: &mut S,
    number: u8,
    difi: &Difi,
    master: &mut [u8],
    state: &mut IvfcState,
) -> Result<(), Bad>
    requires { CanViewHashes (S.state contents.old).shape difi.now (length master.old) state.old }
    ensures { SealsUnder S.state S.keeps S.lands number difi.now
        (record { contents = contents.old; master = master.old; ivfc = state.old })
        (record { contents = contents.new; master = master.new; ivfc = state.new }) (result_err result) }
{
    let mut view = IvfcView::new(contents, number, difi, master, state);
    view.seal()
}

// Writes the hashes over a view of the contents, and then which copies hold these.
fn seal_contents<S: Space>(
    contents: &mut DpfsView<'_, S>,
    number: u8,
    difi: &Difi,
    master: &mut [u8],
    state: &mut IvfcState,
) -> Result<u8, Bad>
    requires { CanViewHashes (shown_contents S.state contents.old).shape difi.now (length master.old) state.old }
    ensures { SealsContents S.state S.keeps S.lands number difi.now
        (record { contents = contents.old; master = master.old; ivfc = state.old })
        (record { contents = contents.new; master = master.new; ivfc = state.new }) result }
{
    match seal_hashes(contents, number, difi, master, state) {
        Ok(()) => contents.seal(),
        Err(bad) => Err(bad),
    }
}

// Seals both trees of a partition, and answers the selector that chooses what was sealed.
fn seal_trees<S: Space>(base: &mut S, part: &mut Part, table: &mut [u8]) -> Result<u8, Bad>
    requires { CanViewPart (S.state base.old).shape part.old (length table.old) }
    ensures trees { SealsTrees S.state S.keeps S.lands base.old part.old table.old base.new part.new table.new result }
    ensures master { DiffersAt (IsSealedEntry part.old) table.old table.new }
{
    let start = (part.difi.place + part.difi.master.at) as usize;
    let end = start + part.difi.master.size as usize;
    let difi = part.difi;
    let number = part.number;
    let place = part.at;
    let dpfs = &mut part.dpfs;
    let ivfc = &mut part.ivfc;
    let master = &mut table[start..end];
    let mut contents = DpfsView::new(base, place, &difi, dpfs);
    seal_contents(&mut contents, number, &difi, master, ivfc)
}

/// Seals a partition over its base and its table, and answers the selector that stands in the table then.
pub(crate) fn seal_in<S: Space>(base: &mut S, part: &mut Part, table: &mut [u8]) -> Result<u8, Bad>
    requires { CanViewPart (S.state base.old).shape part.old (length table.old) }
    ensures { IsSealedPart S.state S.keeps S.lands base.old part.old table.old base.new part.new table.new result }
{
    let selector = match seal_trees(base, part, table) {
        Ok(selector) => selector,
        Err(bad) => return Err(bad),
    };
    part.difi.patch(table, selector);
    Ok(selector)
}
