ghost use Rattle.std.specs.Prelude.{◌≡◌, ◌+◌, ◌^◌, ◌<◌, IsFalse};
ghost use Rattle.chain_nodes.specs.Table.{HasAllocationTable};
ghost use Rattle.alloc_chain.specs.Held.{below};

use super::*;
use save_bytes::{MemSpace, Space, set_u32};
use std::alloc::Global;
use std::test::Fail;

/// The flag of a word.
const FLAG: u32 = 0x8000_0000;

/// A table of 48 entries behind entry 0.
const FORTY_EIGHT: ChainInfo = ChainInfo {
    table_at: 0,
    count: 48,
    region_at: 0,
    block: 8,
};

// A table all of whose blocks are one free node.
fn all_free() -> [u8; 392] {
    let mut bytes = [0; 392];
    set_u32(&mut bytes, 4, 1);
    set_u32(&mut bytes, 12, FLAG);
    set_u32(&mut bytes, 16, FLAG + 1);
    set_u32(&mut bytes, 20, 48);
    set_u32(&mut bytes, 384, FLAG + 1);
    set_u32(&mut bytes, 388, 48);
    bytes
}

// The next number of a sequence that goes over all of 32 bits.
fn next_number(number: u32) -> u32 {
    number.wrapping_mul(1_664_525).wrapping_add(1_013_904_223)
}

// Adds the entries of a run.
fn push_run(entries: &mut Vec<u32>, run: Run) -> Result<(), Fail>
    requires { run.block + run.len < 2 ^ 31 }
{
    for k in 0..run.len {
        entries.push(run.block + k + 1)?;
    }
    Ok(())
}

// The entries behind a place of a list, of which no more than 48 runs are read.
fn entries_behind<S: Space>(
    alloc: Global,
    chain: &mut Chain<S>,
    start: Cursor,
) -> Result<Vec<u32>, Fail>
    requires { HasAllocationTable (below S.state chain.old).shape chain.old.info }
    ensures shape { (below S.state chain.new).shape ≡ (below S.state chain.old).shape }
    ensures info { chain.new.info ≡ chain.old.info }
{
    let mut entries = Vec::new(alloc);
    let mut place = start;
    for _ in 0..48 {
        if place.is_at_end() {
            return Ok(entries);
        }
        let (run, behind) = chain.run_behind(place)?;
        push_run(&mut entries, run)?;
        place = behind;
    }
    Ok(entries)
}

// The entries of a chain that may be missing.
fn chain_entries<S: Space>(
    alloc: Global,
    chain: &mut Chain<S>,
    first: Option<u32>,
) -> Result<Vec<u32>, Fail>
    requires { HasAllocationTable (below S.state chain.old).shape chain.old.info }
    ensures shape { (below S.state chain.new).shape ≡ (below S.state chain.old).shape }
    ensures info { chain.new.info ≡ chain.old.info }
{
    match first {
        Some(first) => entries_behind(alloc, chain, Cursor::of_chain(first)),
        None => Ok(Vec::new(alloc)),
    }
}

// The free entries.
fn free_entries<S: Space>(alloc: Global, chain: &mut Chain<S>) -> Result<Vec<u32>, Fail>
    requires { HasAllocationTable (below S.state chain.old).shape chain.old.info }
    ensures shape { (below S.state chain.new).shape ≡ (below S.state chain.old).shape }
    ensures info { chain.new.info ≡ chain.old.info }
{
    let start = chain.free_cursor()?;
    entries_behind(alloc, chain, start)
}

/// A chain, as a plain program keeps it: its first entry, and all of them.
#[derive(Drop)]
struct Plain {
    first: Option<u32>,
    entries: Vec<u32>,
}

// Gives the first n entries of a list and a longer one to the list, and the others to the longer one.
fn swap_lists(
    alloc: Global,
    mine: &mut Vec<u32>,
    free: &mut Vec<u32>,
    n: usize,
) -> Result<(), Fail> {
    let mut all = Vec::from_slice(alloc, mine)?;
    all.extend_from_slice(free)?;
    let cut = n.min(all.len());
    *mine = Vec::from_slice(alloc, &all[..cut])?;
    *free = Vec::from_slice(alloc, &all[cut..])?;
    Ok(())
}

// Swaps a chain in the table and in plain lists, and says whether both agree then.
fn agrees<S: Space>(
    alloc: Global,
    chain: &mut Chain<S>,
    plain: &mut Plain,
    free: &mut Vec<u32>,
    n: u64,
) -> Result<bool, Fail>
    requires table { HasAllocationTable (below S.state chain.old).shape chain.old.info }
    requires single { IsFalse (below S.state chain.old).shape.doubled }
    ensures shape { (below S.state chain.new).shape ≡ (below S.state chain.old).shape }
    ensures info { chain.new.info ≡ chain.old.info }
{
    let have = plain.entries.len().saturating_add(free.len()) as u64;
    let result = chain.swap(plain.first, n);
    if n > have {
        let have = have.min(48) as u32;
        return Ok(result == Err(ChainFault::Short { need: n, have }));
    }
    match result {
        Ok(first) => plain.first = first,
        Err(_) => return Ok(false),
    }
    swap_lists(alloc, &mut plain.entries, free, n as usize)?;
    let mine = chain_entries(alloc, chain, plain.first)?;
    let rest = free_entries(alloc, chain)?;
    Ok(mine.as_slice() == plain.entries.as_slice() && rest.as_slice() == free.as_slice())
}

// Of so many swaps of four chains, how many are made in the table as in plain lists, before one is not.
fn rounds<S: Space>(alloc: Global, chain: &mut Chain<S>, most: u32) -> Result<u32, Fail>
    requires table { HasAllocationTable (below S.state chain.old).shape chain.old.info }
    requires single { IsFalse (below S.state chain.old).shape.doubled }
{
    let mut free = free_entries(alloc, chain)?;
    let mut plains = [
        plain_none(alloc),
        plain_none(alloc),
        plain_none(alloc),
        plain_none(alloc),
    ];
    let mut number = 1;
    for round in 0..most {
        number = next_number(number);
        let which = (number >> 30) as usize;
        let plain = &mut plains[which];
        let have = plain.entries.len().saturating_add(free.len()) as u64;
        let n = u64::from(number >> 12) % (have.min(48) + 2);
        if !agrees(alloc, chain, plain, &mut free, n)? {
            return Ok(round);
        }
    }
    Ok(most)
}

fn plain_none(alloc: Global) -> Plain {
    Plain {
        first: None,
        entries: Vec::new(alloc),
    }
}

#[test]
fn ten_thousand_swaps_are_made_as_in_plain_lists(rt: HostRuntime) -> Result<(), Fail> {
    let mut bytes = all_free();
    let mut space = MemSpace::new(&mut bytes, 16);
    let mut chain = Chain::new(&mut space, FORTY_EIGHT);
    assert_eq!(rt; rounds(rt.alloc(), &mut chain, 10_000)?, 10_000);
    Ok(())
}
