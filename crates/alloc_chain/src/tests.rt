ghost use Rattle.std.specs.Prelude.{◌≡◌, ◌+◌, ◌*◌, ◌≤◌, length};
ghost use Rattle.save_bytes.specs.Spots.{Frame};
ghost use Rattle.chain_nodes.specs.Table.{HasAllocationTable};
ghost use Rattle.alloc_chain.specs.Held.{below, SameChain};

use super::*;
use crate::counted::Counted;
use save_bytes::{Bad, MemSpace, Space, set_u32, space_copy};
use std::test::Fail;

/// The flag of a word.
const FLAG: u32 = 0x8000_0000;

/// A table of 9 entries behind entry 0, and 9 blocks of 4 bytes each.
const NINE: ChainInfo = ChainInfo {
    table_at: 0,
    count: 9,
    region_at: 80,
    block: 4,
};

/// A table of 66 entries behind entry 0.
const SIXTY_SIX: ChainInfo = ChainInfo {
    table_at: 0,
    count: 66,
    region_at: 0,
    block: 8,
};

/// A table of 1,000 entries behind entry 0.
const THOUSAND: ChainInfo = ChainInfo {
    table_at: 0,
    count: 1000,
    region_at: 0,
    block: 8,
};

// Sets the two words of an entry of a table that begins at 0.
fn set_entry(bytes: &mut [u8], entry: usize, u: u32, v: u32)
    requires { 8 * entry + 8 ≤ length bytes.old }
{
    set_u32(bytes, 8 * entry, u);
    set_u32(bytes, 8 * entry + 4, v);
}

// A chain of a node of entries 3 to 5 and a node of entry 9. Each byte of a block is the block's number.
fn two_nodes() -> [u8; 116] {
    let mut bytes = [0; 116];
    set_entry(&mut bytes, 3, FLAG, FLAG + 9);
    set_entry(&mut bytes, 4, FLAG + 3, 5);
    set_entry(&mut bytes, 5, FLAG + 3, 5);
    set_entry(&mut bytes, 9, 3, 0);
    for i in 0..36 {
        bytes[80 + i] = i as u8 / 4;
    }
    bytes
}

// The table of a made image: two chains of one block, and one node of 64 free blocks.
fn made_table() -> [u8; 536] {
    let mut bytes = [0; 536];
    set_entry(&mut bytes, 0, 0, 3);
    set_entry(&mut bytes, 1, FLAG, 0);
    set_entry(&mut bytes, 2, FLAG, 0);
    set_entry(&mut bytes, 3, 0, FLAG);
    set_entry(&mut bytes, 4, FLAG + 3, 66);
    set_entry(&mut bytes, 66, FLAG + 3, 66);
    bytes
}

// How long a chain is in the table of 9 entries, and how many blocks are free.
fn counts(bytes: &mut [u8]) -> (Result<u32, ChainFault>, Result<u32, ChainFault>)
    requires { length bytes.old ≡ 116 }
{
    let mut space = MemSpace::new(bytes, 16);
    let mut chain = Chain::new(&mut space, NINE);
    let len = chain.length(3);
    let free = chain.free_count();
    (len, free)
}

// The run that has a block of a chain, where the chain has so many.
fn run_of<S: Space>(chain: &mut Chain<S>, first: u32, pos: u32) -> Result<Option<Run>, ChainFault>
    requires { HasAllocationTable (below S.state chain.old).shape chain.old.info }
    ensures same { SameChain chain.old chain.new }
    ensures frame { S.keeps Frame chain.old.base.now chain.new.base.now }
{
    let len = chain.length(first)?;
    if pos >= len {
        return Ok(None);
    }
    Ok(Some(chain.run_at(first, pos)?))
}

#[test]
fn a_chain_of_two_nodes_has_their_blocks(rt: HostRuntime) -> Result<(), Fail> {
    let mut bytes = two_nodes();
    assert_eq!(rt; counts(&mut bytes), (Ok(4), Ok(0)));
    let cases = [
        (0, Some(Run { block: 2, len: 3 })),
        (1, Some(Run { block: 3, len: 2 })),
        (2, Some(Run { block: 4, len: 1 })),
        (3, Some(Run { block: 8, len: 1 })),
        (4, None),
    ];
    for (pos, want) in cases {
        let mut space = MemSpace::new(&mut bytes, 16);
        let mut chain = Chain::new(&mut space, NINE);
        assert_eq!(rt; run_of(&mut chain, 3, pos)?, want, "from {pos}");
    }
    Ok(())
}

#[test]
fn a_chain_has_no_run_behind_its_end(rt: HostRuntime) {
    let mut bytes = two_nodes();
    for (first, pos) in [(3, 4), (3, 9), (10, 0)] {
        let mut space = MemSpace::new(&mut bytes, 16);
        let mut chain = Chain::new(&mut space, NINE);
        let want = Err(ChainFault::Broken { entry: first });
        assert_eq!(rt; chain.run_at(first, pos), want);
    }
}

#[test]
fn a_made_image_has_64_free_blocks(rt: HostRuntime) -> Result<(), Fail> {
    let mut bytes = made_table();
    let entry_3 = [0, 0, 0, 0, 0, 0, 0, 0x80];
    let entry_66 = [3, 0, 0, 0x80, 66, 0, 0, 0];
    assert_eq!(rt; &bytes[24..32], entry_3.as_slice());
    assert_eq!(rt; &bytes[528..536], entry_66.as_slice());
    let mut space = MemSpace::new(&mut bytes, 16);
    let mut chain = Chain::new(&mut space, SIXTY_SIX);
    assert_eq!(rt; chain.free_count()?, 64);
    assert_eq!(rt; chain.length(1)?, 1);
    assert_eq!(rt; chain.length(2)?, 1);
    Ok(())
}

#[test]
fn the_flag_of_the_first_free_node_is_not_looked_at(rt: HostRuntime) -> Result<(), Fail> {
    let cases = [
        (0, Ok(64)),
        (FLAG, Ok(64)),
        (7, Err(ChainFault::Broken { entry: 3 })),
    ];
    for (u, want) in cases {
        let mut bytes = made_table();
        set_entry(&mut bytes, 3, u, FLAG);
        let mut space = MemSpace::new(&mut bytes, 16);
        let mut chain = Chain::new(&mut space, SIXTY_SIX);
        assert_eq!(rt; chain.free_count(), want, "word {u}");
    }
    Ok(())
}

// The answer on a chain of the table of 9 entries with some entries set.
fn length_with(entries: &[(usize, u32, u32)], first: u32) -> Result<u32, ChainFault> {
    let mut bytes = [0; 116];
    for (entry, u, v) in entries {
        if *entry <= 9 {
            set_entry(&mut bytes, *entry, *u, *v);
        }
    }
    let mut space = MemSpace::new(&mut bytes, 16);
    let mut chain = Chain::new(&mut space, NINE);
    chain.length(first)
}

fn broken(entry: u32) -> Result<u32, ChainFault> {
    Err(ChainFault::Broken { entry })
}

#[test]
fn a_node_is_broken_where_its_words_are(rt: HostRuntime) {
    let five = (5, FLAG, FLAG);
    assert_eq!(rt;
        length_with(&[five, (6, FLAG + 5, 9), (9, FLAG + 5, 9)], 5),
        Ok(5)
    );
    // The last entry names another one as the last.
    assert_eq!(rt;
        length_with(&[five, (6, FLAG + 5, 9), (9, FLAG + 5, 8)], 5),
        broken(9)
    );
    // The second entry names a last one behind the table, or before it.
    assert_eq!(rt; length_with(&[five, (6, FLAG + 5, 10)], 5), broken(6));
    assert_eq!(rt; length_with(&[five, (6, FLAG + 5, 5)], 5), broken(6));
    // The second entry names another first one, or lacks the flag.
    assert_eq!(rt; length_with(&[five, (6, FLAG + 4, 9)], 5), broken(6));
    assert_eq!(rt; length_with(&[five, (6, 5, 9)], 5), broken(6));
    // The first entry names a node before it, lacks the flag, or names a node behind the table.
    assert_eq!(rt; length_with(&[(5, FLAG + 1, 0)], 5), broken(5));
    assert_eq!(rt; length_with(&[(5, 0, 0)], 5), broken(5));
    assert_eq!(rt; length_with(&[(5, FLAG, 10)], 5), broken(5));
    // The last entry of the table has no second one.
    assert_eq!(rt; length_with(&[(9, FLAG, FLAG)], 9), broken(9));
}

#[test]
fn a_node_names_the_one_before_it(rt: HostRuntime) {
    assert_eq!(rt;
        length_with(&[(1, FLAG, 4), (4, 1, 2), (2, 4, 0)], 1),
        Ok(3)
    );
    assert_eq!(rt;
        length_with(&[(1, FLAG, 4), (4, 1, 2), (2, 1, 0)], 1),
        broken(2)
    );
    // A list that comes back to its second node, and one that comes back to its first.
    assert_eq!(rt;
        length_with(&[(1, FLAG, 4), (4, 1, 2), (2, 4, 4)], 1),
        broken(4)
    );
    assert_eq!(rt; length_with(&[(1, FLAG, 4), (4, 1, 1)], 1), broken(1));
}

#[test]
fn an_entry_of_two_nodes_is_named(rt: HostRuntime) {
    // A node of entries 3 to 9 and one of 5 to 8: together they have more entries than the table.
    let entries = [
        (3, FLAG, FLAG + 5),
        (4, FLAG + 3, 9),
        (9, FLAG + 3, 9),
        (5, 3, FLAG),
        (6, FLAG + 5, 8),
        (8, FLAG + 5, 8),
    ];
    assert_eq!(rt; length_with(&entries, 3), broken(6));
}

#[test]
fn two_free_nodes_that_name_each_other_are_broken(rt: HostRuntime) {
    let mut bytes = [0; 116];
    set_entry(&mut bytes, 0, 0, 2);
    set_entry(&mut bytes, 2, 0, 6);
    set_entry(&mut bytes, 6, 2, 2);
    assert_eq!(rt; counts(&mut bytes).1, broken(2));
    set_entry(&mut bytes, 0, 0, 10);
    assert_eq!(rt; counts(&mut bytes).1, broken(0));
    set_entry(&mut bytes, 0, FLAG + 7, FLAG);
    assert_eq!(rt; counts(&mut bytes).1, Ok(0));
}

// How many blocks lie behind a place of a list, and how many runs they are. At most 1,000 are read.
fn by_runs<S: Space>(chain: &mut Chain<S>, start: Cursor) -> Result<(u64, u32), ChainFault>
    requires { HasAllocationTable (below S.state chain.old).shape chain.old.info }
{
    let mut place = start;
    for runs in 0..1000 {
        if place.is_at_end() {
            return Ok((place.passed(), runs));
        }
        let (_, behind) = chain.run_behind(place)?;
        place = behind;
    }
    Ok((place.passed(), 1000))
}

#[test]
fn a_chain_of_1000_nodes_is_read_by_runs(rt: HostRuntime) -> Result<(), Fail> {
    let mut bytes = [0; 8008];
    for entry in 1..1001usize {
        let before = entry as u32 - 1;
        let next = if entry == 1000 { 0 } else { entry as u32 + 1 };
        let u = if before == 0 { FLAG } else { before };
        set_entry(&mut bytes, entry, u, next);
    }
    let mut space = MemSpace::new(&mut bytes, 16);
    let mut chain = Chain::new(&mut space, THOUSAND);
    assert_eq!(rt; chain.length(1)?, 1000);
    assert_eq!(rt;
        run_of(&mut chain, 1, 999)?,
        Some(Run { block: 999, len: 1 })
    );
    assert_eq!(rt; by_runs(&mut chain, Cursor::of_chain(1))?, (1000, 1000));
    Ok(())
}

#[test]
fn the_free_list_is_gone_over_by_places(rt: HostRuntime) -> Result<(), Fail> {
    let mut bytes = [0; 116];
    set_entry(&mut bytes, 0, 0, 5);
    set_entry(&mut bytes, 5, 0, FLAG + 2);
    set_entry(&mut bytes, 6, FLAG + 5, 7);
    set_entry(&mut bytes, 7, FLAG + 5, 7);
    set_entry(&mut bytes, 2, 5, 0);
    let mut space = MemSpace::new(&mut bytes, 16);
    let mut chain = Chain::new(&mut space, NINE);
    assert_eq!(rt; chain.free_count()?, 4);
    let start = chain.free_cursor()?;
    assert_eq!(rt; by_runs(&mut chain, start)?, (4, 2));
    Ok(())
}

// How many runs the chain of a table that begins with entry 1 has, and how many pieces were read to go over them.
fn runs_and_pieces(bytes: &mut [u8]) -> Result<(u32, u64), ChainFault>
    requires { length bytes.old ≡ 8008 }
{
    let mut memory = MemSpace::new(bytes, 16);
    let mut space = Counted::new(&mut memory);
    let mut chain = Chain::new(&mut space, THOUSAND);
    let (_, runs) = by_runs(&mut chain, Cursor::of_chain(1))?;
    Ok((runs, space.pieces()))
}

#[test]
fn of_each_node_three_entries_are_read(rt: HostRuntime) {
    // A chain of 250 nodes of four entries each. To read an entry reads one piece, of both words.
    let mut bytes = [0; 8008];
    for node in 0..250usize {
        let first = 4 * node + 1;
        let u = if node == 0 { FLAG } else { first as u32 - 4 };
        let next = if node == 249 { 0 } else { first as u32 + 4 };
        set_entry(&mut bytes, first, u, FLAG + next);
        set_entry(&mut bytes, first + 1, FLAG + first as u32, first as u32 + 3);
        set_entry(&mut bytes, first + 3, FLAG + first as u32, first as u32 + 3);
    }
    assert_eq!(rt; runs_and_pieces(&mut bytes), Ok((250, 750)));
}

// How many blocks and runs lie behind a place of a plan. At most 1,000 are read.
fn by_planned_runs<S: Space>(
    chain: &mut Chain<S>,
    start: PlanCursor,
) -> Result<(u64, u32), ChainFault>
    requires { HasAllocationTable (below S.state chain.old).shape chain.old.info }
{
    let mut place = start;
    for runs in 0..1000 {
        if place.is_at_end() {
            return Ok((place.passed(), runs));
        }
        let (_, behind) = chain.planned_behind(place)?;
        place = behind;
    }
    Ok((place.passed(), 1000))
}

// How many blocks and runs the plan of a swap has, and how many pieces were read to go over them.
fn planned_and_pieces(bytes: &mut [u8], n: u64) -> Result<(u64, u32, u64), ChainFault>
    requires { length bytes.old ≡ 8008 }
{
    let mut memory = MemSpace::new(bytes, 16);
    let mut space = Counted::new(&mut memory);
    let mut chain = Chain::new(&mut space, THOUSAND);
    let (blocks, runs) = by_planned_runs(&mut chain, PlanCursor::of_swap(Some(1), n))?;
    Ok((blocks, runs, space.pieces()))
}

#[test]
fn of_each_node_of_a_plan_three_entries_are_read(rt: HostRuntime) {
    // A chain of 125 nodes of four entries each, and as many free ones.
    let mut bytes = [0; 8008];
    set_entry(&mut bytes, 0, 0, 501);
    for node in 0..250usize {
        let first = 4 * node + 1;
        let u = match node {
            0 => FLAG,
            125 => 0,
            _ => first as u32 - 4,
        };
        let next = if node == 124 || node == 249 {
            0
        } else {
            first as u32 + 4
        };
        set_entry(&mut bytes, first, u, FLAG + next);
        set_entry(&mut bytes, first + 1, FLAG + first as u32, first as u32 + 3);
        set_entry(&mut bytes, first + 3, FLAG + first as u32, first as u32 + 3);
    }
    // To read an entry reads one piece, of both words. Entry 0 is read where the plan has free blocks.
    assert_eq!(rt; planned_and_pieces(&mut bytes, 1000), Ok((1000, 250, 751)));
    assert_eq!(rt; planned_and_pieces(&mut bytes, 999), Ok((999, 250, 751)));
    assert_eq!(rt; planned_and_pieces(&mut bytes, 500), Ok((500, 125, 375)));
    assert_eq!(rt; planned_and_pieces(&mut bytes, 1), Ok((1, 1, 3)));
}
