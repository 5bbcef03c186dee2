//! Swaps over a table of which an entry is never written or spoilt.

ghost use Rattle.std.specs.Prelude.{◌<◌};

use super::*;
use save_bytes::{Bad, set_u32};
use save_samples::{Hole, HoleSpace};

/// The flag of a word.
const FLAG: u32 = 0x8000_0000;

/// A table of 66 entries behind entry 0.
const SIXTY_SIX: ChainInfo = ChainInfo {
    table_at: 0,
    count: 66,
    region_at: 0,
    block: 8,
};

// Two chains of one block, of entries 1 and 2, and one free node of entries 3 to 66.
fn made_table() -> [u8; 536] {
    let mut bytes = [0; 536];
    set_u32(&mut bytes, 4, 3);
    set_u32(&mut bytes, 8, FLAG);
    set_u32(&mut bytes, 16, FLAG);
    set_u32(&mut bytes, 28, FLAG);
    set_u32(&mut bytes, 32, FLAG + 3);
    set_u32(&mut bytes, 36, 66);
    set_u32(&mut bytes, 528, FLAG + 3);
    set_u32(&mut bytes, 532, 66);
    bytes
}

// A table whose entries are all filled but one.
fn with_hole(entry: usize, hole: Hole) -> [Hole; 67]
    requires { entry < 67 }
{
    let mut holes = [Hole::Filled; 67];
    holes[entry] = hole;
    holes
}

// What is said before a swap of the chain of entry 1, and what it answers, where one entry of the table is a hole.
fn answers(
    entry: usize,
    hole: Hole,
    n: u64,
) -> (Result<(), ChainFault>, Result<Option<u32>, ChainFault>)
    requires { entry < 67 }
{
    let mut bytes = made_table();
    let mut holes = with_hole(entry, hole);
    let mut space = HoleSpace::new(&mut bytes, 8, &mut holes);
    let mut chain = Chain::new(&mut space, SIXTY_SIX);
    let ready = chain.ready_swap(Some(1), n);
    let result = chain.swap(Some(1), n);
    (ready, result)
}

// The refusal of an entry that is a hole, which names the level of the hole and the entry's own block.
fn damaged(level: u8, entry: usize) -> ChainFault {
    ChainFault::Bad(Bad::Damaged {
        part: 0,
        level,
        block: entry as u64,
    })
}

#[test]
fn a_spoilt_entry_is_met_where_it_is_read_or_near_the_cut(rt: HostRuntime) {
    // Of the list 1, 3, 4 .. 66 eleven blocks end with entry 12.
    let met = [0, 1, 3, 4, 12, 13, 14, 66];
    for entry in 0..67usize {
        for level in [2, 4] {
            let found = answers(entry, Hole::Broken(level), 11);
            let fault = damaged(level, entry);
            if met.contains(&entry) {
                assert_eq!(rt; found, (Err(fault), Err(fault)), "entry {entry}");
            } else {
                assert_eq!(rt; found, (Ok(()), Ok(Some(1))), "entry {entry}");
            }
        }
    }
}

#[test]
fn an_entry_that_was_never_written_is_met_where_it_is_read(rt: HostRuntime) {
    let met = [0, 1, 3, 4, 66];
    for entry in 0..67usize {
        let found = answers(entry, Hole::NeverWritten(3), 11);
        let fault = damaged(3, entry);
        if met.contains(&entry) {
            assert_eq!(rt; found, (Err(fault), Err(fault)), "entry {entry}");
        } else {
            assert_eq!(rt; found, (Ok(()), Ok(Some(1))), "entry {entry}");
        }
    }
}

#[test]
fn where_no_node_is_cut_no_ignored_entry_is_met(rt: HostRuntime) {
    for (n, want) in [(0, None), (1, Some(1)), (65, Some(1))] {
        for entry in [2, 5, 6, 35, 64, 65] {
            let found = answers(entry, Hole::Broken(2), n);
            assert_eq!(rt; found, (Ok(()), Ok(want)), "{n} blocks, entry {entry}");
        }
    }
}

#[test]
fn a_cut_near_an_end_of_a_node_meets_fewer_entries(rt: HostRuntime) {
    // Two blocks end with entry 3: 4 and 5 begin the rest. Sixty-four end with 65, the last entry but one.
    let cases: [(u64, &[usize]); 3] = [(2, &[5]), (3, &[5, 6]), (64, &[65])];
    for (n, met) in cases {
        for entry in [2, 5, 6, 7, 63, 64, 65] {
            let found = answers(entry, Hole::Broken(2), n);
            let fault = damaged(2, entry);
            if met.contains(&entry) {
                assert_eq!(rt;
                    found,
                    (Err(fault), Err(fault)),
                    "{n} blocks, entry {entry}"
                );
            } else {
                assert_eq!(rt; found, (Ok(()), Ok(Some(1))), "{n} blocks, entry {entry}");
            }
        }
    }
}
