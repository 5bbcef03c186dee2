ghost use Rattle.std.specs.Prelude.{◌≡◌, ◌+◌, ◌*◌, ◌<◌, ◌≤◌, length};
ghost use Rattle.chain_nodes.specs.Table.{HasAllocationTable};
ghost use Rattle.alloc_chain.specs.Held.{below};

use super::*;
use save_bytes::{MemSpace, Space, set_u32, u32_at};
use std::test::Fail;

/// The flag of a word.
const FLAG: u32 = 0x8000_0000;

/// A table of 9 entries behind entry 0.
const NINE: ChainInfo = ChainInfo {
    table_at: 0,
    count: 9,
    region_at: 80,
    block: 4,
};

// Sets the two words of an entry of a table that begins at 0.
fn set_entry(bytes: &mut [u8], entry: usize, u: u32, v: u32)
    requires { 8 * entry + 8 ≤ length bytes.old }
{
    set_u32(bytes, 8 * entry, u);
    set_u32(bytes, 8 * entry + 4, v);
}

// A chain of a node of entries 3 to 5 and a node of entry 9, and a free node of entries 6 to 8. Entries 1 and 2 are of no
// list, and have words of their own.
fn chain_and_free() -> [u8; 116] {
    let mut bytes = [0; 116];
    set_entry(&mut bytes, 0, 77, 6);
    set_entry(&mut bytes, 1, 11, 12);
    set_entry(&mut bytes, 2, 21, 22);
    set_entry(&mut bytes, 3, FLAG, FLAG + 9);
    set_entry(&mut bytes, 4, FLAG + 3, 5);
    set_entry(&mut bytes, 5, FLAG + 3, 5);
    set_entry(&mut bytes, 9, 3, 0);
    set_entry(&mut bytes, 6, 0, FLAG);
    set_entry(&mut bytes, 7, FLAG + 6, 8);
    set_entry(&mut bytes, 8, FLAG + 6, 8);
    bytes
}

// The words of the ten entries.
fn words(bytes: &[u8]) -> [(u32, u32); 10]
    requires { length bytes.now ≡ 116 }
{
    let mut words = [(0, 0); 10];
    for entry in 0..10usize {
        words[entry] = (u32_at(bytes, 8 * entry), u32_at(bytes, 8 * entry + 4));
    }
    words
}

// What a swap answers, and what it leaves of the table.
fn swapped(given: Option<u32>, n: u64) -> (Result<Option<u32>, ChainFault>, [(u32, u32); 10]) {
    let mut bytes = chain_and_free();
    let mut space = MemSpace::new(&mut bytes, 16);
    let mut chain = Chain::new(&mut space, NINE);
    let result = chain.swap(given, n);
    (result, words(&bytes))
}

#[test]
fn a_swap_takes_the_blocks_of_the_old_chain_first(rt: HostRuntime) {
    let want = [
        (77, 7),
        (11, 12),
        (21, 22),
        (FLAG, FLAG + 9),
        (FLAG + 3, 5),
        (FLAG + 3, 5),
        (9, 0),
        (0, FLAG),
        (FLAG + 7, 8),
        (3, 6),
    ];
    assert_eq!(rt; swapped(Some(3), 5), (Ok(Some(3)), want));
}

#[test]
fn a_swap_that_takes_fewer_frees_the_rest_before_the_free_blocks(rt: HostRuntime) {
    // The chain is 3 and 4, and the free list 5, 9, 6, 7, 8.
    let want = [
        (77, 5),
        (11, 12),
        (21, 22),
        (FLAG, FLAG),
        (FLAG + 3, 4),
        (0, 9),
        (9, FLAG),
        (FLAG + 6, 8),
        (FLAG + 6, 8),
        (5, 6),
    ];
    assert_eq!(rt; swapped(Some(3), 2), (Ok(Some(3)), want));
}

#[test]
fn a_chain_is_taken_of_the_free_blocks_alone(rt: HostRuntime) {
    let want = [
        (77, 8),
        (11, 12),
        (21, 22),
        (FLAG, FLAG + 9),
        (FLAG + 3, 5),
        (FLAG + 3, 5),
        (FLAG, FLAG),
        (FLAG + 6, 7),
        (0, 0),
        (3, 0),
    ];
    assert_eq!(rt; swapped(None, 2), (Ok(Some(6)), want));
}

#[test]
fn a_chain_of_two_nodes_is_given_back_whole(rt: HostRuntime) {
    let want = [
        (77, 3),
        (11, 12),
        (21, 22),
        (0, FLAG + 9),
        (FLAG + 3, 5),
        (FLAG + 3, 5),
        (9, FLAG),
        (FLAG + 6, 8),
        (FLAG + 6, 8),
        (3, 6),
    ];
    assert_eq!(rt; swapped(Some(3), 0), (Ok(None), want));
}

#[test]
fn all_blocks_are_taken(rt: HostRuntime) {
    let want = [
        (77, 0),
        (11, 12),
        (21, 22),
        (FLAG, FLAG + 9),
        (FLAG + 3, 5),
        (FLAG + 3, 5),
        (9, FLAG),
        (FLAG + 6, 8),
        (FLAG + 6, 8),
        (3, 6),
    ];
    assert_eq!(rt; swapped(Some(3), 7), (Ok(Some(3)), want));
}

#[test]
fn a_swap_of_as_many_blocks_changes_nothing(rt: HostRuntime) {
    let same = words(&chain_and_free());
    assert_eq!(rt; swapped(Some(3), 4), (Ok(Some(3)), same));
    assert_eq!(rt; swapped(None, 0), (Ok(None), same));
}

#[test]
fn one_block_is_taken(rt: HostRuntime) {
    let want = [
        (77, 7),
        (11, 12),
        (21, 22),
        (FLAG, FLAG + 9),
        (FLAG + 3, 5),
        (FLAG + 3, 5),
        (FLAG, 0),
        (0, FLAG),
        (FLAG + 7, 8),
        (3, 0),
    ];
    assert_eq!(rt; swapped(None, 1), (Ok(Some(6)), want));
}

#[test]
fn too_few_blocks_are_counted_and_nothing_is_changed(rt: HostRuntime) {
    let same = words(&chain_and_free());
    for (given, need, have) in [
        (Some(3), 8, 7),
        (Some(3), u64::MAX, 7),
        (None, 4, 3),
        (None, 0x1_0000_0001, 3),
    ] {
        let want = Err(ChainFault::Short { need, have });
        assert_eq!(rt; swapped(given, need), (want, same));
    }
}

#[test]
fn what_a_swap_would_refuse_is_said_before_it(rt: HostRuntime) {
    let cases = [
        (Some(3), 7, Ok(())),
        (Some(3), 8, Err(ChainFault::Short { need: 8, have: 7 })),
        (None, 3, Ok(())),
        (None, 4, Err(ChainFault::Short { need: 4, have: 3 })),
        (Some(10), 1, Err(ChainFault::Broken { entry: 10 })),
        (Some(0), 1, Err(ChainFault::Broken { entry: 0 })),
    ];
    for (given, n, want) in cases {
        let mut bytes = chain_and_free();
        let mut space = MemSpace::new(&mut bytes, 16);
        let mut chain = Chain::new(&mut space, NINE);
        assert_eq!(rt; chain.ready_swap(given, n), want);
        assert_eq!(rt; words(&bytes), words(&chain_and_free()));
    }
}

// What the plan of a swap says of the run from a block on.
fn planned(old: Option<u32>, n: u64, pos: u32) -> Result<Run, ChainFault>
    requires { pos < n }
{
    let mut bytes = chain_and_free();
    let mut space = MemSpace::new(&mut bytes, 16);
    let mut chain = Chain::new(&mut space, NINE);
    chain.plan_run(old, n, pos)
}

// The first block and the length of each run of the plan of a swap.
fn planned_runs(old: Option<u32>, n: u64) -> [(u32, u32); 8] {
    let mut runs = [(0, 0); 8];
    for pos in 0..8usize {
        if (pos as u64) < n {
            if let Ok(run) = planned(old, n, pos as u32) {
                runs[pos] = (run.block, run.len);
            }
        }
    }
    runs
}

#[test]
fn a_plan_goes_over_the_old_chain_and_then_the_free_list(rt: HostRuntime) {
    let none = (0, 0);
    let old = [(2, 3), (3, 2), (4, 1), (8, 1)];
    let [one, two, three, four] = old;
    let whole = [one, two, three, four, (5, 3), (6, 2), (7, 1), none];
    assert_eq!(rt; planned_runs(Some(3), 7), whole);
    let five = [one, two, three, four, (5, 1), none, none, none];
    assert_eq!(rt; planned_runs(Some(3), 5), five);
    let same = [one, two, three, four, none, none, none, none];
    assert_eq!(rt; planned_runs(Some(3), 4), same);
}

#[test]
fn a_plan_of_fewer_blocks_ends_within_a_node(rt: HostRuntime) {
    let none = (0, 0);
    let want = [(2, 2), (3, 1), none, none, none, none, none, none];
    assert_eq!(rt; planned_runs(Some(3), 2), want);
}

#[test]
fn a_plan_without_an_old_chain_is_of_free_blocks(rt: HostRuntime) {
    let none = (0, 0);
    let want = [(5, 2), (6, 1), none, none, none, none, none, none];
    assert_eq!(rt; planned_runs(None, 2), want);
}

#[test]
fn a_plan_past_the_last_free_block_has_no_run(rt: HostRuntime) {
    assert_eq!(rt;
        planned(Some(3), 8, 7),
        Err(ChainFault::Broken { entry: 6 })
    );
    assert_eq!(rt;
        planned(None, u64::MAX, u32::MAX),
        Err(ChainFault::Broken { entry: 6 })
    );
}

#[test]
fn a_plan_of_a_chain_of_no_entry_is_refused(rt: HostRuntime) {
    assert_eq!(rt;
        planned(Some(10), 1, 0),
        Err(ChainFault::Broken { entry: 10 })
    );
    assert_eq!(rt;
        planned(Some(0), 1, 0),
        Err(ChainFault::Broken { entry: 0 })
    );
}

// The first block and the length of each run behind a place of a plan. At most eight are read.
fn runs_behind<S: Space>(
    chain: &mut Chain<S>,
    start: PlanCursor,
) -> Result<[(u32, u32); 8], ChainFault>
    requires { HasAllocationTable (below S.state chain.old).shape chain.old.info }
{
    let mut place = start;
    let mut runs = [(0, 0); 8];
    for k in 0..8usize {
        if place.is_at_end() {
            return Ok(runs);
        }
        let (run, behind) = chain.planned_behind(place)?;
        runs[k] = (run.block, run.len);
        place = behind;
    }
    Ok(runs)
}

#[test]
fn a_plan_is_gone_over_by_places(rt: HostRuntime) {
    let none = (0, 0);
    let cases: [(Option<u32>, u64, &[(u32, u32)]); 6] = [
        (Some(3), 7, &[(2, 3), (8, 1), (5, 3)]),
        (Some(3), 5, &[(2, 3), (8, 1), (5, 1)]),
        (Some(3), 4, &[(2, 3), (8, 1)]),
        (Some(3), 2, &[(2, 2)]),
        (None, 2, &[(5, 2)]),
        (Some(3), 0, &[]),
    ];
    for (old, n, want) in cases {
        let mut bytes = chain_and_free();
        let mut space = MemSpace::new(&mut bytes, 16);
        let mut chain = Chain::new(&mut space, NINE);
        let mut runs = [none; 8];
        for (k, run) in want.iter().enumerate() {
            if k < 8 {
                runs[k] = *run;
            }
        }
        let found = runs_behind(&mut chain, PlanCursor::of_swap(old, n));
        assert_eq!(rt; found, Ok(runs), "{n} blocks");
    }
}

#[test]
fn no_run_lies_behind_the_last_free_block(rt: HostRuntime) {
    for (old, n) in [(Some(3), 8), (None, 4)] {
        let mut bytes = chain_and_free();
        let mut space = MemSpace::new(&mut bytes, 16);
        let mut chain = Chain::new(&mut space, NINE);
        let found = runs_behind(&mut chain, PlanCursor::of_swap(old, n));
        assert_eq!(rt; found, Err(ChainFault::Broken { entry: 6 }));
    }
}
