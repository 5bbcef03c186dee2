ghost use Rattle.std.specs.Prelude.{◌≡◌, ℕ, ◌+◌, ◌*◌, ◌<◌, ◌≤◌, length, slice_index, OnOk};
ghost use Rattle.std.specs.Result.{result_err};
ghost use Rattle.save_bytes.specs.Reads.{Reads};
ghost use Rattle.save_bytes.specs.State.{CanPut};
ghost use Rattle.save_bytes.specs.Within.{ChangesWithin};
ghost use Rattle.chain_space.specs.Laid.{extra_of, laid_state, CanLay, IsLaidSite};

use super::*;
use chain_nodes::{ChainInfo, FLAG};
use save_bytes::{Bad, MemSpace, Space, set_u32, space_copy};
use std::test::Fail;

/// A table of 9 entries behind entry 0, and 9 blocks of 4 bytes each.
const NINE: ChainInfo = ChainInfo {
    table_at: 0,
    count: 9,
    region_at: 80,
    block: 4,
};

// Sets the two words of an entry of a table that begins at 0.
fn set_entry(bytes: &mut [u8], entry: usize, u: u32, v: u32)
    requires { 8 * entry + 8 ≤ length bytes.old }
{
    set_u32(bytes, 8 * entry, u);
    set_u32(bytes, 8 * entry + 4, v);
}

// A chain of a node of entries 3 to 5 and a node of entry 9. Each byte of a block is the block's number.
fn two_nodes() -> [u8; 116] {
    let mut bytes = [0; 116];
    set_entry(&mut bytes, 3, FLAG, FLAG + 9);
    set_entry(&mut bytes, 4, FLAG + 3, 5);
    set_entry(&mut bytes, 5, FLAG + 3, 5);
    set_entry(&mut bytes, 9, 3, 0);
    for i in 0..36 {
        bytes[80 + i] = i as u8 / 4;
    }
    bytes
}

// How many bytes a chain of the table of 9 entries shows, and these bytes.
fn shown_bytes(bytes: &mut [u8], out: &mut [u8]) -> Result<u64, Bad>
    requires bytes { length bytes.old ≡ 116 }
    requires out { length out.old ≤ 16 }
{
    let mut memory = MemSpace::new(bytes, 16);
    let mut space = ChainSpace::new(&mut memory, NINE, 3, 4);
    space_copy(&mut space, 116, out)?;
    Ok(space.len())
}

// Puts bytes into a space that shows the chain.
fn put_shown_bytes(bytes: &mut [u8], at: u64, put: &[u8]) -> Result<(), Bad>
    requires bytes { length bytes.old ≡ 116 }
    requires inside { at + length put.now ≤ 132 }
    ensures len { length bytes.new ≡ 116 }
{
    let mut memory = MemSpace::new(bytes, 16);
    let mut space = ChainSpace::new(&mut memory, NINE, 3, 4);
    space.ready(at, put.len() as u64)?;
    space.put(at, put)
}

#[test]
fn the_blocks_of_a_chain_lie_behind_their_space(rt: HostRuntime) -> Result<(), Fail> {
    let mut bytes = two_nodes();
    let mut out = [0; 16];
    assert_eq!(rt; shown_bytes(&mut bytes, &mut out).ok().unwrap_or(0), 132);
    assert_eq!(rt; out, [2, 2, 2, 2, 3, 3, 3, 3, 4, 4, 4, 4, 8, 8, 8, 8]);
    Ok(())
}

#[test]
fn a_byte_put_at_one_place_shows_at_its_twin(rt: HostRuntime) -> Result<(), Fail> {
    let mut bytes = two_nodes();
    let mut out = [0; 16];
    // The last two bytes of block 4 and the first two of block 8, behind the space.
    assert!(rt; put_shown_bytes(&mut bytes, 126, &[91, 92, 93, 94]).is_ok());
    assert_eq!(rt; &bytes[96..100], [4, 4, 91, 92].as_slice());
    assert_eq!(rt; &bytes[112..116], [93, 94, 8, 8].as_slice());
    // The first byte of block 2, in the space.
    assert!(rt; put_shown_bytes(&mut bytes, 88, &[90]).is_ok());
    assert!(rt; shown_bytes(&mut bytes, &mut out).is_ok());
    assert_eq!(rt; out, [90, 2, 2, 2, 3, 3, 3, 3, 4, 4, 91, 92, 93, 94, 8, 8]);
    Ok(())
}

#[test]
fn nothing_is_put_where_the_chain_is_broken(rt: HostRuntime) -> Result<(), Fail> {
    let mut bytes = two_nodes();
    set_entry(&mut bytes, 9, 4, 0);
    let before = bytes;
    let mut out = [0; 16];
    assert!(rt; put_shown_bytes(&mut bytes, 126, &[91, 92, 93, 94]).is_ok());
    assert_eq!(rt; bytes, before);
    assert!(rt; shown_bytes(&mut bytes, &mut out).is_ok());
    Ok(())
}

// Reads bytes through a space behind which some of its blocks lie once more. For its base this is a call that reads.
fn copy_laid<S: Space>(
    base: &mut S,
    region_at: u64,
    block: u32,
    blocks: &[u32],
    at: u64,
    out: &mut [u8],
) -> Result<(), Bad>
    requires room { CanLay (extra_of region_at block blocks.now) (S.state base.old).shape }
    requires inside { at + length out.old ≤ (S.state base.old).shape.size + length blocks.now * block }
    ensures reads { Reads S.state S.keeps S.lands base.old base.new (result_err result) }
{
    let mut space = BlocksSpace::new(base, region_at, block, blocks);
    space_copy(&mut space, at, out)
}

// Puts bytes into a space behind which some of its blocks lie once more. In its base the places of these bytes change,
// and all others soften at most.
fn put_laid_once<S: Space>(
    base: &mut S,
    region_at: u64,
    block: u32,
    blocks: &[u32],
    at: u64,
    bytes: &[u8],
) -> Result<(), Bad>
    requires room { CanLay (extra_of region_at block blocks.now) (S.state base.old).shape }
    requires inside { at + length bytes.now ≤ (S.state base.old).shape.size + length blocks.now * block }
    ensures changes { let extra = extra_of region_at block blocks.now in
        CanPut (laid_state extra (S.state base.old)) at (length bytes.now)
        → OnOk result (ChangesWithin (S.state base.old)
        (IsLaidSite extra (S.state base.old).shape.size at (length bytes.now)) (S.state base.new).cells) }
{
    let mut space = BlocksSpace::new(base, region_at, block, blocks);
    space.put(at, bytes)
}

// Puts bytes into a space behind which some of its blocks lie once more.
fn put_laid_bytes(bytes: &mut [u8], blocks: &[u32], at: u64, put: &[u8]) -> Result<u64, Bad>
    requires bytes { length bytes.old ≡ 116 }
    requires blocks { (k : ℕ) → k < length blocks.now → slice_index blocks.now k < 9 }
    requires few { length blocks.now ≤ 9 }
    requires inside { at + length put.now ≤ 116 + length blocks.now * 4 }
    ensures len { length bytes.new ≡ 116 }
{
    let mut memory = MemSpace::new(bytes, 16);
    let mut space = BlocksSpace::new(&mut memory, 80, 4, blocks);
    space.ready(at, put.len() as u64)?;
    space.put(at, put)?;
    Ok(space.len())
}

#[test]
fn the_blocks_of_a_list_lie_behind_their_space(rt: HostRuntime) -> Result<(), Fail> {
    let mut bytes = two_nodes();
    let mut memory = MemSpace::new(&mut bytes, 16);
    let mut out = [0; 14];
    assert!(rt; copy_laid(&mut memory, 80, 4, &[8, 2, 3], 114, &mut out).is_ok());
    assert_eq!(rt; out, [8, 8, 8, 8, 8, 8, 2, 2, 2, 2, 3, 3, 3, 3]);
    let mut end = [0; 2];
    assert!(rt; copy_laid(&mut memory, 80, 4, &[], 114, &mut end).is_ok());
    assert_eq!(rt; end, [8, 8]);
    Ok(())
}

#[test]
fn a_byte_put_behind_a_space_shows_in_its_block(rt: HostRuntime) {
    let mut bytes = two_nodes();
    // The last two bytes of block 8 and the first two of block 2, behind the space.
    assert!(rt; put_laid_bytes(&mut bytes, &[8, 2], 118, &[91, 92, 93, 94]) == Ok(124));
    assert_eq!(rt; &bytes[112..116], [8, 8, 91, 92].as_slice());
    assert_eq!(rt; &bytes[88..92], [93, 94, 2, 2].as_slice());
    let mut memory = MemSpace::new(&mut bytes, 16);
    assert!(rt; put_laid_once(&mut memory, 80, 4, &[8], 116, &[95]).is_ok());
    assert_eq!(rt; bytes[112], 95);
}
