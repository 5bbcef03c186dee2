ghost use Rattle.std.specs.Prelude.{◌≡◌, ◌+◌, ◌<◌, ◌≤◌, length, vec_len, IfOk};
ghost use Rattle.save_bytes.specs.Memory.{memory_shape};
ghost use Rattle.difi.specs.Sound.{HasSoundLevels};
ghost use Rattle.difi.specs.Contents.{view_size};
ghost use Rattle.dpfs_tree.specs.Marks.{IsMadeForContents};
ghost use Rattle.dpfs_tree.specs.View.{HasPartition};

use super::*;
use difi::Difi;
use save_bytes::{MemSpace, Space, space_copy};
use save_samples::{EXTERNAL_DIFI, LONE_DIFI, LONG_DIFI};
use std::alloc::{AllocError, Global};
use std::test::Fail;

/// The partition begins here in each base.
const PART_AT: u64 = 16;

/// Level 3 has 1,030 blocks, so level 2 has 33 words in two blocks.
fn internal_tree(selector: u8) -> Difi
    requires { selector < 2 }
    ensures sound { HasSoundLevels result 264192 }
    ensures size { view_size result ≡ 131840 }
{
    Difi {
        selector,
        ..LONG_DIFI
    }
}

/// Level 3 has two blocks, the last of them short, and 1,000 bytes of level four lie behind its copies.
fn external_tree() -> Difi
    ensures sound { HasSoundLevels result 2024 }
    ensures size { view_size result ≡ 1200 }
{
    EXTERNAL_DIFI
}

/// The tree of a new image with one partition of 64 blocks: levels 1, 2 and 3 have 4, 128 and 49,152 bytes.
fn new_tree() -> Difi
    ensures sound { HasSoundLevels result 106496 }
    ensures size { view_size result ≡ 49152 }
{
    LONE_DIFI
}

/// The byte of a fresh view, or 0 where it is refused.
fn byte_at(alloc: Global, bytes: &mut [u8], difi: &Difi, at: u64) -> Result<u8, AllocError>
    requires partition { HasPartition (memory_shape (length bytes.old) 4096) PART_AT difi.now }
    requires inside { at < view_size difi.now }
{
    let mut state = DpfsState::new(alloc, difi)?;
    let mut space = MemSpace::new(bytes, 4096);
    let mut view = DpfsView::new(&mut space, PART_AT, difi, &mut state);
    let byte = match view.piece(at, 1) {
        Ok(piece) => piece[0],
        Err(_) => 0,
    };
    Ok(byte)
}

/// Where the bytes from `at` on lie for a fresh view, or nowhere where it is refused.
fn run_at(
    alloc: Global,
    bytes: &mut [u8],
    difi: &Difi,
    at: u64,
    most: usize,
) -> Result<(u64, usize), AllocError>
    requires partition { HasPartition (memory_shape (length bytes.old) 4096) PART_AT difi.now }
    requires inside { at < view_size difi.now }
    requires some { 1 ≤ most }
{
    let mut state = DpfsState::new(alloc, difi)?;
    let mut space = MemSpace::new(bytes, 4096);
    let mut view = DpfsView::new(&mut space, PART_AT, difi, &mut state);
    let run = match view.locate(at, most) {
        Ok(run) => run,
        Err(_) => (0, 0),
    };
    Ok(run)
}

/// Bytes in which each byte of level 3's first copy is 1 and of its second copy 2, and a few others are written.
fn base_with(alloc: Global, written: &[(usize, u8)]) -> Result<Vec<u8>, AllocError>
    ensures { IfOk result (λ bytes. vec_len bytes ≡ 264208) }
{
    let mut bytes = zeros(alloc, 264_208)?;
    fill(&mut bytes, 528, 1);
    fill(&mut bytes, 132_368, 2);
    write(&mut bytes, written);
    Ok(bytes)
}

/// Puts bytes into a view, and says whether it was done.
fn put_at(bytes: &mut [u8], difi: &Difi, state: &mut DpfsState, at: u64, new: &[u8]) -> bool
    requires partition { HasPartition (memory_shape (length bytes.old) 4096) PART_AT difi.now }
    requires made { IsMadeForContents difi.now state.old }
    requires inside { at + length new.now ≤ view_size difi.now }
    ensures { IsMadeForContents difi.now state.new }
{
    let mut space = MemSpace::new(bytes, 4096);
    let mut view = DpfsView::new(&mut space, PART_AT, difi, state);
    view.put(at, new).is_ok()
}

/// A byte of a view, or 0 where it is refused.
fn shown_byte(bytes: &mut [u8], difi: &Difi, state: &mut DpfsState, at: u64) -> u8
    requires partition { HasPartition (memory_shape (length bytes.old) 4096) PART_AT difi.now }
    requires made { IsMadeForContents difi.now state.old }
    requires inside { at < view_size difi.now }
    ensures { IsMadeForContents difi.now state.new }
{
    let mut space = MemSpace::new(bytes, 4096);
    let mut view = DpfsView::new(&mut space, PART_AT, difi, state);
    match view.piece(at, 1) {
        Ok(piece) => piece[0],
        Err(_) => 0,
    }
}

/// Seals a view, and takes the selector that it answers, if it answers one.
fn seal_at(bytes: &mut [u8], difi: &Difi, state: &mut DpfsState) -> Option<u8>
    requires partition { HasPartition (memory_shape (length bytes.old) 4096) PART_AT difi.now }
    requires made { IsMadeForContents difi.now state.old }
    ensures { IsMadeForContents difi.now state.new }
{
    let mut space = MemSpace::new(bytes, 4096);
    let mut view = DpfsView::new(&mut space, PART_AT, difi, state);
    view.seal().ok()
}

/// The first bytes of a view, as many as are asked for, or zeros where it is refused.
fn shown(bytes: &mut [u8], difi: &Difi, state: &mut DpfsState, out: &mut [u8])
    requires partition { HasPartition (memory_shape (length bytes.old) 4096) PART_AT difi.now }
    requires made { IsMadeForContents difi.now state.old }
    requires inside { length out.old ≤ view_size difi.now }
    ensures { IsMadeForContents difi.now state.new }
{
    let mut space = MemSpace::new(bytes, 4096);
    let mut view = DpfsView::new(&mut space, PART_AT, difi, state);
    if space_copy(&mut view, 0, out).is_err() {
        out.fill(0);
    }
}

fn zeros(alloc: Global, len: usize) -> Result<Vec<u8>, AllocError>
    ensures { IfOk result (λ bytes. vec_len bytes ≡ len) }
{
    vec![in alloc; 0; len]
}

fn fill(bytes: &mut [u8], start: usize, byte: u8)
    requires { start ≤ length bytes.old }
{
    bytes[start..].fill(byte);
}

/// Puts bytes into a view and into a plain list, and says whether it was done.
fn put_both(
    bytes: &mut [u8],
    list: &mut [u8],
    difi: &Difi,
    state: &mut DpfsState,
    at: usize,
    new: &[u8],
) -> bool
    requires partition { HasPartition (memory_shape (length bytes.old) 4096) PART_AT difi.now }
    requires made { IsMadeForContents difi.now state.old }
    requires inside { at + length new.now ≤ view_size difi.now }
    requires list { length list.old ≡ view_size difi.now }
    ensures { IsMadeForContents difi.now state.new }
{
    list[at..at + new.len()].copy_from_slice(new);
    put_at(bytes, difi, state, at as u64, new)
}

fn write(bytes: &mut [u8], written: &[(usize, u8)]) {
    for (place, byte) in written {
        if *place < bytes.len() {
            bytes[*place] = *byte;
        }
    }
}

/// Byte 5 of a block of level 3.
fn block_byte(
    alloc: Global,
    written: &[(usize, u8)],
    selector: u8,
    block: u64,
) -> Result<u8, AllocError>
    requires selector { selector < 2 }
    requires block { block < 1030 }
{
    let difi = internal_tree(selector);
    let mut bytes = base_with(alloc, written)?;
    byte_at(alloc, &mut bytes, &difi, 128 * block + 5)
}

#[test]
fn first_word_chooses_blocks_from_the_high_end(rt: HostRuntime) -> Result<(), Fail> {
    let word = [(32, 0x01), (33, 0x00), (34, 0x00), (35, 0x40)];
    for block in 0..40u64 {
        let want = if block == 1 || block == 31 { 2 } else { 1 };
        assert_eq!(rt; block_byte(rt.alloc(), &word, 0, block)?, want);
    }
    Ok(())
}

#[test]
fn later_words_choose_later_blocks(rt: HostRuntime) -> Result<(), Fail> {
    let words = [(39, 0x80), (40, 0x02)];
    for (block, want) in [
        (0u64, 1u8),
        (31, 1),
        (32, 2),
        (33, 1),
        (63, 1),
        (93, 1),
        (94, 2),
        (95, 1),
        (1029, 1),
    ] {
        assert!(rt; block < 1030);
        assert_eq!(rt; block_byte(rt.alloc(), &words, 0, block)?, want);
    }
    Ok(())
}

#[test]
fn level_1_chooses_between_copies_that_differ_in_one_bit(rt: HostRuntime) -> Result<(), Fail> {
    // Byte 75 of level 2, in its first copy and in its second.
    let first = [(107, 0x55), (239, 0x54)];
    let second = [(107, 0x55), (239, 0x54), (19, 0x80)];
    for (block, by_first, by_second) in [
        (581u64, 2u8, 2u8),
        (582, 1, 1),
        (583, 2, 1),
        (584, 1, 1),
    ] {
        assert!(rt; block < 1030);
        assert_eq!(rt; block_byte(rt.alloc(), &first, 0, block)?, by_first);
        assert_eq!(rt; block_byte(rt.alloc(), &second, 0, block)?, by_second);
    }
    Ok(())
}

#[test]
fn both_copies_of_each_level_are_in_use(rt: HostRuntime) -> Result<(), Fail> {
    // Level 1's copies choose opposite copies of level 2's two blocks, and these choose opposite copies of level 3's.
    let bits = [
        (19, 0x80),
        (23, 0x40),
        (35, 0x80),
        (163, 0x80),
        (167, 0x40),
        (295, 0x40),
    ];
    for (block, by_first, by_second) in [
        (0u64, 1u8, 2u8),
        (1, 2, 1),
        (2, 1, 1),
        (1024, 2, 1),
        (1025, 1, 2),
        (1026, 1, 1),
    ] {
        assert!(rt; block < 1030);
        assert_eq!(rt; block_byte(rt.alloc(), &bits, 0, block)?, by_first);
        assert_eq!(rt; block_byte(rt.alloc(), &bits, 1, block)?, by_second);
    }
    Ok(())
}

#[test]
fn external_level_four_follows_level_3(rt: HostRuntime) -> Result<(), Fail> {
    let difi = external_tree();
    let mut memory = vec![in rt.alloc(); 0u8; 2040]?;
    let bytes = &mut memory[..];
    bytes[528..728].fill(1);
    bytes[728..928].fill(2);
    bytes[1040..2040].fill(8);
    bytes[1040] = 7;
    bytes[2039] = 9;
    bytes[35] = 0x40;
    for (at, want) in [
        (0u64, 1u8),
        (127, 1),
        (128, 2),
        (199, 2),
        (200, 7),
        (201, 8),
        (1199, 9),
    ] {
        assert!(rt; at < 1200);
        assert_eq!(rt; byte_at(rt.alloc(), bytes, &difi, at)?, want);
    }
    Ok(())
}

#[test]
fn runs_end_with_their_block(rt: HostRuntime) -> Result<(), Fail> {
    let difi = external_tree();
    let mut memory = vec![in rt.alloc(); 0u8; 2040]?;
    let bytes = &mut memory[..];
    bytes[35] = 0x40;
    for (at, most, place, count) in [
        (0u64, 1000usize, 528u64, 128usize),
        (100, 10, 628, 10),
        (100, 1000, 628, 28),
        (128, 1000, 856, 72),
        (199, 5, 927, 1),
        (200, 5, 1040, 5),
        (200, 5000, 1040, 1000),
        (1199, 1, 2039, 1),
    ] {
        assert!(rt; at < 1200);
        assert!(rt; 1 <= most);
        assert_eq!(rt; run_at(rt.alloc(), bytes, &difi, at, most)?, (place, count));
    }
    Ok(())
}

#[test]
fn no_block_of_a_new_state_is_touched(rt: HostRuntime) -> Result<(), Fail> {
    let difi = external_tree();
    let mut state = DpfsState::new(rt.alloc(), &difi)?;
    for block in [0u64, 1, 2, u64::MAX] {
        assert!(rt; !state.touched(block));
    }
    let mut bytes = [0; 2040];
    let mut space = MemSpace::new(&mut bytes, 4096);
    let view = DpfsView::new(&mut space, PART_AT, &difi, &mut state);
    assert_eq!(rt; view.len(), 1200);
    Ok(())
}

#[test]
fn a_put_goes_to_the_other_copies_of_its_blocks(rt: HostRuntime) -> Result<(), Fail> {
    let difi = internal_tree(0);
    let mut memory = base_with(rt.alloc(), &[])?;
    let bytes = &mut memory[..];
    let mut state = DpfsState::new(rt.alloc(), &difi)?;
    // The last two bytes of block 5 and the first one of block 6.
    assert!(rt; put_at(bytes, &difi, &mut state, 766, &[7, 8, 9]));
    for (place, want) in [
        (528 + 639, 1u8),
        (528 + 766, 1),
        (528 + 768, 1),
        (132_368 + 639, 2),
        (132_368 + 640, 1),
        (132_368 + 765, 1),
        (132_368 + 766, 7),
        (132_368 + 767, 8),
        (132_368 + 768, 9),
        (132_368 + 769, 1),
        (132_368 + 895, 1),
        (132_368 + 896, 2),
    ] {
        assert_eq!(rt; bytes.get(place).copied(), Some(want));
    }
    for (block, want) in [(4u64, false), (5, true), (6, true), (7, false)] {
        assert_eq!(rt; state.touched(block), want);
    }
    Ok(())
}

#[test]
fn a_put_that_was_dropped_is_made_again(rt: HostRuntime) -> Result<(), Fail> {
    let difi = internal_tree(0);
    let mut memory = base_with(rt.alloc(), &[])?;
    let bytes = &mut memory[..];
    let mut state = DpfsState::new(rt.alloc(), &difi)?;
    assert!(rt; put_at(bytes, &difi, &mut state, 640, &[7, 7, 7]));
    assert_eq!(rt; shown_byte(bytes, &difi, &mut state, 642), 7);
    state.drop_changes();
    assert_eq!(rt; shown_byte(bytes, &difi, &mut state, 642), 1);
    assert!(rt; put_at(bytes, &difi, &mut state, 641, &[9]));
    assert_eq!(rt; shown_byte(bytes, &difi, &mut state, 640), 1);
    assert_eq!(rt; shown_byte(bytes, &difi, &mut state, 641), 9);
    assert_eq!(rt; shown_byte(bytes, &difi, &mut state, 642), 1);
    state.settle(1);
    assert!(rt; !state.touched(5));
    Ok(())
}

#[test]
fn external_bytes_are_put_in_place(rt: HostRuntime) -> Result<(), Fail> {
    let difi = external_tree();
    let mut memory = vec![in rt.alloc(); 0u8; 2040]?;
    let bytes = &mut memory[..];
    bytes[528..728].fill(1);
    bytes[728..928].fill(2);
    bytes[1040..2040].fill(8);
    let mut state = DpfsState::new(rt.alloc(), &difi)?;
    assert!(rt; put_at(bytes, &difi, &mut state, 199, &[5, 6, 7]));
    for (place, want) in [
        (727, 1u8),
        (855, 2),
        (856, 1),
        (926, 1),
        (927, 5),
        (1040, 6),
        (1041, 7),
        (1042, 8),
    ] {
        assert_eq!(rt; bytes.get(place).copied(), Some(want));
    }
    for (block, want) in [(0u64, false), (1, true), (2, false)] {
        assert_eq!(rt; state.touched(block), want);
    }
    Ok(())
}

#[test]
fn a_seal_turns_the_bit_of_a_touched_block(rt: HostRuntime) -> Result<(), Fail> {
    let difi = new_tree();
    let mut memory = zeros(rt.alloc(), 106_512)?;
    let bytes = &mut memory[..];
    let mut state = DpfsState::new(rt.alloc(), &difi)?;
    assert!(rt; put_at(bytes, &difi, &mut state, 0, &[7]));
    assert_eq!(rt; seal_at(bytes, &difi, &mut state), Some(1));
    // Each copy of level 1, the words of each copy of level 2, and the first byte of each copy of level 3.
    for (place, want) in [
        (16, [0, 0, 0, 0]),
        (20, [0, 0, 0, 0x80]),
        (4112, [0, 0, 0, 0]),
        (4116, [0, 0, 0, 0]),
        (4240, [0, 0, 0, 0x80]),
        (4244, [0, 0, 0, 0]),
        (8208, [0, 0, 0, 0]),
        (57360, [7, 0, 0, 0]),
    ] {
        assert_eq!(rt; bytes.get(place..place + 4), Some(&want[..]));
    }
    Ok(())
}

#[test]
fn a_seal_of_nothing_copies_level_1(rt: HostRuntime) -> Result<(), Fail> {
    let difi = new_tree();
    let mut memory = zeros(rt.alloc(), 106_512)?;
    let bytes = &mut memory[..];
    write(bytes, &[(16, 1), (17, 2), (18, 3), (19, 4), (4243, 9)]);
    let mut state = DpfsState::new(rt.alloc(), &difi)?;
    assert_eq!(rt; seal_at(bytes, &difi, &mut state), Some(1));
    assert_eq!(rt; bytes.get(20..24), Some(&[1u8, 2, 3, 4][..]));
    assert_eq!(rt; bytes.get(4240..4244), Some(&[0u8, 0, 0, 9][..]));
    Ok(())
}

#[test]
fn a_seal_writes_the_blocks_of_level_2_with_a_turned_bit(rt: HostRuntime) -> Result<(), Fail> {
    let difi = internal_tree(0);
    let mut memory = base_with(rt.alloc(), &[(239, 0x20), (295, 0x55)])?;
    let bytes = &mut memory[..];
    let mut state = DpfsState::new(rt.alloc(), &difi)?;
    // Block 1,026 of level 3 has its bit in block 1 of level 2, which has one word.
    assert!(rt; put_at(bytes, &difi, &mut state, 128 * 1026, &[7]));
    assert_eq!(rt; seal_at(bytes, &difi, &mut state), Some(1));
    for (place, want) in [
        (16, [0u8, 0, 0, 0]),
        (20, [0, 0, 0, 0x40]),
        (32, [0, 0, 0, 0]),
        (160, [0, 0, 0, 0]),
        (164, [0, 0, 0, 0]),
        (236, [0, 0, 0, 0x20]),
        (292, [0, 0, 0, 0x20]),
    ] {
        assert_eq!(rt; bytes.get(place..place + 4), Some(&want[..]));
    }
    Ok(())
}

#[test]
fn seals_go_from_copy_to_copy(rt: HostRuntime) -> Result<(), Fail> {
    let mut memory = base_with(rt.alloc(), &[])?;
    let bytes = &mut memory[..];
    let mut wanted = zeros(rt.alloc(), 131_840)?;
    let mut found = zeros(rt.alloc(), 131_840)?;
    wanted.fill(1);
    let mut sealed: u8 = 0;
    for round in 1..9u8 {
        let difi = internal_tree(sealed % 2);
        let mut state = DpfsState::new(rt.alloc(), &difi)?;
        let mut kept = zeros(rt.alloc(), 131_840)?;
        shown(bytes, &difi, &mut state, &mut kept);
        assert!(rt; kept == wanted);
        // Puts straddle blocks, both blocks of level 2 are met, and the last two puts meet one block.
        let near = 97 * usize::from(round);
        assert!(rt; put_both(bytes, &mut wanted, &difi, &mut state, near, &[round; 300]));
        assert!(rt;
            put_both(
                bytes,
                &mut wanted,
                &difi,
                &mut state,
                64_000 + near,
                &[round; 300]
            )
        );
        assert!(rt;
            put_both(
                bytes,
                &mut wanted,
                &difi,
                &mut state,
                131_000 + near / 2,
                &[round; 300]
            )
        );
        assert!(rt;
            put_both(
                bytes,
                &mut wanted,
                &difi,
                &mut state,
                131_700,
                &[round; 140]
            )
        );
        shown(bytes, &difi, &mut state, &mut found);
        assert!(rt; found == wanted);
        // Until the seal is settled the copies that are chosen have the bytes of the round before.
        let mut fresh = DpfsState::new(rt.alloc(), &difi)?;
        shown(bytes, &difi, &mut fresh, &mut found);
        assert!(rt; found == kept);
        if round % 3 == 0 {
            // The round is dropped: the next one finds its bytes in copies that are not chosen.
            wanted = kept;
        } else {
            assert_eq!(rt; seal_at(bytes, &difi, &mut state), Some(1 - sealed % 2));
            let mut before = DpfsState::new(rt.alloc(), &difi)?;
            shown(bytes, &difi, &mut before, &mut found);
            assert!(rt; found == kept);
            sealed = 1 - sealed % 2;
        }
    }
    assert_eq!(rt; sealed, 0);
    Ok(())
}

#[test]
fn external_bytes_need_no_seal(rt: HostRuntime) -> Result<(), Fail> {
    let difi = external_tree();
    let mut memory = zeros(rt.alloc(), 2040)?;
    let bytes = &mut memory[..];
    let mut state = DpfsState::new(rt.alloc(), &difi)?;
    assert!(rt; put_at(bytes, &difi, &mut state, 1100, &[5, 6]));
    assert_eq!(rt; seal_at(bytes, &difi, &mut state), Some(1));
    for (place, want) in [(20, [0, 0, 0, 0]), (36, [0, 0, 0, 0]), (1940, [5, 6, 0, 0])] {
        assert_eq!(rt; bytes.get(place..place + 4), Some(&want[..]));
    }
    Ok(())
}
